// The report.
ghost use Rattle.std.specs.Prelude.{◌≡◌, ◌+◌, ◌<◌, ◌^◌, ◌++◌, OnOk, length};
ghost use Rattle.std.specs.List.{enumerate_from, flat_map, range_with_len};
ghost use Rattle.replay_world.specs.Report.{gateway_lines, node_line, node_text, report_of};
ghost use Rattle.replay_world.specs.Stands.{Stands};
ghost use Rattle.replay_world.specs.Value.{ReplayValue};

use crate::replay::Replay;
use crate::settling::octet;
use gw_base::{NoMemory, Octets};
use node_core::NodeCounts;
use std::alloc::Global;

impl Replay {
    /// The lines of all gateways and of all nodes.
    pub(crate) fn report_all(&mut self, alloc: Global, out: &mut Octets) -> Result<(), NoMemory>
        ensures { (v : ReplayValue) → Stands v self.old → OnOk result
            (Stands v self.new × (out.new ≡ out.old ++ report_of v)) }
    {
        self.report_gateways(alloc, out)?;
        self.report_nodes(alloc, out)
    }

    // The lines of all gateways.
    fn report_gateways(&mut self, alloc: Global, out: &mut Octets) -> Result<(), NoMemory>
        ensures { (v : ReplayValue) → Stands v self.old → OnOk result (Stands v self.new
            × (out.new ≡ out.old ++ flat_map (gateway_lines v) (range_with_len 0 (length v.world.gateways)))) }
    {
        for index in 0..self.gateways.len() {
            self.report_gateway(alloc, index, out)?;
        }
        Ok(())
    }

    // The lines of the gateway in this place.
    fn report_gateway(
        &mut self,
        alloc: Global,
        index: usize,
        out: &mut Octets,
    ) -> Result<(), NoMemory>
        requires { index < length self.old.gateways.items }
        ensures count { length self.new.gateways.items ≡ length self.old.gateways.items }
        ensures lines { (v : ReplayValue) → Stands v self.old →
            OnOk result (Stands v self.new × (out.new ≡ out.old ++ gateway_lines v index)) }
    {
        self.gateways[index].report(alloc, octet(index), out)
    }

    // The lines of all nodes.
    fn report_nodes(&self, alloc: Global, out: &mut Octets) -> Result<(), NoMemory>
        ensures { (v : ReplayValue) → Stands v self.now → OnOk result
            (out.new ≡ out.old ++ flat_map (λ n. node_line (length v.world.gateways) n.0 n.1)
            (enumerate_from 0 v.world.nodes)) }
    {
        for index in 0..self.nodes.len() {
            print_node(alloc, out, index, self.nodes[index].counts())?;
        }
        Ok(())
    }
}

/// Appends the line of what the node in this place counts, from 0. `NoMemory`: a part of it may have been appended.
pub fn print_node(
    alloc: Global,
    out: &mut Octets,
    place: usize,
    counts: NodeCounts,
) -> Result<(), NoMemory>
    requires { place + 1 < 2 ^ 64 }
    ensures { OnOk result (out.new ≡ out.old ++ node_text place counts) }
{
    let number = place + 1;
    let (packets, resolved, done) = (counts.packets, counts.resolved, counts.done);
    let line = format!(in alloc;
        "node {number} packets {packets} resolved {resolved} done {done}\n"
    )?;
    out.append(line.as_bytes())
}
