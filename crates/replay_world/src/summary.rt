// What all gateways and all nodes of a replay count together.
ghost use Rattle.std.specs.Prelude.{◌≡◌, ◌<◌, ◌≤◌, ◌^◌, ◌-◌, ◌++◌, ◌+◌, [], ℕ, IfOk, OnOk, is_err, length};
ghost use Rattle.std.specs.List.{enumerate_from};
ghost use Rattle.replay_world.specs.Failing.{Fails};
ghost use Rattle.replay_world.specs.Stands.{Stands};
ghost use Rattle.replay_world.specs.Summary.{AreGatewaySums, AreNodeSums, TalliesAt, gateway_sums, node_sums, sum_line, summary_of, summary_text};
ghost use Rattle.replay_world.specs.Value.{ReplayValue};

use crate::replay::Replay;
use gw_base::{NoMemory, Octets};
use node_core::NodeCounts;
use replay_gateway::GatewayCounts;
use std::alloc::Global;

/// What all nodes count together: packets that were submitted, that became resolved, and that became done.
#[derive(Clone, Copy)]
pub struct NodeSums {
    pub packets: u128,
    pub resolved: u128,
    pub done: u128,
}

/// What all gateways count together: records that they filed, copies that they hold, and stranded ones.
#[derive(Clone, Copy)]
pub struct GatewaySums {
    /// Records that firm entries filed.
    pub records: u128,
    /// Copies that are held in the present epochs of their nodes, by all entries, firm or not.
    pub held: u128,
    /// Copies of earlier epochs that were neither released nor cancelled, by all entries, firm or not.
    pub stranded: u128,
}

/// What a whole network counts.
#[derive(Clone, Copy)]
pub struct Summary {
    pub nodes: NodeSums,
    pub gateways: GatewaySums,
}

impl Replay {
    /// What all gateways and all nodes count together. A gateway that is down is opened for this alone. It fails where
    /// there is no memory for that; then the replay has failed.
    pub fn summary(&mut self, alloc: Global) -> Result<Summary, NoMemory>
        ensures sums { (v : ReplayValue) → Stands v self.old →
            IfOk result (λ summary. Stands v self.new × (summary ≡ summary_of v)) }
        ensures fails { Fails (is_err result) self.old [] self.new [] }
    {
        if self.has_failed {
            return Err(NoMemory);
        }
        match self.sum_all(alloc) {
            Ok(summary) => Ok(summary),
            Err(NoMemory) => {
                self.has_failed = true;
                Err(NoMemory)
            }
        }
    }

    // The sums of all gateways and of all nodes.
    fn sum_all(&mut self, alloc: Global) -> Result<Summary, NoMemory>
        ensures { (v : ReplayValue) → Stands v self.old →
            IfOk result (λ summary. Stands v self.new × (summary ≡ summary_of v)) }
    {
        let gateways = self.sum_gateways(alloc)?;
        let nodes = self.sum_nodes();
        Ok(Summary { nodes, gateways })
    }

    // The sums of all gateways.
    fn sum_gateways(&mut self, alloc: Global) -> Result<GatewaySums, NoMemory>
        ensures { (v : ReplayValue) → Stands v self.old →
            IfOk result (λ sums. Stands v self.new × (sums ≡ gateway_sums v.world.gateways)) }
    {
        let mut sums = GatewaySums {
            records: 0,
            held: 0,
            stranded: 0,
        };
        for index in 0..self.gateways.len() {
            let tally = self.tally_gateway(alloc, index)?;
            sums = with_tally(sums, &tally);
        }
        Ok(sums)
    }

    // What the gateway in this place counts.
    fn tally_gateway(&mut self, alloc: Global, index: usize) -> Result<GatewayCounts, NoMemory>
        requires { index < length self.old.gateways.items }
        ensures count { length self.new.gateways.items ≡ length self.old.gateways.items }
        ensures tallies { (v : ReplayValue) → Stands v self.old →
            IfOk result (λ tally. Stands v self.new × TalliesAt v index tally) }
    {
        self.gateways[index].tally(alloc)
    }

    // The sums of all nodes.
    fn sum_nodes(&self) -> NodeSums
        ensures { (v : ReplayValue) → Stands v self.now →
            result ≡ node_sums (length v.world.gateways) (enumerate_from 0 v.world.nodes) }
    {
        let mut sums = NodeSums {
            packets: 0,
            resolved: 0,
            done: 0,
        };
        for index in 0..self.nodes.len() {
            sums = with_counts(sums, self.nodes[index].counts());
        }
        sums
    }
}

/// A sum with one number more.
fn plus(sum: u128, more: u64) -> u128
    requires { sum ≤ 2 ^ 128 - 2 ^ 64 }
    ensures sum { result ≡ sum + more }
    ensures few { result ≤ sum + 18446744073709551615 }
{
    sum + u128::from(more)
}

/// Sums with what one more gateway counts.
fn with_tally(sums: GatewaySums, tally: &GatewayCounts) -> GatewaySums
    requires { AreGatewaySums (2 ^ 128 - 2 ^ 64) sums }
    ensures sums { result ≡ record {
      records = sums.records + tally.now.records;
      held = sums.held + tally.now.held;
      stranded = sums.stranded + tally.now.stranded;
    } }
    ensures few { (most : ℕ) → AreGatewaySums most sums → AreGatewaySums (most + 18446744073709551615) result }
{
    GatewaySums {
        records: plus(sums.records, tally.records as u64),
        held: plus(sums.held, tally.held),
        stranded: plus(sums.stranded, tally.stranded),
    }
}

/// Sums with what one more node counts.
fn with_counts(sums: NodeSums, counts: NodeCounts) -> NodeSums
    requires { AreNodeSums (2 ^ 128 - 2 ^ 64) sums }
    ensures sums { result ≡ record {
      packets = sums.packets + counts.packets;
      resolved = sums.resolved + counts.resolved;
      done = sums.done + counts.done;
    } }
    ensures few { (most : ℕ) → AreNodeSums most sums → AreNodeSums (most + 18446744073709551615) result }
{
    NodeSums {
        packets: plus(sums.packets, counts.packets),
        resolved: plus(sums.resolved, counts.resolved),
        done: plus(sums.done, counts.done),
    }
}

/// Appends a summary, one line for each sum. `NoMemory`: there was no memory for all of it; a part of it may have been
/// appended.
pub fn print_summary(alloc: Global, out: &mut Octets, summary: &Summary) -> Result<(), NoMemory>
    ensures { OnOk result (out.new ≡ out.old ++ summary_text summary.now) }
{
    print_sum(alloc, out, "packets", summary.nodes.packets)?;
    print_sum(alloc, out, "resolved", summary.nodes.resolved)?;
    print_sum(alloc, out, "done", summary.nodes.done)?;
    print_sum(alloc, out, "records", summary.gateways.records)?;
    print_sum(alloc, out, "held", summary.gateways.held)?;
    print_sum(alloc, out, "stranded", summary.gateways.stranded)
}

/// A sum's line.
fn print_sum(alloc: Global, out: &mut Octets, name: &str, sum: u128) -> Result<(), NoMemory>
    ensures { OnOk result (out.new ≡ out.old ++ sum_line name.now sum) }
{
    let line = format!(in alloc; "{name} {sum}\n")?;
    out.append(line.as_bytes())
}
