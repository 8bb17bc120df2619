// The turns of a node.
ghost use Rattle.std.specs.Prelude.{◌≡◌, ◌≤◌, ◌<◌, ◌+◌, ◌^◌, ℕ, length, true};
ghost use Rattle.net_link.specs.Steps.{most_octets};
ghost use Rattle.node_core.specs.Value.{NodeValue};
ghost use Rattle.node_run.specs.Outcomes.{AreNewLinks, EndsSo, StaysAt, turns_of};
ghost use Rattle.node_run.specs.Running.{all_done};
ghost use Rattle.node_run.specs.Steps.{RunsOn, TurnsEnd, end_by};

use crate::hearing::other_port;
use crate::linked::{LinkedNode, NodeEnd, Work};
use crate::watch::NodeWatch;
use net_link::{Link, LinkStop};
use node_core::Port;
use std::alloc::Global;

/// The most octets of a datagram.
const MOST_OCTETS: usize = 65_507;

/// A node that runs: the port of its next turn, and how many turns are left.
#[derive(Drop)]
struct NodeRun<L: Link> {
    linked: LinkedNode<L>,
    port: Port,
    left: u64,
}

/// How a run ends whose link stopped.
fn end_by(stop: LinkStop) -> NodeEnd
    ensures { result ≡ end_by stop }
{
    match stop {
        LinkStop::Failed => NodeEnd::Link,
        LinkStop::NoMemory => NodeEnd::NoMemory,
    }
}

impl<L: Link> LinkedNode<L> {
    /// Lets the node run over its links, which are new. It submits packets while fewer than 64 are open, ticks before
    /// its first turn and after each in which nothing came, and ends once all its packets are done or its turns are
    /// taken. A fault of a link or want of memory ends it, too. The watch is told of each turn, as of the node in this
    /// place.
    pub fn run<W: NodeWatch>(
        self,
        alloc: Global,
        work: Work,
        place: usize,
        watch: &W,
    ) -> (NodeEnd, LinkedNode<L>)
        requires new { AreNewLinks L.Link self }
        requires runs { self.node.is_running ≡ true }
        requires few { work.turns < 2 ^ 63 }
        ensures ends { EndsSo L.Link work self.node result.1 result.0 }
        ensures stays { StaysAt L.Link self result.1 }
    {
        let Ok(mut buffer) = Vec::from_elem(alloc, 0u8, MOST_OCTETS) else {
            return (NodeEnd::NoMemory, self);
        };
        let mut linked = self;
        if let Err(stop) = linked.tick(alloc, work.packets) {
            return (end_by(stop), linked);
        }
        let run = NodeRun {
            linked,
            port: Port::First,
            left: work.turns,
        };
        let buffer = buffer.as_mut_slice();
        let (end, run) = take_turns(alloc, run, work.packets, buffer, place, watch);
        (end, run.linked)
    }

    /// Whether all packets of the node are done, of so many in all.
    fn is_done(&self, packets: u32) -> bool
        ensures { result ≡ all_done packets self.now.node }
    {
        self.node.counts().done == u64::from(packets)
    }
}

/// Takes the turns that are left, until all packets are done, and tells the watch of each.
fn take_turns<L: Link, W: NodeWatch>(
    alloc: Global,
    run: NodeRun<L>,
    packets: u32,
    buffer: &mut [u8],
    place: usize,
    watch: &W,
) -> (NodeEnd, NodeRun<L>)
    requires runs { run.linked.node.is_running ≡ true }
    requires long { most_octets ≤ length buffer.old }
    requires few { turns_of L.Link run.linked + run.left < 2 ^ 63 }
    ensures ends { (first : NodeValue) (n : ℕ) → RunsOn L.Link packets first n run →
        TurnsEnd L.Link packets first n result.1 result.0 }
    ensures stays { StaysAt L.Link run.linked result.1.linked }
{
    let mut run = run;
    while run.left > 0 {
        if run.linked.is_done(packets) {
            return (NodeEnd::Done, run);
        }
        run.left -= 1;
        if let Err(stop) = run.linked.turn(alloc, packets, run.port, buffer) {
            return (end_by(stop), run);
        }
        run.port = other_port(run.port);
        watch.turned(place, &run.linked.node);
    }
    if run.linked.is_done(packets) {
        return (NodeEnd::Done, run);
    }
    (NodeEnd::Spent, run)
}
