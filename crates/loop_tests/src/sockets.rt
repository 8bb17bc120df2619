//! Loops over sockets of this machine, with ample memory. A run ends with `Link` while another process has its
//! addresses, and is then made again.
ghost use Rattle.loop_run.specs.Addresses.{IsLoop};

use gw_base::{NodeId, PacketId};
use loop_run::{LoopEnd, LoopSetup, Looped, NodeCounts, run_loop};
use net_link::UdpLinks;
use std::alloc::Global;
use std::net::Net;
use std::process::Abort;
use std::sync::Wait;
use std::thread::{self, Threads};
use std::time::{Clock, Duration};

/// How often a run is made again whose links couldn't be made.
const TRIES: u32 = 40;

/// A loop over sockets.
fn run<R: Threads + Wait + Clock + Sync + Net>(
    rt: &R,
    alloc: Global,
    setup: LoopSetup,
) -> (LoopEnd, Looped)
    requires { IsLoop setup }
{
    let mut links = UdpLinks::new(alloc, rt);
    run_loop(rt, alloc, setup, &mut links)
}

/// What it is, unless its addresses aren't free.
fn tried<R: Threads + Wait + Clock + Sync + Net>(
    rt: &R,
    alloc: Global,
    setup: LoopSetup,
) -> Option<(LoopEnd, Looped)>
    requires { IsLoop setup }
{
    match run(rt, alloc, setup) {
        (LoopEnd::Link, _) => {
            thread::sleep(rt, Duration::from_millis(250));
            None
        }
        ended => Some(ended),
    }
}

/// What it is, once its addresses are free.
fn looped<R: Threads + Wait + Clock + Sync + Net + Abort>(
    rt: &R,
    alloc: Global,
    setup: LoopSetup,
) -> (LoopEnd, Looped)
    requires { IsLoop setup }
{
    for _ in 0..TRIES {
        if let Some(ended) = tried(rt, alloc, setup) {
            return ended;
        }
    }
    panic!(rt; "no loop")
}

/// Both gateways and both nodes are there, and each packet is filed once.
fn is_fine(rt: &impl Abort, end: &LoopEnd) {
    let LoopEnd::Fine { nodes, gateways } = end else {
        panic!(rt; "not fine");
    };
    let all = NodeCounts {
        packets: 50,
        resolved: 50,
        done: 50,
    };
    assert_eq!(rt; nodes.as_slice(), [all, all].as_slice());
    // Packets have 1, 2, 3, 4 and 5 records by turns.
    assert_eq!(rt; gateways.len(), 2);
    assert_eq!(rt;
        gateways[0].records.checked_add(gateways[1].records),
        Some(300)
    );
}

/// A loop ran so many books, and so many nodes.
fn ran(rt: &impl Abort, looped: &Looped, wanted: (usize, usize)) {
    assert_eq!(rt; (looped.books.len(), looped.nodes.len()), wanted);
}

#[test]
fn gateways_and_nodes_over_sockets_file_each_packet_once(rt: HostRuntime) {
    let setup = LoopSetup {
        gateways: 2,
        nodes: 2,
        packets: 50,
        turns: 1_000_000,
    };
    let (end, looped) = looped(&rt, rt.alloc(), setup);
    is_fine(&rt, &end);
    ran(&rt, &looped, (2, 2));
}

/// The first packet alone isn't done, after one turn.
fn is_unfinished(rt: &impl Abort, end: &LoopEnd) {
    let LoopEnd::Unfinished {
        turns,
        packet,
        count,
    } = end
    else {
        panic!(rt; "finished");
    };
    let first = PacketId {
        node: NodeId(0x7F00_0065),
        number: 1,
    };
    assert_eq!(rt; (*turns, *packet, *count), (1, first, 1));
}

#[test]
fn one_turn_is_too_few_for_a_packet(rt: HostRuntime) {
    let setup = LoopSetup {
        gateways: 1,
        nodes: 1,
        packets: 1,
        turns: 1,
    };
    let (end, looped) = looped(&rt, rt.alloc(), setup);
    is_unfinished(&rt, &end);
    ran(&rt, &looped, (1, 1));
}
