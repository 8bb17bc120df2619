//! `loopback`: gateways and nodes of this machine against one another, and the audit.
ghost use Rattle.std.specs.Prelude.{◌≡◌, ◌+◌, ◌<◌, ◌^◌, ◌++◌, ◌∷◌, [], false, IfOk, IfSome, OnOk, map, string_bytes};
ghost use Rattle.gw_base.specs.declared.address.Addr.{Addr};
ghost use Rattle.loop_run.specs.Addresses.{IsLoop};
ghost use Rattle.cgf_top.specs.LoopSteps.{WritesEnd, WritesLoop, WritesReport, lines_from, report_text};
ghost use Rattle.cgf_top.specs.Looping.{looping_by, looping_of};
ghost use Rattle.cgf_jobs.specs.Run.{may_have_written};
ghost use Rattle.replay_gateway.specs.GatewayReport.{counts_text};
ghost use Rattle.replay_world.specs.Report.{node_text};

use crate::watch::LoopWatch;
use cgf_jobs::{Status, Watch, write_all};
use gw_base::{NoMemory, Octets, Sink};
use loop_run::{GatewayCounts, LoopEnd, LoopSetup, Looped, NodeCounts, run_loop_watched};
use net_link::Links;
use replay_gateway::print_counts;
use replay_world::print_node;
use std::alloc::Global;
use std::sync::Wait;
use std::thread::Threads;
use std::time::Clock;
use world_script::number_between;

/// The loop that the words ask for, where they are those of `loopback`.
pub(crate) fn looping_of(words: &[String]) -> Option<LoopSetup>
    ensures asked { result ≡ looping_of (map string_bytes words.now) }
    ensures within { IfSome result IsLoop }
{
    let [name, gateways, nodes, packets, turns] = words else {
        return None;
    };
    by_name(name, gateways, nodes, packets, turns)
}

/// What these numbers say, where the name is that of the command.
#[tactic(auto, using(crate::proofs::LoopWords::chosen))]
fn by_name(
    name: &String,
    gateways: &String,
    nodes: &String,
    packets: &String,
    turns: &String,
) -> Option<LoopSetup>
    ensures asked { result ≡ looping_of (string_bytes name.now ∷ string_bytes gateways.now ∷ string_bytes nodes.now
        ∷ string_bytes packets.now ∷ string_bytes turns.now ∷ []) }
    ensures within { IfSome result IsLoop }
{
    if name.as_str() == "loopback" {
        by_numbers(
            gateways.as_bytes(),
            nodes.as_bytes(),
            packets.as_bytes(),
            turns.as_bytes(),
        )
    } else {
        None
    }
}

/// What these numbers say, where each is one in its range.
fn by_numbers(gateways: &[u8], nodes: &[u8], packets: &[u8], turns: &[u8]) -> Option<LoopSetup>
    ensures said { result ≡ looping_by gateways.now nodes.now packets.now turns.now }
    ensures within { IfSome result IsLoop }
{
    Some(LoopSetup {
        gateways: number_between(1, 4, gateways)? as u8,
        nodes: number_between(1, 8, nodes)? as u8,
        packets: number_between(1, 1_000, packets)? as u32,
        turns: number_between(1, 10_000_000, turns)?,
    })
}

/// Lets a loop run over these links, and writes what its nodes and gateways count where the audit of it is fine. The
/// watch is told how far the nodes are.
pub(crate) fn loop_back<K: Sink, L: Links, W: Watch + Sync, R: Threads + Wait + Clock + Sync>(
    rt: &R,
    alloc: Global,
    setup: LoopSetup,
    sink: &mut K,
    links: &mut L,
    watch: &W,
) -> (Status, Looped)
where
    L::Link: Send,
    requires within { IsLoop setup }
    requires turns { (at : Addr) → (L.state links.old).turns at < 2 ^ 63 }
    ensures loops { WritesLoop setup (L.state links.old) (L.state links.new) (K.written sink.old) (K.written sink.new)
        (K.faults sink.old) (K.faults sink.new) result.0 result.1 }
    ensures untouched { may_have_written result.0 ≡ false → sink.new ≡ sink.old }
{
    let watch = LoopWatch { setup, watch };
    let (end, looped) = run_loop_watched(rt, alloc, setup, links, &watch);
    (write_end(alloc, sink, end), looped)
}

/// How a loop ended. What its nodes and gateways count is written where the audit of it is fine.
fn write_end<K: Sink>(alloc: Global, sink: &mut K, end: LoopEnd) -> Status
    ensures ends { WritesEnd (K.written sink.old) (K.written sink.new) (K.faults sink.old) (K.faults sink.new) end
        result }
    ensures untouched { may_have_written result ≡ false → sink.new ≡ sink.old }
{
    match end {
        LoopEnd::Fine { nodes, gateways } => write_report(
            alloc,
            sink,
            nodes.as_slice(),
            gateways.as_slice(),
        ),
        LoopEnd::Wrong {
            packet,
            places,
            wanted,
        } => Status::Audit {
            packet,
            places,
            wanted,
        },
        LoopEnd::Unfinished {
            turns,
            packet,
            count,
        } => Status::Unfinished {
            turns,
            packet,
            count,
        },
        LoopEnd::Link => Status::Link,
        LoopEnd::NoMemory => Status::Memory,
    }
}

/// Writes what nodes and gateways count, and that the audit is fine.
fn write_report<K: Sink>(
    alloc: Global,
    sink: &mut K,
    nodes: &[NodeCounts],
    gateways: &[GatewayCounts],
) -> Status
    ensures wrote { WritesReport nodes.now gateways.now (K.written sink.old) (K.written sink.new) (K.faults sink.old)
        (K.faults sink.new) result }
    ensures untouched { may_have_written result ≡ false → sink.new ≡ sink.old }
{
    let Ok(text) = report_text(alloc, nodes, gateways) else {
        return Status::Memory;
    };
    match write_all(sink, text.octets()) {
        Ok(()) => Status::Done,
        Err(_) => Status::Write,
    }
}

/// The lines of what nodes and gateways count, and that the audit is fine.
fn report_text(
    alloc: Global,
    nodes: &[NodeCounts],
    gateways: &[GatewayCounts],
) -> Result<Octets, NoMemory>
    ensures { IfOk result (λ text. text ≡ report_text nodes.now gateways.now) }
{
    let mut text = Octets::from_vec(Vec::new(alloc));
    print_nodes(alloc, &mut text, nodes)?;
    print_gateways(alloc, &mut text, gateways)?;
    text.append(b"audit fine\n")?;
    Ok(text)
}

/// Appends the lines of what nodes count.
fn print_nodes(alloc: Global, text: &mut Octets, nodes: &[NodeCounts]) -> Result<(), NoMemory>
    ensures { OnOk result (text.new ≡ text.old ++ lines_from node_text 0 nodes.now) }
{
    for at in 0..nodes.len() {
        print_node(alloc, text, at, nodes[at])?;
    }
    Ok(())
}

/// Appends the lines of what gateways count.
fn print_gateways(
    alloc: Global,
    text: &mut Octets,
    gateways: &[GatewayCounts],
) -> Result<(), NoMemory>
    ensures { OnOk result (text.new ≡ text.old ++ lines_from counts_text 0 gateways.now) }
{
    for at in 0..gateways.len() {
        print_counts(alloc, text, at, gateways[at])?;
    }
    Ok(())
}
