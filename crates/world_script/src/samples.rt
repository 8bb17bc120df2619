//! The script that a number gives.

ghost use Rattle.std.specs.Prelude.{◌≡◌, if◌then◌else◌, ◌≤◌, ◌<◌, ◌*◌, ◌+◌, ◌%◌, ◌++◌, [], ◌∷◌, map, Some, None, IfOk, OnOk, true};
ghost use Rattle.std.specs.List.{range_with_len};
ghost use Rattle.world_script.specs.World.{first_scene, takes_all};
ghost use Rattle.world_script.specs.Sample.{after_words, block, blocks, calm_round, commits, opening, packets_from, packets_of, record_octets, runs, sample_of, stopped_during, stormy, ticks, times, wild_round, wild_rounds, words_of_block, writes};

use crate::extent::Extent;
use crate::kind::ScriptKind;
use crate::line::Line;
use crate::records::Records;
use crate::script::Script;
use gw_base::{Moment, NoMemory, Octets};
use rand_core::SeedableRng;
use rand_core::utils::NextWord;
use rand_pcg::Pcg32;
use std::alloc::Global;

/// The moment at which a sample begins.
const FIRST_MOMENT: u64 = 1_700_000_000;

/// How many seconds each block of a sample takes.
const BLOCK_TIME: u64 = 60;

/// The replay that a seed gives, of so many nodes, gateways and packets: all packets are submitted,
/// messages are lost, repeated and late, and gateways stop and open again.
pub fn sample(
    alloc: Global,
    seed: u64,
    nodes: u8,
    gateways: u8,
    packets: u32,
) -> Result<Script, NoMemory>
    requires nodes { (1 ≤ nodes) × (nodes ≤ 16) }
    requires gateways { (1 ≤ gateways) × (gateways ≤ 8) }
    requires packets { (1 ≤ packets) × (packets ≤ 20000) }
    ensures is { IfOk result (λ script. script ≡ record {
      kind = ScriptKind.Replay;
      lines = sample_of seed (record { nodes = nodes; gateways = gateways; packets = packets });
    }) }
    ensures taken { IfOk result (λ script. takes_all first_scene script.lines ≡ true) }
{
    let extent = Extent {
        nodes,
        gateways,
        packets,
    };
    let mut rng = Pcg32::seed_from_u64(seed);
    let mut lines = Vec::new(alloc);
    push_opening(&mut lines, extent)?;
    push_blocks(alloc, &mut lines, extent, &mut rng)?;
    lines.push(Line::End)?;
    Ok(Script::from_lines(ScriptKind::Replay, lines))
}

#[tactic(auto, unfolding(crate::specs::Sample::opening))]
fn push_opening(lines: &mut Vec<Line>, extent: Extent) -> Result<(), NoMemory>
    ensures { OnOk result (lines.new.items ≡ lines.old.items ++ opening extent) }
{
    lines.push(Line::Gateways {
        count: extent.gateways,
    })?;
    lines.push(Line::Nodes {
        count: extent.nodes,
    })?;
    push_moment(lines, 0)?;
    push_calm_rounds(lines, extent, 4)
}

/// The moment after so many blocks.
fn push_moment(lines: &mut Vec<Line>, blocks: u32) -> Result<(), NoMemory>
    requires { blocks ≤ 20000 }
    ensures { OnOk result (lines.new.items ≡ lines.old.items ++ Line.At (1700000000 + 60 * blocks) ∷ []) }
{
    if let Some(moment) = Moment::of(FIRST_MOMENT + BLOCK_TIME * u64::from(blocks)) {
        lines.push(Line::At { moment })?;
    }
    Ok(())
}

/// How many blocks there are: as many as packets are left for.
fn blocks(extent: Extent) -> u32
    requires nodes { 1 ≤ extent.nodes }
    requires packets { extent.packets ≤ 20000 }
    ensures value { result ≡ blocks extent }
    ensures within { result ≤ 5000 }
{
    let most = 4 * u32::from(extent.nodes);
    (extent.packets + (most - 1)) / most
}

fn push_blocks(
    alloc: Global,
    lines: &mut Vec<Line>,
    extent: Extent,
    rng: &mut Pcg32,
) -> Result<(), NoMemory>
    requires nodes { (1 ≤ extent.nodes) × (extent.nodes ≤ 16) }
    requires gateways { (1 ≤ extent.gateways) × (extent.gateways ≤ 8) }
    requires packets { extent.packets ≤ 20000 }
    ensures { OnOk result (lines.new.items ≡ lines.old.items
        ++ times (blocks extent) (λ n. block extent n (after_words (words_of_block extent * n) rng.old))) }
{
    for n in 0..blocks(extent) {
        push_block(alloc, lines, extent, n, rng)?;
    }
    Ok(())
}

#[tactic(auto, using(crate::proofs::SampleLemmas::block_parts), unfolding(crate::specs::Sample::block))]
fn push_block(
    alloc: Global,
    lines: &mut Vec<Line>,
    extent: Extent,
    n: u32,
    rng: &mut Pcg32,
) -> Result<(), NoMemory>
    requires nodes { (1 ≤ extent.nodes) × (extent.nodes ≤ 16) }
    requires gateways { (1 ≤ extent.gateways) × (extent.gateways ≤ 8) }
    requires packets { extent.packets ≤ 20000 }
    requires number { n < 5000 }
    ensures lines { OnOk result (lines.new.items ≡ lines.old.items ++ block extent n rng.old) }
    ensures words { OnOk result (rng.new ≡ after_words (words_of_block extent) rng.old) }
{
    push_packets(alloc, lines, extent, 4 * u32::from(extent.nodes) * n)?;
    push_stormy(lines, extent, rng)?;
    push_calm_rounds(lines, extent, 12)?;
    push_moment(lines, n + 1)?;
    push_writes(lines, extent.gateways)
}

/// Up to four packets of each node, the first of all with this number.
#[tactic(auto, unfolding(crate::specs::Sample::packets_of))]
fn push_packets(
    alloc: Global,
    lines: &mut Vec<Line>,
    extent: Extent,
    first: u32,
) -> Result<(), NoMemory>
    requires nodes { extent.nodes ≤ 16 }
    requires first { first ≤ 400000 }
    ensures { OnOk result (lines.new.items ≡ lines.old.items ++ packets_of extent first) }
{
    for node in 0..u32::from(extent.nodes) {
        push_packets_of(alloc, lines, extent, node + 1, first + 4 * node)?;
    }
    Ok(())
}

/// Up to four packets of a node, from this one on.
#[tactic(auto, unfolding(crate::specs::Sample::packets_from))]
fn push_packets_of(
    alloc: Global,
    lines: &mut Vec<Line>,
    extent: Extent,
    node: u32,
    first: u32,
) -> Result<(), NoMemory>
    requires { first ≤ 500000 }
    ensures { OnOk result (lines.new.items ≡ lines.old.items ++ packets_from extent node first) }
{
    let count = extent.packets.saturating_sub(first).min(4);
    for place in 0..count {
        let packet = first + place;
        let records = records(alloc, packet)?;
        lines.push(Line::Submit {
            node: u64::from(node),
            format: 1,
            version: 0x0600,
            records,
        })?;
    }
    Ok(())
}

/// The records of a packet.
fn records(alloc: Global, packet: u32) -> Result<Records, NoMemory>
    ensures { IfOk result (λ records. records ≡ map (record_octets packet) (range_with_len 0 (1 + packet % 5))) }
{
    let mut records = Vec::new(alloc);
    for number in 0..1 + packet % 5 {
        let record = record(alloc, packet, number)?;
        records.push(record)?;
    }
    Ok(Records::from_vec(records))
}

/// A record: one BER value with the numbers of its packet and its own.
fn record(alloc: Global, packet: u32, number: u32) -> Result<Octets, NoMemory>
    requires { number < 256 }
    ensures { IfOk result (λ octets. octets ≡ record_octets packet number) }
{
    let octets = [
        0x85,
        5,
        (packet / 16_777_216) as u8,
        (packet / 65_536 % 256) as u8,
        (packet / 256 % 256) as u8,
        (packet % 256) as u8,
        number as u8,
    ];
    Octets::of(alloc, &octets)
}

/// The wild rounds of a block, during which one gateway of several is stopped.
#[tactic(auto, unfolding(crate::specs::Sample::stormy))]
fn push_stormy(lines: &mut Vec<Line>, extent: Extent, rng: &mut Pcg32) -> Result<(), NoMemory>
    ensures lines { OnOk result (lines.new.items ≡ lines.old.items ++ stormy extent rng.old) }
    ensures words { OnOk result (rng.new ≡ after_words (words_of_block extent) rng.old) }
{
    if extent.gateways < 2 {
        return push_wild_rounds(lines, extent, None, rng);
    }
    let gateway = 1 + rng.next_word() as u64 % extent.gateways as u64;
    push_stopped(lines, extent, gateway, rng)?;
    Ok(())
}

/// Wild rounds during which this gateway is stopped.
fn push_stopped(
    lines: &mut Vec<Line>,
    extent: Extent,
    gateway: u64,
    rng: &mut Pcg32,
) -> Result<(), NoMemory>
    ensures lines { OnOk result (lines.new.items ≡ lines.old.items ++ stopped_during extent gateway rng.old) }
    ensures words { OnOk result (rng.new ≡ after_words 12 rng.old) }
{
    lines.push(Line::Stop { gateway })?;
    push_wild_rounds(lines, extent, Some(gateway), rng)?;
    lines.push(Line::Open { gateway })?;
    Ok(())
}

#[tactic(auto, unfolding(crate::specs::Sample::wild_rounds))]
fn push_wild_rounds(
    lines: &mut Vec<Line>,
    extent: Extent,
    stopped: Option<u64>,
    rng: &mut Pcg32,
) -> Result<(), NoMemory>
    ensures lines { OnOk result (lines.new.items ≡ lines.old.items ++ wild_rounds extent stopped rng.old) }
    ensures words { OnOk result (rng.new ≡ after_words 12 rng.old) }
{
    for _n in 0..6u32 {
        let first = rng.next_word();
        let second = rng.next_word();
        push_wild_round(lines, extent, stopped, first, second)?;
    }
    Ok(())
}

fn push_wild_round(
    lines: &mut Vec<Line>,
    extent: Extent,
    stopped: Option<u64>,
    first: u32,
    second: u32,
) -> Result<(), NoMemory>
    ensures { OnOk result (lines.new.items ≡ lines.old.items ++ wild_round extent stopped first second) }
{
    push_ticks(lines, extent.nodes)?;
    lines.push(Line::Mix {
        seed: u64::from(first),
    })?;
    push_commits(lines, extent.gateways, stopped)?;
    lines.push(Line::Mix {
        seed: u64::from(second),
    })?;
    Ok(())
}

fn push_calm_rounds(lines: &mut Vec<Line>, extent: Extent, count: u32) -> Result<(), NoMemory>
    ensures { OnOk result (lines.new.items ≡ lines.old.items ++ times count (λ _. calm_round extent)) }
{
    for _n in 0..count {
        push_calm_round(lines, extent)?;
    }
    Ok(())
}

fn push_calm_round(lines: &mut Vec<Line>, extent: Extent) -> Result<(), NoMemory>
    ensures { OnOk result (lines.new.items ≡ lines.old.items ++ calm_round extent) }
{
    push_ticks(lines, extent.nodes)?;
    lines.push(Line::Flow)?;
    push_commits(lines, extent.gateways, None)?;
    lines.push(Line::Flow)?;
    Ok(())
}

fn push_ticks(lines: &mut Vec<Line>, nodes: u8) -> Result<(), NoMemory>
    ensures { OnOk result (lines.new.items ≡ lines.old.items ++ ticks nodes) }
{
    for node in 0..u64::from(nodes) {
        lines.push(Line::Tick { node: node + 1 })?;
    }
    Ok(())
}

/// A commit of each gateway that runs, where this one is stopped.
fn push_commits(lines: &mut Vec<Line>, gateways: u8, stopped: Option<u64>) -> Result<(), NoMemory>
    ensures { OnOk result (lines.new.items ≡ lines.old.items ++ commits gateways stopped) }
{
    for gateway in 0..u64::from(gateways) {
        push_commit(lines, gateway + 1, stopped)?;
    }
    Ok(())
}

/// A commit of a gateway, where it runs.
fn push_commit(lines: &mut Vec<Line>, gateway: u64, stopped: Option<u64>) -> Result<(), NoMemory>
    ensures { OnOk result (lines.new.items ≡ lines.old.items
        ++ (if runs stopped gateway then Line.Commit gateway ∷ [] else [])) }
{
    if runs(stopped, gateway) {
        lines.push(Line::Commit { gateway })?;
    }
    Ok(())
}

/// Whether a gateway runs, where this one is stopped.
fn runs(stopped: Option<u64>, gateway: u64) -> bool
    ensures { result ≡ runs stopped gateway }
{
    match stopped {
        Some(stopped) => stopped != gateway,
        None => true,
    }
}

fn push_writes(lines: &mut Vec<Line>, gateways: u8) -> Result<(), NoMemory>
    ensures { OnOk result (lines.new.items ≡ lines.old.items ++ writes gateways) }
{
    for gateway in 0..u64::from(gateways) {
        push_write(lines, gateway + 1)?;
    }
    Ok(())
}

fn push_write(lines: &mut Vec<Line>, gateway: u64) -> Result<(), NoMemory>
    ensures { OnOk result (lines.new.items ≡ lines.old.items ++ Line.Mark gateway ∷ Line.Write gateway ∷ []) }
{
    lines.push(Line::Mark { gateway })?;
    lines.push(Line::Write { gateway })?;
    Ok(())
}
