ghost use Rattle.std.specs.Prelude.{◌≡◌, ◌==◌, ◌++◌, IfOk, OnOk};
ghost use Rattle.gtpp_message.specs.Packet.{IsPacket, packet_octets};
ghost use Rattle.gtpp_message.specs.Values.{lent, packet_value};
ghost use Rattle.gw_base.specs.Lists.{once};
ghost use Rattle.gateway_answer.specs.Filed.{filed, filed_by, filed_record, filed_under, held_packet, present_key, record_tag, released_by, released_records};
ghost use Rattle.gateway_answer.specs.Steps.{packet_after, with_number};

use crate::preparing::BER_FORMAT;
use gtpp_message::Packet;
use gw_base::{
    Absolute, CdrKind, HistoryAct, HistoryEntry, Moment, NoMemory, NodeId, Octets, PacketKey, Tag,
    cdr_kind, lists, scan,
};
use std::alloc::Global;

/// A record that goes into a CDR file.
#[derive(Drop)]
pub struct FiledRecord {
    /// The key of the packet that brought it.
    pub key: PacketKey,
    /// Its index in that packet, from 0.
    pub index: usize,
    /// What the header of its CDR says.
    pub kind: CdrKind,
    /// The tag of the record, where its data record format is BER.
    pub tag: Option<Tag>,
    /// Its octets, as the packet has them.
    pub octets: Octets,
    /// The moment of the entry that filed it.
    pub moment: Moment,
}

/// The records that a history files, in order: those of each File entry, and at a Release those of
/// the packets that it releases. It scans the history anew for each entry. `NoMemory`: there was no
/// memory for the records.
#[tactic(auto, using(crate::proofs::FilingLemmas::step_filed))]
pub fn filed(alloc: Global, history: &[HistoryEntry]) -> Result<Vec<FiledRecord>, NoMemory>
    ensures { IfOk result (λ found. found.items ≡ filed history.now) }
{
    let mut records = Vec::new(alloc);
    for (place, entry) in history.iter().enumerate() {
        let (before, _) = history.split_at(place);
        file_entry(alloc, &mut records, before, entry)?;
    }
    Ok(records)
}

/// Appends the records that an entry files, by the entries before it.
fn file_entry(
    alloc: Global,
    into: &mut Vec<FiledRecord>,
    before: &[HistoryEntry],
    entry: &HistoryEntry,
) -> Result<(), NoMemory>
    ensures { OnOk result (into.new.items ≡ into.old.items ++ filed_by before.now entry.now) }
{
    match &entry.act {
        HistoryAct::File {
            node,
            number,
            packet,
        } => {
            let key = present_key(before, *node, *number);
            file_packet(alloc, into, key, entry.moment, packet.octets())
        }
        HistoryAct::Release { node, numbers } => {
            let numbers = each_once(alloc, numbers.numbers())?;
            release(alloc, into, before, entry.moment, *node, &numbers)
        }
        _ => Ok(()),
    }
}

/// The key of a node's number in the node's present epoch.
fn present_key(history: &[HistoryEntry], node: NodeId, number: Absolute) -> PacketKey
    ensures { result ≡ present_key history.now node number }
{
    let epoch = scan::epoch(history, node);
    PacketKey {
        node,
        epoch,
        number,
    }
}

/// Each number once, in the order in which they come first.
#[tactic(auto, using(crate::proofs::ListsLemmas::once_is))]
fn each_once(alloc: Global, numbers: &[Absolute]) -> Result<Vec<Absolute>, NoMemory>
    ensures { IfOk result (λ found. found.items ≡ once (λ x y. x == y) numbers.now) }
{
    let mut once = Vec::new(alloc);
    for number in numbers {
        add_once(&mut once, *number)?;
    }
    Ok(once)
}

/// Adds a number, if it isn't there yet.
fn add_once(numbers: &mut Vec<Absolute>, number: Absolute) -> Result<(), NoMemory>
    ensures { OnOk result (numbers.new.items ≡ with_number numbers.old.items number) }
{
    if !lists(numbers, number) {
        numbers.push(number)?;
    }
    Ok(())
}

/// Appends the records of the held packets of these numbers, which are released.
fn release(
    alloc: Global,
    into: &mut Vec<FiledRecord>,
    before: &[HistoryEntry],
    moment: Moment,
    node: NodeId,
    numbers: &[Absolute],
) -> Result<(), NoMemory>
    ensures { OnOk result (into.new.items ≡ into.old.items ++ released_by before.now moment node numbers.now) }
{
    for number in numbers {
        release_one(alloc, into, before, moment, node, *number)?;
    }
    Ok(())
}

fn release_one(
    alloc: Global,
    into: &mut Vec<FiledRecord>,
    before: &[HistoryEntry],
    moment: Moment,
    node: NodeId,
    number: Absolute,
) -> Result<(), NoMemory>
    ensures { OnOk result (into.new.items ≡ into.old.items ++ released_records before.now moment node number) }
{
    let key = present_key(before, node, number);
    match held_packet(before, node, number) {
        Some(packet) => file_packet(alloc, into, key, moment, packet),
        None => Ok(()),
    }
}

/// The packet that is held under a node's number in the node's present epoch.
#[tactic(auto, using(crate::proofs::FilingLemmas::held_packet_is))]
fn held_packet(history: &[HistoryEntry], node: NodeId, number: Absolute) -> Option<&[u8]>
    ensures { lent result ≡ held_packet node.0 number history.now }
{
    let mut packet = None;
    for entry in history {
        packet = packet_after(&entry.act, node, number, packet);
    }
    packet
}

/// The held packet after an entry.
fn packet_after<'a>(
    act: &'a HistoryAct,
    node: NodeId,
    number: Absolute,
    packet: Option<&'a [u8]>,
) -> Option<&'a [u8]>
    ensures { lent result ≡ packet_after node.0 number (lent packet.entry) act.now }
{
    if act.begins_epoch(node) {
        return None;
    }
    if !act.names(node, number) {
        return packet;
    }
    match act {
        HistoryAct::Hold { packet, .. } => Some(packet.octets()),
        _ => None,
    }
}

/// Appends the records of a packet, filed under a key at a moment.
fn file_packet(
    alloc: Global,
    into: &mut Vec<FiledRecord>,
    key: PacketKey,
    moment: Moment,
    packet: &[u8],
) -> Result<(), NoMemory>
    ensures { OnOk result (into.new.items ≡ into.old.items ++ filed_under key moment packet.now) }
{
    match Packet::of(packet) {
        Some(packet) => file_records(alloc, into, key, moment, packet),
        None => Ok(()),
    }
}

/// Appends the records of a packet that was read.
#[tactic(auto, using(crate::proofs::FilingLemmas::records_filed, crate::proofs::FilingLemmas::filed_more))]
fn file_records(
    alloc: Global,
    into: &mut Vec<FiledRecord>,
    key: PacketKey,
    moment: Moment,
    packet: Packet<'_>,
) -> Result<(), NoMemory>
    requires { IsPacket (packet_value packet) }
    ensures { OnOk result (into.new.items
        ≡ into.old.items ++ filed_under key moment (packet_octets (packet_value packet.entry))) }
{
    let Packet::Full {
        count,
        format,
        version,
        ..
    } = packet
    else {
        return Ok(());
    };
    let mut records = packet.records();
    for index in 0..usize::from(count) {
        let Some(octets) = records.next() else {
            return Ok(());
        };
        into.push(filed_record(alloc, key, moment, format, version, index, octets)?)?;
    }
    Ok(())
}

/// A record of a packet, filed under a key at a moment.
fn filed_record(
    alloc: Global,
    key: PacketKey,
    moment: Moment,
    format: u8,
    version: u16,
    index: usize,
    octets: &[u8],
) -> Result<FiledRecord, NoMemory>
    ensures { IfOk result (λ found. found ≡ filed_record key moment format version (index, octets.now)) }
{
    Ok(FiledRecord {
        key,
        index,
        kind: cdr_kind(format, version),
        tag: record_tag(format, octets),
        octets: Octets::of(alloc, octets)?,
        moment,
    })
}

/// The tag in front of a record of a packet with this data record format, where that is BER; none where it isn't, or
/// where no tag stands there. It takes no memory.
pub fn record_tag(format: u8, octets: &[u8]) -> Option<Tag>
    ensures { result ≡ record_tag format octets.now }
{
    if format == BER_FORMAT {
        ber_frame::front_tag(octets)
    } else {
        None
    }
}
