//! Datagrams as messages, messages as octets, and the records of a packet.
//!
//! - `read OCTETS`, `read gateway OCTETS`, `read node OCTETS`: what a datagram is read as, at neither end or at one of
//!   them, and the name by which it is dropped.
//! - `write OCTETS`: whether the buffer has room for the message that is read, and what it holds then.
//! - `short OCTETS`: the message that is read, written without memory.
//! - `packet OCTETS`: the records of a packet's value, one by one and by their places.
//! - `event OCTETS`: the event of path management that a message tells.
//! - `message ADDRESS EVENT`: the message that tells an event, from this address.

ghost use Rattle.std.specs.Prelude.{◌≡◌, ◌≤◌, true, length};
ghost use Rattle.gtpp_message.specs.Packet.{IsPacket, count_of};
ghost use Rattle.gtpp_message.specs.Values.{message_value, packet_value};
ghost use Rattle.gtpp_message.specs.Writing.{body_octets};

use crate::paths::event_of;
use crate::words::{octets, print_octets};
use gtpp_message::{Message, Packet, Reading, Role, Transfer, read, read_as, write, write_short};
use gw_base::{Buffer, Full};
use path_mgmt::PathEvent;
use run_lines::{bad, first_word};
use std::io;

pub(crate) fn read_one(rt: &HostRuntime, words: &str) -> io::Result<()> {
    let (end, datagram) = words.split_once(' ').unwrap_or(("", words));
    let octets = octets(rt.alloc(), datagram)?;
    match end {
        "gateway" => tell(rt, &read_as(Role::Gateway, &octets)),
        "node" => tell(rt, &read_as(Role::Node, &octets)),
        _ => tell(rt, &read(&octets)),
    }
}

fn tell(rt: &HostRuntime, reading: &Reading<'_>) -> io::Result<()> {
    match reading {
        Reading::Drop(why) => print!(rt; "{why:?}, {}", why.name()),
        _ => print!(rt; "{reading:?}"),
    }
}

/// The most octets that a message of a line lends.
const MOST_LENT: usize = 40;

/// Whether a message lends few octets.
fn is_short(message: &Message<'_>) -> bool
    ensures { result ≡ true → length (body_octets (message_value message.now)) ≤ 58 }
{
    match message {
        Message::NodeAliveRequest {
            address: Some(octets),
        }
        | Message::RedirectionRequest {
            to: Some(octets),
            ..
        } => octets.len() <= MOST_LENT,
        Message::TransferRequest {
            body: Transfer::Send(packet) | Transfer::Possible(packet),
        } => packet.octets().len() <= MOST_LENT,
        Message::TransferRequest {
            body: Transfer::Cancel(numbers) | Transfer::Release(numbers),
        } => numbers.octets().len() <= MOST_LENT,
        Message::TransferResponse { responded, .. } => responded.octets().len() <= MOST_LENT,
        Message::EchoRequest
        | Message::EchoResponse { .. }
        | Message::VersionNotSupported
        | Message::NodeAliveRequest { address: None }
        | Message::NodeAliveResponse
        | Message::RedirectionRequest { to: None, .. }
        | Message::RedirectionResponse { .. } => true,
    }
}

pub(crate) fn write_one(rt: &HostRuntime, buffer: &mut Buffer, words: &str) -> io::Result<()> {
    let octets = octets(rt.alloc(), words)?;
    match written(&octets, buffer)? {
        Ok(()) => print!(rt; "Ok, ")?,
        Err(full) => print!(rt; "{full:?}, ")?,
    }
    print_octets(rt, buffer.octets())
}

/// Writes the message that octets are read as.
fn written(octets: &[u8], buffer: &mut Buffer) -> io::Result<Result<(), Full>> {
    let Reading::Message { number, message } = read(octets) else {
        return Err(bad());
    };
    if !is_short(&message) {
        return Err(bad());
    }
    Ok(write(number, &message, buffer))
}

pub(crate) fn short(rt: &HostRuntime, words: &str) -> io::Result<()> {
    let octets = octets(rt.alloc(), words)?;
    let Reading::Message { number, message } = read(&octets) else {
        return Err(bad());
    };
    if !is_short(&message) {
        return Err(bad());
    }
    print_octets(rt, write_short(number, &message).octets())
}

pub(crate) fn packet(rt: &HostRuntime, words: &str) -> io::Result<()> {
    let value = octets(rt.alloc(), words)?;
    let Some(packet) = Packet::of(&value) else {
        return print!(rt; "none");
    };
    print!(rt; "{packet:?}")?;
    let mut records = packet.records();
    for _ in 0..=u8::MAX {
        let Some(record) = records.next() else {
            break;
        };
        print!(rt; ", ")?;
        print_octets(rt, record)?;
    }
    each_part(rt, &packet)
}

/// How many records a packet has.
fn count_of(packet: &Packet<'_>) -> u8
    requires { IsPacket (packet_value packet.now) }
    ensures { result ≡ count_of (packet_value packet.now) }
{
    let _records = packet.records();
    match packet {
        Packet::Empty => 0,
        Packet::Full { count, .. } => *count,
    }
}

/// Prints each record by its place.
fn each_part(rt: &HostRuntime, packet: &Packet<'_>) -> io::Result<()>
    requires { IsPacket (packet_value packet.now) }
{
    for k in 0..count_of(packet) {
        print!(rt; ", {k} ")?;
        print_octets(rt, packet.part(k))?;
    }
    Ok(())
}

pub(crate) fn event(rt: &HostRuntime, words: &str) -> io::Result<()> {
    let octets = octets(rt.alloc(), words)?;
    let Reading::Message { number, message } = read(&octets) else {
        return Err(bad());
    };
    print!(rt; "{:?}", message.path_event(number))
}

pub(crate) fn message(rt: &HostRuntime, words: &str) -> io::Result<()> {
    let (address, event) = first_word(words);
    let event = event_of(event)?;
    let address = octets(rt.alloc(), address)?;
    tells(rt, event, &address)
}

/// Prints the message that tells an event, from this address.
fn tells(rt: &HostRuntime, event: PathEvent, address: &[u8]) -> io::Result<()> {
    let (number, message) = Message::of_path(event, Some(address));
    print!(rt; "{number}, {}, {message:?}", message.kind())
}
