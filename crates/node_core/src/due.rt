//! What is due for a packet.

ghost use Rattle.std.specs.Prelude.{◌≡◌, ◌++◌, [], if◌then◌else◌, OnOk};
ghost use Rattle.std.specs.List.{flat_map};
ghost use Rattle.node_core.specs.Sendings.{again, asking, command_by, command_of, copy_to, due_by_copies, due_by_verdict, due_for, repeating, settling, settling_beside, test_of};

use crate::copies;
use crate::copy::{Order, PacketCopy, Verdict};
use crate::node_packet::NodePacket;
use crate::peer::{Peer, next_number};
use crate::sending::Sending;
use gw_base::NoMemory;

/// Where a new copy goes: the favourite, and whether it is alive.
#[derive(Clone, Copy)]
pub(crate) struct Aim {
    pub favourite: u8,
    pub is_alive: bool,
}

/// Appends what is due for a packet.
pub(crate) fn due_for(
    aim: Aim,
    peers: &[Peer],
    packet: &NodePacket,
    out: &mut Vec<Sending>,
) -> Result<(), NoMemory>
    ensures { OnOk result (out.new.items ≡ out.old.items ++ due_for aim.favourite aim.is_alive peers.now packet.now) }
{
    if packet.is_done() {
        return Ok(());
    }
    due_by_copies(aim, peers, packet.number(), packet.copies(), out)
}

/// Appends what is due for an open packet with this number and these copies.
fn due_by_copies(
    aim: Aim,
    peers: &[Peer],
    packet: u64,
    copies: &[PacketCopy],
    out: &mut Vec<Sending>,
) -> Result<(), NoMemory>
    ensures { OnOk result (out.new.items ≡ out.old.items
        ++ due_by_copies aim.favourite aim.is_alive peers.now packet copies.now) }
{
    match copies {
        [] => copy_to(aim, peers, packet, true, out),
        [plain, duplicates @ ..] => due_by_verdict(aim, peers, packet, *plain, duplicates, out),
    }
}

fn due_by_verdict(
    aim: Aim,
    peers: &[Peer],
    packet: u64,
    plain: PacketCopy,
    duplicates: &[PacketCopy],
    out: &mut Vec<Sending>,
) -> Result<(), NoMemory>
    ensures { OnOk result (out.new.items ≡ out.old.items
        ++ due_by_verdict plain.verdict aim.favourite aim.is_alive peers.now packet plain duplicates.now) }
{
    match plain.verdict {
        Verdict::Unknown => ask(aim, peers, packet, plain, duplicates, out),
        Verdict::Filed | Verdict::Held => settle_all(peers, packet, duplicates, out),
        Verdict::Sealed => match copies::chosen(duplicates) {
            None => settle_all(peers, packet, duplicates, out),
            Some(choice) => release(choice, peers, packet, duplicates, out),
        },
    }
}

/// Nothing is known of the plain copy: a test of it once a duplicate is held, else a copy.
fn ask(
    aim: Aim,
    peers: &[Peer],
    packet: u64,
    plain: PacketCopy,
    duplicates: &[PacketCopy],
    out: &mut Vec<Sending>,
) -> Result<(), NoMemory>
    ensures { OnOk result (out.new.items ≡ out.old.items
        ++ asking aim.favourite aim.is_alive peers.now packet plain duplicates.now) }
{
    if copies::any_is_held(duplicates) {
        out.push(test_of(packet, plain))?;
        return Ok(());
    }
    let there = if plain.gateway == aim.favourite {
        Some(plain)
    } else {
        copies::at_gateway(aim.favourite, duplicates)
    };
    repeat(there, aim, peers, packet, out)
}

/// The copy at the favourite again, or one more where the favourite is alive.
fn repeat(
    there: Option<PacketCopy>,
    aim: Aim,
    peers: &[Peer],
    packet: u64,
    out: &mut Vec<Sending>,
) -> Result<(), NoMemory>
    ensures { OnOk result (out.new.items ≡ out.old.items
        ++ repeating there aim.favourite aim.is_alive peers.now packet) }
{
    match there {
        Some(copy) => {
            out.push(again(packet, copy))?;
            Ok(())
        }
        None => copy_to(aim, peers, packet, false, out),
    }
}

/// The next copy of a packet, where the favourite is alive.
fn copy_to(
    aim: Aim,
    peers: &[Peer],
    packet: u64,
    is_plain: bool,
    out: &mut Vec<Sending>,
) -> Result<(), NoMemory>
    ensures { OnOk result (out.new.items ≡ out.old.items
        ++ copy_to aim.favourite aim.is_alive peers.now packet is_plain) }
{
    if aim.is_alive {
        out.push(Sending::Data {
            packet,
            gateway: aim.favourite,
            number: next_number(peers, aim.favourite),
            is_plain,
            is_new: true,
        })?;
    }
    Ok(())
}

/// The plain copy is sealed: the release of the choice, and the others are put out of the way.
fn release(
    choice: PacketCopy,
    peers: &[Peer],
    packet: u64,
    duplicates: &[PacketCopy],
    out: &mut Vec<Sending>,
) -> Result<(), NoMemory>
    ensures { OnOk result (out.new.items ≡ out.old.items
        ++ (command_of peers.now packet Order.Release choice
        ++ flat_map (settling_beside choice peers.now packet) duplicates.now)) }
{
    command_of(peers, packet, Order::Release, choice, out)?;
    settle_beside(choice, peers, packet, duplicates, out)
}

/// The duplicates are put out of the way, but the choice.
fn settle_beside(
    choice: PacketCopy,
    peers: &[Peer],
    packet: u64,
    duplicates: &[PacketCopy],
    out: &mut Vec<Sending>,
) -> Result<(), NoMemory>
    ensures { OnOk result (out.new.items ≡ out.old.items
        ++ flat_map (settling_beside choice peers.now packet) duplicates.now) }
{
    for copy in duplicates {
        settle_unless(copy.gateway == choice.gateway, peers, packet, *copy, out)?;
    }
    Ok(())
}

/// The duplicates are put out of the way.
fn settle_all(
    peers: &[Peer],
    packet: u64,
    duplicates: &[PacketCopy],
    out: &mut Vec<Sending>,
) -> Result<(), NoMemory>
    ensures { OnOk result (out.new.items ≡ out.old.items ++ flat_map (settling peers.now packet) duplicates.now) }
{
    for copy in duplicates {
        settle(peers, packet, *copy, out)?;
    }
    Ok(())
}

/// A duplicate is put out of the way, unless it is the choice.
fn settle_unless(
    is_choice: bool,
    peers: &[Peer],
    packet: u64,
    copy: PacketCopy,
    out: &mut Vec<Sending>,
) -> Result<(), NoMemory>
    ensures { OnOk result (out.new.items ≡ out.old.items
        ++ (if is_choice then [] else settling peers.now packet copy)) }
{
    if is_choice {
        return Ok(());
    }
    settle(peers, packet, copy, out)
}

/// A duplicate is put out of the way: a test where nothing is known of it, a cancel where it is
/// held.
fn settle(
    peers: &[Peer],
    packet: u64,
    copy: PacketCopy,
    out: &mut Vec<Sending>,
) -> Result<(), NoMemory>
    ensures { OnOk result (out.new.items ≡ out.old.items ++ settling peers.now packet copy) }
{
    match copy.verdict {
        Verdict::Unknown => {
            out.push(test_of(packet, copy))?;
            Ok(())
        }
        Verdict::Held => command_of(peers, packet, Order::Cancel, copy, out),
        Verdict::Filed | Verdict::Sealed => Ok(()),
    }
}

/// A release or a cancel, unless it is answered.
fn command_of(
    peers: &[Peer],
    packet: u64,
    order: Order,
    copy: PacketCopy,
    out: &mut Vec<Sending>,
) -> Result<(), NoMemory>
    ensures { OnOk result (out.new.items ≡ out.old.items ++ command_of peers.now packet order copy) }
{
    if !copy.is_answered() {
        out.push(command_by(peers, packet, order, copy))?;
    }
    Ok(())
}

/// A release or a cancel: with the number that was drawn for it before, or the next one.
fn command_by(peers: &[Peer], packet: u64, order: Order, copy: PacketCopy) -> Sending
    ensures { result ≡ command_by copy.command peers.now packet order copy }
{
    let (number, is_new) = match copy.command {
        None => (next_number(peers, copy.gateway), true),
        Some(command) => (command.number, false),
    };
    Sending::Command {
        packet,
        gateway: copy.gateway,
        named: copy.number,
        number,
        order,
        is_new,
    }
}

/// The empty packet with a copy's number.
fn test_of(packet: u64, copy: PacketCopy) -> Sending
    ensures { result ≡ test_of packet copy }
{
    Sending::Test {
        packet,
        gateway: copy.gateway,
        number: copy.number,
    }
}

/// A copy again.
fn again(packet: u64, copy: PacketCopy) -> Sending
    ensures { result ≡ again packet copy }
{
    Sending::Data {
        packet,
        gateway: copy.gateway,
        number: copy.number,
        is_plain: copy.is_plain,
        is_new: false,
    }
}
