//! What the copies of a packet say of it.

ghost use Rattle.std.specs.Prelude.{◌≡◌, ◌==◌, map, OnOk};
ghost use Rattle.std.specs.List.{find, list_all, list_any};
ghost use Rattle.node_core.specs.Copies.{copy_hearing, is_chosen, is_held, is_released, is_settled};
ghost use Rattle.node_core.specs.Moving.{is_unknown_at};
ghost use Rattle.node_core.specs.Packets.{chosen, commanded, copies_after, is_done, is_resolved};
ghost use Rattle.node_core.specs.Submitting.{least, numbers_at};

use crate::copy::{Command, PacketCopy};
use crate::port::Port;
use crate::responded::Responded;
use crate::sending::Sending;
use gw_base::NoMemory;

/// Whether the records are filed once: the plain copy is filed, or a possible duplicate is
/// released.
pub(crate) fn is_resolved(copies: &[PacketCopy]) -> bool
    ensures { result ≡ is_resolved copies.now }
{
    match copies {
        [] => false,
        [plain, duplicates @ ..] => { plain.verdict.is_filed() || any_is_released(duplicates) }
    }
}

/// Whether they are, and every other copy is out of the way.
pub(crate) fn is_done(copies: &[PacketCopy]) -> bool
    ensures { result ≡ is_done copies.now }
{
    match copies {
        [] => false,
        [_, duplicates @ ..] => is_resolved(copies) && all_are_settled(duplicates),
    }
}

fn any_is_released(duplicates: &[PacketCopy]) -> bool
    ensures { result ≡ list_any is_released duplicates.now }
{
    duplicates.iter().any(|copy| copy.is_released())
}

fn all_are_settled(duplicates: &[PacketCopy]) -> bool
    ensures { result ≡ list_all is_settled duplicates.now }
{
    duplicates.iter().all(|copy| copy.is_settled())
}

/// Whether a duplicate is held.
pub(crate) fn any_is_held(duplicates: &[PacketCopy]) -> bool
    ensures { result ≡ list_any (λ copy. is_held copy.verdict) duplicates.now }
{
    duplicates.iter().any(|copy| copy.verdict.is_held())
}

/// Whether nothing is known of the copy at a gateway.
pub(crate) fn is_unknown_at(gateway: u8, copies: &[PacketCopy]) -> bool
    ensures { result ≡ list_any (is_unknown_at gateway) copies.now }
{
    copies.iter().any(|copy| copy.gateway == gateway && copy.verdict.is_unknown())
}

/// The first copy at a gateway.
pub(crate) fn at_gateway(gateway: u8, copies: &[PacketCopy]) -> Option<PacketCopy>
    ensures { result ≡ find (λ copy. copy.gateway == gateway) copies.now }
{
    copies.iter().copied().find(|copy| copy.gateway == gateway)
}

/// The duplicate that is released where the plain copy is sealed: the one that a release was sent
/// for, else the first that is held.
pub(crate) fn chosen(duplicates: &[PacketCopy]) -> Option<PacketCopy>
    ensures { result ≡ chosen duplicates.now }
{
    match first_chosen(duplicates) {
        Some(copy) => Some(copy),
        None => first_held(duplicates),
    }
}

fn first_chosen(duplicates: &[PacketCopy]) -> Option<PacketCopy>
    ensures { result ≡ find is_chosen duplicates.now }
{
    duplicates.iter().copied().find(|copy| copy.is_chosen())
}

fn first_held(duplicates: &[PacketCopy]) -> Option<PacketCopy>
    ensures { result ≡ find (λ copy. is_held copy.verdict) duplicates.now }
{
    duplicates
        .iter()
        .copied()
        .find(|copy| copy.verdict.is_held())
}

/// The least of the copies' numbers at a gateway and of one more.
#[tactic(auto, using(crate::proofs::CopiesLemmas::least_more, crate::proofs::CopiesLemmas::least_none))]
pub(crate) fn least_at(gateway: u8, number: u64, copies: &[PacketCopy]) -> u64
    ensures { result ≡ least number (numbers_at gateway copies.now) }
{
    let mut least = number;
    for copy in copies {
        if copy.gateway == gateway {
            least = least.min(copy.number);
        }
    }
    least
}

/// The copies hear a response from a gateway.
#[tactic(auto, using(crate::proofs::CopiesLemmas::hearing_more, std::proofs::lemmas::Grind::common_steps))]
pub(crate) fn hear(
    copies: &mut [PacketCopy],
    port: Port,
    gateway: u8,
    cause: u8,
    numbers: &Responded<'_>,
)
    ensures { copies.new ≡ map (copy_hearing port gateway cause numbers.now) copies.old }
{
    for i in 0..copies.len() {
        copies[i] = copies[i].hearing(port, gateway, cause, numbers);
    }
}

/// The copies after a sending of their packet.
pub(crate) fn note_sending(copies: &mut Vec<PacketCopy>, sending: &Sending) -> Result<(), NoMemory>
    ensures { OnOk result (copies.new.items ≡ copies_after sending.now copies.old.items) }
{
    match *sending {
        Sending::Data {
            gateway,
            number,
            is_plain,
            is_new: true,
            ..
        } => {
            copies.push(PacketCopy::new(gateway, number, is_plain))?;
            Ok(())
        }
        Sending::Command {
            gateway,
            number,
            order,
            is_new: true,
            ..
        } => {
            command(
                copies,
                gateway,
                Command {
                    order,
                    number,
                    is_answered: false,
                },
            );
            Ok(())
        }
        Sending::Probe { .. }
        | Sending::Data { .. }
        | Sending::Test { .. }
        | Sending::Command { .. } => Ok(()),
    }
}

/// A command is sent for the copy at a gateway, where none was sent before.
#[tactic(auto, using(crate::proofs::CopiesLemmas::commanded_more, std::proofs::lemmas::Grind::common_steps))]
fn command(copies: &mut [PacketCopy], gateway: u8, command: Command)
    ensures { copies.new ≡ map (commanded gateway command) copies.old }
{
    for i in 0..copies.len() {
        copies[i] = commanded(copies[i], gateway, command);
    }
}

/// The copy, for which the command is sent where it is the one at this gateway.
fn commanded(copy: PacketCopy, gateway: u8, command: Command) -> PacketCopy
    ensures { result ≡ commanded gateway command copy }
{
    if copy.gateway != gateway {
        return copy;
    }
    PacketCopy {
        command: match copy.command {
            Some(earlier) => Some(earlier),
            None => Some(command),
        },
        ..copy
    }
}
