//! Which acts are fit to stand in a journal.
ghost use Rattle.std.specs.Prelude.{◌≡◌, ◌==◌};
ghost use Rattle.std.specs.List.{list_all, list_any};
ghost use Rattle.gw_base.specs.Entry.{act_view};
ghost use Rattle.gw_base.specs.HeldKeys.{is_held};
ghost use Rattle.gateway_answer.specs.Fit.{are_distinct, is_act_fit, is_fresh, is_in_window, is_list_fit, is_new, is_packet_fit};
ghost use Rattle.gateway_answer.specs.Numbers.{AreWithin};

use crate::answering::is_in_range;
use crate::observe::Observe;
use crate::preparing::has_values;
use gtpp_message::Packet;
use gw_base::{Absolute, Act, KeyState, NodeId, lists};

/// How far below the greatest number of an epoch a number may lie.
const WINDOW: u64 = 32_768;

/// Whether an act is fit to be recorded next: whether its node may be known, its number may get its first state, its
/// packet is one, its numbers are held.
pub fn is_act_fit<O: Observe>(seen: &O, act: &Act<'_>) -> bool
    ensures { result ≡ is_act_fit (O.seen seen.now) (act_view act.now) }
{
    match *act {
        Act::Start | Act::Tick | Act::Close => true,
        Act::Path { node, .. } => seen.has_place(node),
        Act::File {
            node,
            number,
            packet,
        } => is_new(seen, node, number) && is_packet_fit(packet),
        Act::Hold {
            node,
            number,
            packet,
        } => is_new(seen, node, number) && is_packet_fit(packet) && seen.may_hold(),
        Act::Seal { node, number } => is_new(seen, node, number),
        Act::Release { node, numbers } => is_list_fit(seen, node, numbers),
        Act::Cancel { node, numbers } => is_list_fit(seen, node, numbers),
    }
}

/// Whether a number may get its first state.
fn is_new<O: Observe>(seen: &O, node: NodeId, number: Absolute) -> bool
    ensures { result ≡ is_new (O.seen seen.now node) number }
{
    seen.has_place(node)
        && is_fresh(seen.state(node, number))
        && is_in_range(number)
        && is_in_window(seen.top(node), number)
}

fn is_fresh(state: KeyState) -> bool
    ensures { result ≡ is_fresh state }
{
    matches!(state, KeyState::Fresh)
}

/// Whether a number isn't too far below the greatest one.
fn is_in_window(top: Option<Absolute>, number: Absolute) -> bool
    ensures { result ≡ is_in_window top number }
{
    match top {
        Some(top) => u128::from(top) <= u128::from(number) + u128::from(WINDOW),
        None => true,
    }
}

/// Whether a packet has records, each of which is what its format says.
fn is_packet_fit(packet: &[u8]) -> bool
    ensures { result ≡ is_packet_fit packet.now }
{
    match Packet::of(packet) {
        None | Some(Packet::Empty) => false,
        Some(packet) => has_values(packet),
    }
}

/// Whether a list names a number, held ones alone and each once.
fn is_list_fit<O: Observe>(seen: &O, node: NodeId, numbers: &[Absolute]) -> bool
    ensures { result ≡ is_list_fit (O.seen seen.now node) numbers.now }
{
    if numbers.is_empty() {
        return false;
    }
    are_held(seen, node, numbers) && are_distinct(numbers)
}

/// Whether these numbers are held.
fn are_held<O: Observe>(seen: &O, node: NodeId, numbers: &[Absolute]) -> bool
    ensures { result ≡ list_all (λ y. is_held ((O.seen seen.now node).state y)) numbers.now }
{
    for number in numbers {
        if seen.state(node, *number) != KeyState::Held {
            return false;
        }
    }
    true
}

/// Whether no two of these numbers are equal. It takes as many steps as there are numbers where they rise or fall.
fn are_distinct(numbers: &[Absolute]) -> bool
    ensures { result ≡ are_distinct numbers.now }
{
    let mut k = numbers.len();
    let mut least = Absolute::MAX;
    let mut greatest = 0;
    while k > 0 {
        let number = numbers[k - 1];
        if is_among(numbers.split_at(k).1, number, least, greatest) {
            return false;
        }
        least = least.min(number);
        greatest = greatest.max(number);
        k -= 1;
    }
    true
}

/// Whether a number is one of these, which lie between these bounds.
fn is_among(numbers: &[Absolute], number: Absolute, least: Absolute, greatest: Absolute) -> bool
    requires { AreWithin least greatest numbers.now }
    ensures { result ≡ list_any (λ y. y == number) numbers.now }
{
    if number < least {
        return false;
    }
    if greatest < number {
        return false;
    }
    lists(numbers, number)
}
