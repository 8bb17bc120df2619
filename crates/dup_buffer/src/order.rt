// Copies in order of their nodes and numbers.
ghost use Rattle.std.specs.Prelude.{◌≡◌, ◌≤◌, ◌<◌, ◌==◌, ◌&&◌, ◌∷◌, ◌++◌, [], true, length, filter, not, slice_index_or, vec_capacity, IfErr, IfOk, IfSome, None};
ghost use Rattle.std.specs.List.{find};
ghost use Rattle.dup_buffer.specs.Stored.{AreFrom, HaveSame, IsAbsent, IsFound, IsFrom, held_in, is_copy_of};
ghost use Rattle.dup_buffer.specs.declared.copy.HeldCopy.{HeldCopy};

use crate::copy::{HeldCopy, rank_of};
use gw_base::{Absolute, NodeId};

/// Where the copies of a rank and later ones begin.
fn first_from(copies: &[HeldCopy], rank: u128) -> usize
    requires { AreFrom 0 copies.now }
    ensures { IsFrom copies.now result rank }
{
    copies.partition_point(|copy| copy.rank() < rank)
}

/// The copy that stands here.
pub(crate) fn copy_at(copies: &[HeldCopy], at: usize) -> HeldCopy
    requires { at < length copies.now }
    ensures { (d : HeldCopy) → result ≡ slice_index_or copies.now at d }
{
    copies[at]
}

/// Where the copy of a node's number stands, or else the place where it belongs.
pub(crate) fn search(copies: &[HeldCopy], node: NodeId, number: Absolute) -> Result<usize, usize>
    requires { AreFrom 0 copies.now }
    ensures found { IfOk result (λ at. IsFound copies.now at node.0 number) }
    ensures absent { IfErr result (λ at. IsAbsent copies.now at node.0 number) }
{
    let at = first_from(copies, rank_of(node, number));
    if at == copies.len() {
        return Err(at);
    }
    if copy_at(copies, at).is_of(node, number) {
        return Ok(at);
    }
    Err(at)
}

/// The copy of a node's number.
pub(crate) fn find_in(copies: &[HeldCopy], node: NodeId, number: Absolute) -> Option<HeldCopy>
    requires { AreFrom 0 copies.now }
    ensures { result ≡ find (is_copy_of node.0 number) copies.now }
{
    match search(copies, node, number) {
        Ok(at) => Some(copy_at(copies, at)),
        Err(_) => None,
    }
}

/// The copy of a node's number, if it is held.
pub(crate) fn find_held(copies: &[HeldCopy], node: NodeId, number: Absolute) -> Option<HeldCopy>
    requires { AreFrom 0 copies.now }
    ensures { result ≡ find (is_copy_of node.0 number) (held_in copies.now) }
{
    match search(copies, node, number) {
        Ok(at) => copy_at(copies, at).if_held(),
        Err(_) => None,
    }
}

/// Puts one more copy to its place, for which there is memory.
pub(crate) fn put_in(copies: &mut Vec<HeldCopy>, one: HeldCopy)
    requires memory { length copies.old.items < vec_capacity copies.old }
    requires order { AreFrom 0 copies.old.items }
    requires none { find (is_copy_of one.node one.number) copies.old.items ≡ None }
    ensures order { AreFrom 0 copies.new.items }
    ensures same { HaveSame (one ∷ copies.old.items) copies.new.items }
    ensures capacity { vec_capacity copies.old ≤ vec_capacity copies.new }
{
    let Err(at) = search(copies, NodeId(one.node), one.number) else {
        unreachable!();
    };
    match copies.insert(at, one) {
        Ok(()) => {}
        Err(_) => unreachable!(),
    }
}

/// Takes out the copy of a node's number.
pub(crate) fn take_out(
    copies: &mut Vec<HeldCopy>,
    node: NodeId,
    number: Absolute,
) -> Option<HeldCopy>
    requires { AreFrom 0 copies.old.items }
    ensures order { AreFrom 0 copies.new.items }
    ensures capacity { vec_capacity copies.new ≡ vec_capacity copies.old }
    ensures none { result ≡ None → find (is_copy_of node.0 number) copies.old.items ≡ None }
    ensures kept { result ≡ None → copies.new.items ≡ copies.old.items }
    ensures named { IfSome result (λ copy. is_copy_of node.0 number copy ≡ true) }
    ensures same { IfSome result (λ copy. HaveSame copies.old.items (copy ∷ copies.new.items)) }
{
    match search(copies, node, number) {
        Ok(at) => Some(copies.remove(at)),
        Err(_) => None,
    }
}

/// Marks the copy of a node's number as taken out, if it is held.
pub(crate) fn mark(copies: &mut Vec<HeldCopy>, node: NodeId, number: Absolute) -> Option<HeldCopy>
    requires { AreFrom 0 copies.old.items }
    ensures order { AreFrom 0 copies.new.items }
    ensures capacity { vec_capacity copies.new ≡ vec_capacity copies.old }
    ensures none { result ≡ None → find (is_copy_of node.0 number) (held_in copies.old.items) ≡ None }
    ensures kept { result ≡ None → copies.new.items ≡ copies.old.items }
    ensures named { IfSome result (λ copy. is_copy_of node.0 number copy ≡ true) }
    ensures same { IfSome result (λ copy. HaveSame (held_in copies.old.items) (copy ∷ held_in copies.new.items)) }
{
    let Ok(at) = search(copies, node, number) else {
        return None;
    };
    let copy = copy_at(copies, at);
    if !copy.held {
        return None;
    }
    copies[at] = copy.taken();
    Some(copy)
}

/// Takes out the copies that aren't held, and a node's.
pub(crate) fn drop_copies(copies: &mut Vec<HeldCopy>, node: NodeId)
    ensures items { copies.new.items ≡ filter (λ copy. copy.held && not (copy.node == node.0)) copies.old.items }
    ensures capacity { vec_capacity copies.new ≡ vec_capacity copies.old }
{
    copies.retain(|copy| copy.held && copy.node != node.0);
}

/// Takes out the copies that aren't held.
pub(crate) fn drop_taken(copies: &mut Vec<HeldCopy>)
    ensures items { copies.new.items ≡ held_in copies.old.items }
    ensures capacity { vec_capacity copies.new ≡ vec_capacity copies.old }
{
    copies.retain(|copy| copy.held);
}

// Puts a copy behind the others, if it is held.
fn push_held(copies: &mut Vec<HeldCopy>, other: HeldCopy)
    requires { other.held ≡ true → length copies.old.items < vec_capacity copies.old }
    ensures items { copies.new.items ≡ copies.old.items ++ held_in (other ∷ []) }
    ensures capacity { vec_capacity copies.new ≡ vec_capacity copies.old }
{
    if other.held {
        copies.push_reserved(other);
    }
}

/// Makes the copies those of another list that are held, for which there is memory.
pub(crate) fn copy_held(copies: &mut Vec<HeldCopy>, others: &[HeldCopy])
    requires { length (held_in others.now) ≤ vec_capacity copies.old }
    ensures items { copies.new.items ≡ held_in others.now }
    ensures capacity { vec_capacity copies.old ≤ vec_capacity copies.new }
{
    copies.clear();
    for other in others {
        push_held(copies, *other);
    }
}
