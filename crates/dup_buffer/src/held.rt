ghost use Rattle.std.specs.Prelude.{◌≡◌, ◌↔◌, ◌≤◌, ◌<◌, ◌+◌, [], length, vec_capacity, None, IfOk, OnOk, OnErr};
ghost use Rattle.dup_buffer.specs.Stored.{AreStored, HaveSame, all_held, copies_of, most_late};
ghost use Rattle.dup_buffer.specs.Copies.{held_of, most_copies, no_copies, with_copy, without_copy, without_node};

use crate::copy::HeldCopy;
use crate::fault::HoldFault;
use crate::merging::merge;
use crate::order::{
    copy_held, drop_copies, drop_taken, find_held, find_in, mark, put_in, take_out,
};
use gw_base::{Absolute, NoMemory, NodeId, Place};
use std::alloc::Global;
use std::marker::Model;

/// The most copies that a gateway holds.
const MOST_COPIES: usize = 65_536;

/// The most copies that stand apart from the others.
const MOST_LATE: usize = 1024;

/// The copies of possibly duplicated packets that a gateway holds, with the place of each in its journal.
///
/// They stand in two lists, each in order of their nodes and numbers: a short one of those that came last, and a long
/// one of the others. To find one takes a time that grows with the logarithm of their number; to hold one or take one
/// out moves those of the short list at most. Where that is full, both are made one.
#[derive(Drop)]
pub struct Held {
    // Those that were taken out of the long list stand in it still, marked.
    kept: Vec<HeldCopy>,
    late: Vec<HeldCopy>,
    // How many are held.
    count: usize,
}

impl Model for Held {
    ghost use Rattle.std.specs.Prelude.{◌-◌, ◌≤◌, ◌≡◌, length, vec_capacity};
    ghost use Rattle.dup_buffer.specs.Copies.{most_copies};
    ghost use Rattle.dup_buffer.specs.Stored.{AreStored, Stored, all_held, most_late};

    ghost Value = { Stored };

    ghost view = { λ held. record {
      entries = all_held held.kept.items held.late.items;
      spare = vec_capacity held.kept - held.count;
    } };

    ghost invariant = { λ held. AreStored held.kept.items held.late.items
        × (held.count ≡ length (all_held held.kept.items held.late.items)) × (held.count ≤ most_copies)
        × (held.count ≤ vec_capacity held.kept) × (most_late ≤ vec_capacity held.late) };
}

// Makes both lists one, for which there is memory.
fn settle(kept: &mut Vec<HeldCopy>, late: &mut Vec<HeldCopy>)
    requires stored { AreStored kept.old.items late.old.items }
    requires memory { length (all_held kept.old.items late.old.items) ≤ vec_capacity kept.old }
    ensures stored { AreStored kept.new.items late.new.items }
    ensures same { HaveSame (all_held kept.old.items late.old.items) (all_held kept.new.items late.new.items) }
    ensures late { late.new.items ≡ [] }
    ensures kept_capacity { vec_capacity kept.old ≤ vec_capacity kept.new }
    ensures late_capacity { vec_capacity late.old ≤ vec_capacity late.new }
{
    drop_taken(kept);
    merge(kept, late);
    late.clear();
}

// Makes a place for one more copy of the short list.
fn make_place(kept: &mut Vec<HeldCopy>, late: &mut Vec<HeldCopy>)
    requires stored { AreStored kept.old.items late.old.items }
    requires memory { length (all_held kept.old.items late.old.items) ≤ vec_capacity kept.old }
    ensures stored { AreStored kept.new.items late.new.items }
    ensures same { HaveSame (all_held kept.old.items late.old.items) (all_held kept.new.items late.new.items) }
    ensures late { length late.new.items < most_late }
    ensures kept_capacity { vec_capacity kept.old ≤ vec_capacity kept.new }
    ensures late_capacity { vec_capacity late.old ≤ vec_capacity late.new }
{
    if late.len() < MOST_LATE {
        return;
    }
    settle(kept, late);
}

// Takes memory for one more of so many copies, where there is none.
fn reserve(kept: &mut Vec<HeldCopy>, late: &[HeldCopy], count: usize) -> Result<(), NoMemory>
    requires { count ≤ length kept.old.items + length late.now }
    ensures items { kept.new.items ≡ kept.old.items }
    ensures ok { OnOk result (count < vec_capacity kept.new) }
    ensures err { OnErr result (vec_capacity kept.old ≤ count) }
    ensures capacity { vec_capacity kept.old ≤ vec_capacity kept.new }
{
    if count < kept.capacity() {
        return Ok(());
    }
    kept.reserve(late.len() + 1)?;
    Ok(())
}

impl Held {
    /// No copies, and room for `spare` of them.
    pub fn new(alloc: Global, spare: usize) -> Result<Held, NoMemory>
        ensures empty { IfOk result (λ held. copies_of held ≡ no_copies) }
        ensures room { IfOk result (λ held. spare ≤ held.spare) }
    {
        Ok(Held {
            kept: Vec::with_capacity(alloc, spare)?,
            late: Vec::with_capacity(alloc, MOST_LATE)?,
            count: 0,
        })
    }

    /// How many copies are held: at most 65,536.
    pub fn count(&self) -> usize
        ensures value { result ≡ (copies_of self.now).count }
        ensures within { result ≤ most_copies }
    {
        self.count
    }

    /// Where the copy of a node's number lies, if it is held.
    pub fn find(&self, node: NodeId, number: Absolute) -> Option<Place>
        ensures { result ≡ (copies_of self.now).place_of node.0 number }
    {
        if let Some(copy) = find_in(&self.late, node, number) {
            return Some(copy.place());
        }
        let copy = find_held(&self.kept, node, number)?;
        Some(copy.place())
    }

    /// Holds one more copy, which isn't held yet. It takes no memory where there is spare room.
    pub fn hold(&mut self, node: NodeId, number: Absolute, place: Place) -> Result<(), HoldFault>
        requires { (copies_of self.old).place_of node.0 number ≡ None }
        ensures held { OnOk result (copies_of self.new ≡ with_copy node.0 number place (copies_of self.old)) }
        ensures kept { OnErr result (copies_of self.new ≡ copies_of self.old) }

        ensures full { (result ≡ Err HoldFault.Full) ↔ ((copies_of self.old).count ≡ most_copies) }
        ensures no_memory { result ≡ Err HoldFault.NoMemory → self.old.spare ≡ 0 }

        ensures spare { self.old.spare ≤ self.new.spare + 1 }
        ensures spare_kept { OnErr result (self.old.spare ≤ self.new.spare) }
    {
        if self.count >= MOST_COPIES {
            return Err(HoldFault::Full);
        }
        let Ok(()) = reserve(&mut self.kept, &self.late, self.count) else {
            return Err(HoldFault::NoMemory);
        };
        make_place(&mut self.kept, &mut self.late);
        put_in(
            &mut self.late,
            HeldCopy {
                number,
                at: place.at,
                node: node.0,
                length: place.length,
                held: true,
            },
        );
        self.count += 1;
        Ok(())
    }

    /// Takes out the copy of a node's number, if it is held, and says where it lies.
    pub fn take(&mut self, node: NodeId, number: Absolute) -> Option<Place>
        ensures value { result ≡ (copies_of self.old).place_of node.0 number }
        ensures others { copies_of self.new ≡ without_copy node.0 number (copies_of self.old) }
        ensures spare { self.old.spare + held_of node.0 number (copies_of self.old) ≤ self.new.spare }
    {
        if let Some(copy) = take_out(&mut self.late, node, number) {
            self.count -= 1;
            return Some(copy.place());
        }
        let copy = mark(&mut self.kept, node, number)?;
        self.count -= 1;
        Some(copy.place())
    }

    /// Takes out all copies of a node, and says how many there were.
    pub fn drop_node(&mut self, node: NodeId) -> u64
        ensures value { result ≡ (copies_of self.old).count_of node.0 }
        ensures others { copies_of self.new ≡ without_node node.0 (copies_of self.old) }
        ensures spare { self.old.spare + (copies_of self.old).count_of node.0 ≤ self.new.spare }
    {
        let before = self.count;
        drop_copies(&mut self.kept, node);
        drop_copies(&mut self.late, node);
        self.count = self.kept.len() + self.late.len();
        (before - self.count) as u64
    }

    /// Holds what another buffer holds, for which there is room.
    pub fn copy_from(&mut self, other: &Held)
        requires { (copies_of other.now).count ≤ (copies_of self.old).count + self.old.spare }
        ensures copies { copies_of self.new ≡ copies_of other.now }
        ensures spare { (copies_of self.old).count + self.old.spare ≤ (copies_of self.new).count + self.new.spare }
    {
        copy_held(&mut self.kept, &other.kept);
        copy_held(&mut self.late, &other.late);
        self.count = other.count;
    }
}
