// The keys that a tally keeps, in order.
ghost use Rattle.std.specs.Prelude.{◌≡◌, ◌&&◌, ℕ, count_by, ◌+◌, ◌<◌, ◌≤◌, ◌^◌, [], ◌++◌, true, false, drop, filter, length, take, vec_capacity, nat_le, IfSome, IfOk, IfErr, OnOk, OnErr, slice_index_or, map};
ghost use Rattle.gw_base.specs.Entry.{act_view};
ghost use Rattle.gw_base.specs.View.{stays_held};
ghost use Rattle.gw_base.specs.declared.history.HistoryAct.TheVariants.{Path, Release, Seal};
ghost use Rattle.cgf_journal.specs.Keys.{AreAscending, AreUpTo, IsAbsent, IsFirstOf, IsFound, counted_keys, counts, key_of, settled_key};
ghost use Rattle.cgf_journal.specs.Merged.{merged, moved_keys};
ghost use Rattle.cgf_journal.specs.declared.key.KeptKey.{KeptKey};
ghost use Rattle.cgf_journal.specs.Tally.{held_after, held_with};

use crate::key::{KeptKey, one_if};
use crate::merging::merge;
use gw_base::{Absolute, Act, NoMemory, NodeId};
use std::alloc::Global;
use std::mem;

/// Where a node's number stands among keys in order, or else the place where it belongs.
fn search(keys: &[KeptKey], node: NodeId, number: Absolute) -> Result<usize, usize>
    requires { AreAscending keys.now }
    ensures found { IfOk result (λ at. IsFound keys.now at node.0 number) }
    ensures absent { IfErr result (λ at. IsAbsent keys.now at node.0 number) }
{
    let at = keys.partition_point(|kept| kept.is_before(node, number));
    if at == keys.len() {
        return Err(at);
    }
    if keys[at].is_at(node, number) {
        return Ok(at);
    }
    Err(at)
}

/// Where the numbers of a node begin.
fn first_of(keys: &[KeptKey], node: NodeId) -> usize
    requires { AreAscending keys.now }
    ensures { IsFirstOf keys.now result node.0 }
{
    keys.partition_point(|kept| kept.is_before(node, 0))
}

/// Where the numbers of a node end.
fn end_of(keys: &[KeptKey], node: NodeId) -> usize
    requires { AreAscending keys.now }
    ensures { IsFirstOf keys.now result (node.0 + 1) }
{
    keys.partition_point(|kept| kept.is_up_to(node))
}

/// How many keys stand before the first of another list. Both lists are in order; where they are made one, these keys
/// stay where they are.
fn count_before(keys: &[KeptKey], others: &[KeptKey]) -> usize
    requires { AreAscending keys.now }
    ensures inside { result ≤ length keys.now }
    ensures stay { (from to : ℕ) →
        take result keys.now ++ merged to (drop result keys.now) (moved_keys from to others.now) ≡
        merged to keys.now (moved_keys from to others.now) }
{
    if others.is_empty() {
        return 0;
    }
    let first = kept_at(others, 0);
    keys.partition_point(|kept| kept.is_before(first.node, first.number))
}

/// Puts other keys, for which there is memory, in the place of those from here on.
fn replace_from(keys: &mut Vec<KeptKey>, at: usize, others: &mut Vec<KeptKey>)
    requires { at + length others.old.items ≤ vec_capacity keys.old }
    ensures items { keys.new.items ≡ take at keys.old.items ++ others.old.items }
    ensures capacity { (n : ℕ) → n ≤ vec_capacity keys.old → n ≤ vec_capacity others.old →
        (n ≤ vec_capacity keys.new) × (n ≤ vec_capacity others.new) }
{
    if at == 0 {
        mem::swap(keys, others);
        return;
    }
    keys.truncate(at);
    let Ok(()) = keys.extend_from_slice(others) else {
        unreachable!();
    };
}

fn count_staying(keys: &[KeptKey], firm: bool, round: u16, act: &Act<'_>) -> u64
    ensures { result ≡ count_by (λ kept.
        counts firm round kept && stays_held (act_view act.now) (key_of kept)) keys.now }
{
    keys.iter()
        .filter(|kept| kept.counts(firm, round) && act.stays_held(kept.key()))
        .count() as u64
}

/// The key that stands here.
fn kept_at(keys: &[KeptKey], at: usize) -> KeptKey
    requires { at < length keys.now }
    ensures { (d : KeptKey) → result ≡ slice_index_or keys.now at d }
{
    keys[at]
}

/// The keys that the firm entries hold and those that all hold, in order, with how many they are.
#[derive(Drop)]
pub(crate) struct SortedKeys {
    keys: Vec<KeptKey>,
    /// For how many keys there is memory.
    reserved: usize,
    round: u16,
    firm: u64,
    live: u64,
    ghost enough: { reserved ≤ vec_capacity keys },
    ghost ascending: { AreAscending keys.items },
    ghost up_to: { AreUpTo round keys.items },
    ghost firm_counted: { firm ≡ length (counted_keys true round keys.items) },
    ghost live_counted: { live ≡ length (counted_keys false round keys.items) },
}

impl SortedKeys {
    ghost use Rattle.cgf_journal.specs.Held.{IsOnceEach, passing};
    ghost use Rattle.cgf_journal.specs.Sorted.{GrowsBy, IsAbsorbed, IsChanged, IsFull, count_held, firm_keys, keys_of, live_keys};

    /// No keys, and memory for so many.
    pub(crate) fn reserve(alloc: Global, count: usize) -> Result<SortedKeys, NoMemory>
        ensures firm { IfOk result (λ keys. firm_keys keys ≡ []) }
        ensures live { IfOk result (λ keys. live_keys keys ≡ []) }
        ensures none { IfOk result (λ keys. length keys.keys.items ≡ 0) }
        ensures reserved { IfOk result (λ keys. keys.reserved ≡ count) }
    {
        Ok(SortedKeys {
            keys: Vec::with_capacity(alloc, count)?,
            reserved: count,
            round: 0,
            firm: 0,
            live: 0,
        })
    }

    /// How many keys the firm entries hold, or else all.
    pub(crate) fn count(&self, firm: bool) -> u64
        ensures value { result ≡ length (keys_of firm self.now) }
        ensures small { result < 2 ^ 63 }
    {
        if firm { self.firm } else { self.live }
    }

    /// How many of these stay held after an entry. An entry that begins no epoch, and whose numbers are in ascending
    /// order, takes a search for each of these.
    pub(crate) fn count_staying(&self, firm: bool, act: &Act<'_>) -> u64
        ensures value { result ≡ length (filter (λ key.
            stays_held (act_view act.now) key) (keys_of firm self.now)) }
        ensures small { result < 2 ^ 63 }
    {
        match self.count_gone(firm, act) {
            Some(gone) => self.count(firm) - gone,
            None => count_staying(&self.keys, firm, self.round, act),
        }
    }

    // How many of these an entry lets go, where searches for what it names tell it.
    fn count_gone(&self, firm: bool, act: &Act<'_>) -> Option<u64>
        ensures { IfSome result (λ gone. gone + length (filter (λ key.
            stays_held (act_view act.now) key) (keys_of firm self.now)) ≡ length (keys_of firm self.now)) }
    {
        match *act {
            Act::Start | Act::Tick | Act::Close => Some(0),
            Act::Path { .. } => None,
            Act::File { node, number, .. }
            | Act::Hold { node, number, .. }
            | Act::Seal { node, number } => Some(self.count_one(firm, node, number)),
            Act::Release { node, numbers } | Act::Cancel { node, numbers } => {
                Some(self.count_listed(firm, node, numbers)?)
            }
        }
    }

    // How many of these are this number of this node: one or none.
    fn count_one(&self, firm: bool, node: NodeId, number: Absolute) -> u64
        ensures { result + length (filter (λ key. stays_held (Seal node number) key) (keys_of firm self.now)) ≡
            length (keys_of firm self.now) }
    {
        if self.count(firm) == 0 {
            return 0;
        }
        match search(&self.keys, node, number) {
            Ok(at) => one_if(kept_at(&self.keys, at).counts(firm, self.round)),
            Err(_) => 0,
        }
    }

    // How many of these are among these numbers of this node, where the numbers are in ascending order.
    fn count_listed(&self, firm: bool, node: NodeId, numbers: &[Absolute]) -> Option<u64>
        ensures { IfSome result (λ gone. gone + length (filter (λ key.
            stays_held (Release node numbers.now) key) (keys_of firm self.now)) ≡ length (keys_of firm self.now)) }
    {
        let mut gone = 0;
        let mut least = 0;
        for number in numbers {
            if *number < least {
                return None;
            }
            gone += self.count_one(firm, node, *number);
            least = number.checked_add(1)?;
        }
        Some(gone)
    }

    // The key that stands here is held by all entries from now on, or isn't.
    fn change(&mut self, at: usize, held: bool)
        requires { at < length self.old.keys.items }
        ensures { IsChanged at held self.old self.new }
    {
        let kept = kept_at(&self.keys, at);
        self.keys[at] = kept.changed(held, self.round);
        self.live = self.live - one_if(kept.is_held) + one_if(held);
    }

    /// All entries hold this number of this node. Without memory for it nothing changes.
    fn hold(&mut self, node: NodeId, number: Absolute) -> Result<(), NoMemory>
        ensures ok { OnOk result (live_keys self.new ≡ held_with node number (live_keys self.old)) }
        ensures err { OnErr result (live_keys self.new ≡ live_keys self.old) }
        ensures full { OnErr result (self.old.reserved ≤ length self.old.keys.items) }
        ensures kept { OnErr result (GrowsBy 0 self.old self.new) }
        ensures grows { GrowsBy 1 self.old self.new }
    {
        let at = match search(&self.keys, node, number) {
            Ok(at) => {
                self.change(at, true);
                return Ok(());
            }
            Err(at) => at,
        };
        let kept = KeptKey {
            node,
            number,
            was_held: false,
            is_held: true,
            round: self.round,
        };
        match self.keys.insert(at, kept) {
            Ok(()) => {
                self.live += 1;
                Ok(())
            }
            Err(_) => Err(NoMemory),
        }
    }

    /// All entries hold this number of this node no more.
    fn free(&mut self, node: NodeId, number: Absolute)
        ensures live { live_keys self.new ≡ filter (λ key. stays_held (Seal node number) key) (live_keys self.old) }
        ensures grows { GrowsBy 0 self.old self.new }
    {
        if self.live == 0 {
            return;
        }
        if let Ok(at) = search(&self.keys, node, number) {
            self.change(at, false);
        }
    }

    /// All entries hold these numbers of this node no more.
    fn free_all(&mut self, node: NodeId, numbers: &[Absolute])
        ensures live { live_keys self.new ≡ filter (λ key.
            stays_held (Release node numbers.now) key) (live_keys self.old) }
        ensures grows { GrowsBy 0 self.old self.new }
    {
        for number in numbers {
            self.free(node, *number);
        }
    }

    /// All entries hold no number of this node any more.
    fn free_node(&mut self, node: NodeId)
        ensures live { live_keys self.new ≡ filter (λ key. stays_held (Path node 0 0) key) (live_keys self.old) }
        ensures grows { GrowsBy 0 self.old self.new }
    {
        let mut at = first_of(&self.keys, node);
        let end = end_of(&self.keys, node);
        while at < end {
            self.change(at, false);
            at += 1;
        }
    }

    /// What one more entry makes of the keys that all entries hold. Without memory nothing changes.
    pub(crate) fn note(&mut self, act: &Act<'_>) -> Result<(), NoMemory>
        ensures ok { OnOk result (live_keys self.new ≡ held_after (act_view act.now) (live_keys self.old)) }
        ensures err { OnErr result (live_keys self.new ≡ live_keys self.old) }
        ensures full { OnErr result (IsFull (count_held (act_view act.now)) self.old) }
        ensures kept { OnErr result (GrowsBy 0 self.old self.new) }
        ensures grows { GrowsBy (count_held (act_view act.now)) self.old self.new }
    {
        match *act {
            Act::Start | Act::Tick | Act::Close => {}
            Act::Path { node, .. } => self.free_node(node),
            Act::File { node, number, .. } | Act::Seal { node, number } => self.free(node, number),
            Act::Hold { node, number, .. } => return self.hold(node, number),
            Act::Release { node, numbers } | Act::Cancel { node, numbers } => {
                self.free_all(node, numbers);
            }
        }
        Ok(())
    }

    /// Whether as many keys are kept as were reserved.
    pub(crate) fn is_full(&self) -> bool
        ensures { result ≡ nat_le self.now.reserved (length self.now.keys.items) }
    {
        self.reserved <= self.keys.len()
    }

    /// Takes in the keys of another list, which keeps none afterwards. The keys before the first of those stay where
    /// they are, and the others are made one with those in `spare`. Where less memory is reserved than both lists' keys
    /// need, it answers `NoMemory` and nothing changes.
    pub(crate) fn absorb(
        &mut self,
        late: &mut SortedKeys,
        spare: &mut Vec<KeptKey>,
    ) -> Result<(), NoMemory>
        requires spare { self.old.reserved ≤ vec_capacity spare.old }
        requires firm { IsOnceEach (λ p. passing p (firm_keys self.old) + passing p (firm_keys late.old)) }
        requires live { IsOnceEach (λ p. passing p (live_keys self.old) + passing p (live_keys late.old)) }
        ensures ok { OnOk result (IsAbsorbed self.old late.old self.new late.new) }
        ensures err { OnErr result ((self.new ≡ self.old) × (late.new ≡ late.old)) }
        ensures full { OnErr result (self.old.reserved < length self.old.keys.items + length late.old.keys.items) }
        ensures spare { self.old.reserved ≤ vec_capacity spare.new }
    {
        if self.reserved.saturating_sub(self.keys.len()) < late.keys.len() {
            return Err(NoMemory);
        }
        let at = count_before(&self.keys, &late.keys);
        let (_, moving) = self.keys.split_at(at);
        merge(moving, &late.keys, late.round, self.round, spare)?;
        replace_from(&mut self.keys, at, spare);
        self.firm += late.firm;
        self.live += late.live;
        late.clear();
        Ok(())
    }

    fn clear(&mut self)
        ensures none { self.new.keys.items ≡ [] }
        ensures reserved { self.new.reserved ≡ self.old.reserved }
    {
        self.keys.clear();
        self.firm = 0;
        self.live = 0;
    }

    /// Makes what all entries hold firm.
    pub(crate) fn settle(&mut self)
        ensures firm { firm_keys self.new ≡ live_keys self.old }
        ensures live { live_keys self.new ≡ live_keys self.old }
        ensures count { length self.new.keys.items ≡ length self.old.keys.items }
        ensures reserved { self.new.reserved ≡ self.old.reserved }
    {
        self.firm = self.live;
        match self.round.checked_add(1) {
            Some(round) => self.round = round,
            None => {
                settle_all(&mut self.keys, false, self.round);
                self.round = 0;
            }
        }
    }

    /// Goes back to what the firm entries hold: other keys are kept no more.
    pub(crate) fn revert(&mut self)
        ensures firm { firm_keys self.new ≡ firm_keys self.old }
        ensures live { live_keys self.new ≡ firm_keys self.old }
        ensures count { length self.new.keys.items ≡ length (firm_keys self.old) }
        ensures reserved { self.new.reserved ≡ self.old.reserved }
    {
        self.live = self.firm;
        keep_firm(&mut self.keys, self.round);
        settle_all(&mut self.keys, true, self.round);
    }
}

// Takes out the keys that the firm entries don't hold.
fn keep_firm(keys: &mut Vec<KeptKey>, round: u16)
    ensures kept { keys.new.items ≡ filter (λ kept. counts true round kept) keys.old.items }
    ensures capacity { vec_capacity keys.new ≡ vec_capacity keys.old }
{
    keys.retain(|kept| kept.counts(true, round));
}

fn settle_all(keys: &mut Vec<KeptKey>, firm: bool, round: u16)
    ensures settled { keys.new.items ≡ map (λ kept. settled_key firm round kept) keys.old.items }
    ensures capacity { vec_capacity keys.new ≡ vec_capacity keys.old }
{
    settle_keys(keys, firm, round);
}

fn settle_keys(keys: &mut [KeptKey], firm: bool, round: u16)
    ensures { keys.new ≡ map (λ kept. settled_key firm round kept) keys.old }
{
    for key in keys.iter_mut() {
        *key = key.settled(firm, round);
    }
}
