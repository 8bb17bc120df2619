// The windows of all places.
ghost use Rattle.std.specs.Prelude.{◌≡◌, ℕ, ◌≤◌, ◌+◌, ◌-◌, ◌<◌, ◌^◌, min, max, true, false, length, IfOk, IfSome};
ghost use Rattle.seq_window.specs.Seen.{nothing_seen, with_state, with_states};
ghost use Rattle.gateway_index.specs.Limits.{half};
ghost use Rattle.gateway_index.specs.WindowPairs.{AreBlank, AreKeptIn, AreKeptTo, IsStepAt, seen_at};

use crate::window_pair::WindowPair;
use gw_base::{Absolute, KeyState, NoMemory};
use std::alloc::Global;

/// A pair of windows for each place. It knows between which places a side may differ from the other, so that no others
/// are looked at where both are made the same.
#[derive(Drop)]
pub(crate) struct WindowTable {
    pub(crate) pairs: Vec<WindowPair>,
    /// Before this place both sides are the same,
    from: usize,
    /// and from this one on.
    end: usize,
    ghost before: { (k : ℕ) → k < from → seen_at true pairs.items k ≡ seen_at false pairs.items k },
    ghost behind: { (k : ℕ) → end ≤ k → seen_at true pairs.items k ≡ seen_at false pairs.items k },
}

impl WindowTable {
    /// So many pairs of windows of no number.
    pub(crate) fn new(alloc: Global, count: usize) -> Result<WindowTable, NoMemory>
        ensures { IfOk result (λ table. AreBlank count table.pairs.items) }
    {
        let pairs = make(alloc, count)?;
        Ok(WindowTable {
            pairs,
            from: usize::MAX,
            end: 0,
        })
    }

    /// The greatest number that the window at a place knows on the firm side, or else on the live side.
    pub(crate) fn top(&self, firm: bool, place: usize) -> Option<Absolute>
        ensures value { result ≡ (seen_at firm self.now.pairs.items place).top }
        ensures low { IfSome result (λ top. top < 2 ^ 63) }
    {
        top_at(&self.pairs, firm, place)
    }

    /// The state of a number by the window at a place, on the firm side or else on the live side.
    pub(crate) fn state(&self, firm: bool, place: usize, number: Absolute) -> KeyState
        ensures { result ≡ (seen_at firm self.now.pairs.items place).state number }
    {
        state_at(&self.pairs, firm, place, number)
    }

    /// Gives a state to a number at a place, on the live side.
    pub(crate) fn set(&mut self, place: usize, number: Absolute, state: KeyState)
        requires inside { place < length self.old.pairs.items }
        requires not_below { IfSome (seen_at false self.old.pairs.items place).top (λ top. top ≤ number + half) }
        requires high { number < 2 ^ 63 }
        ensures step { IsStepAt place (with_state half number state) self.old.pairs.items self.new.pairs.items }
        ensures from { self.new.from ≡ min self.old.from place }
        ensures end { self.new.end ≡ max self.old.end (place + 1) }
    {
        set_at(&mut self.pairs, place, number, state);
        self.from = self.from.min(place);
        self.end = self.end.max(place + 1);
    }

    /// Gives a state to those of these numbers that the window at a place holds, on the live side.
    pub(crate) fn set_within(&mut self, place: usize, numbers: &[Absolute], state: KeyState)
        requires { place < length self.old.pairs.items }
        ensures step { IsStepAt place (with_states half numbers.now state) self.old.pairs.items self.new.pairs.items }
        ensures from { self.new.from ≡ min self.old.from place }
        ensures end { self.new.end ≡ max self.old.end (place + 1) }
    {
        set_within_at(&mut self.pairs, place, numbers, state);
        self.from = self.from.min(place);
        self.end = self.end.max(place + 1);
    }

    /// Forgets all numbers at a place, on the live side.
    pub(crate) fn clear(&mut self, place: usize)
        requires { place < length self.old.pairs.items }
        ensures step { IsStepAt place (λ seen. nothing_seen) self.old.pairs.items self.new.pairs.items }
        ensures from { self.new.from ≡ min self.old.from place }
        ensures end { self.new.end ≡ max self.old.end (place + 1) }
    {
        clear_at(&mut self.pairs, place);
        self.from = self.from.min(place);
        self.end = self.end.max(place + 1);
    }

    /// Makes both sides what one of them is.
    pub(crate) fn keep(&mut self, firm: bool)
        ensures kept { AreKeptTo (length self.old.pairs.items) firm self.old.pairs.items self.new.pairs.items }
        ensures from { self.new.from ≡ 2 ^ 64 - 1 }
        ensures end { self.new.end ≡ 0 }
    {
        let end = self.end.min(self.pairs.len());
        let from = self.from.min(end);
        keep_from(&mut self.pairs, from, end, firm);
        self.from = usize::MAX;
        self.end = 0;
    }
}

// So many pairs of windows of no number.
fn make(alloc: Global, count: usize) -> Result<Vec<WindowPair>, NoMemory>
    ensures { IfOk result (λ pairs. AreBlank count pairs.items) }
{
    let mut pairs = Vec::with_capacity(alloc, count)?;
    for _ in 0..count {
        let pair = WindowPair::new(alloc)?;
        pairs.push(pair)?;
    }
    Ok(pairs)
}

// The greatest number that the window at a place knows on the firm side, or else on the live side.
fn top_at(pairs: &[WindowPair], firm: bool, place: usize) -> Option<Absolute>
    ensures value { result ≡ (seen_at firm pairs.now place).top }
    ensures low { IfSome result (λ top. top < 2 ^ 63) }
{
    if place < pairs.len() {
        pairs[place].top(firm)
    } else {
        None
    }
}

// The state of a number by the window at a place, on the firm side or else on the live side.
fn state_at(pairs: &[WindowPair], firm: bool, place: usize, number: Absolute) -> KeyState
    ensures { result ≡ (seen_at firm pairs.now place).state number }
{
    if place < pairs.len() {
        pairs[place].state(firm, number)
    } else {
        KeyState::Fresh
    }
}

// Gives a state to a number at a place, on the live side.
fn set_at(pairs: &mut Vec<WindowPair>, place: usize, number: Absolute, state: KeyState)
    requires inside { place < length pairs.old.items }
    requires not_below { IfSome (seen_at false pairs.old.items place).top (λ top. top ≤ number + half) }
    requires high { number < 2 ^ 63 }
    ensures { IsStepAt place (with_state half number state) pairs.old.items pairs.new.items }
{
    pairs[place].set(number, state);
}

// Gives a state to those of these numbers that the window at a place holds, on the live side.
fn set_within_at(pairs: &mut Vec<WindowPair>, place: usize, numbers: &[Absolute], state: KeyState)
    requires { place < length pairs.old.items }
    ensures { IsStepAt place (with_states half numbers.now state) pairs.old.items pairs.new.items }
{
    pairs[place].set_within(numbers, state);
}

// Forgets all numbers at a place, on the live side.
fn clear_at(pairs: &mut Vec<WindowPair>, place: usize)
    requires { place < length pairs.old.items }
    ensures { IsStepAt place (λ seen. nothing_seen) pairs.old.items pairs.new.items }
{
    pairs[place].clear();
}

// Makes both sides of these places what one of them is.
fn keep_from(pairs: &mut Vec<WindowPair>, from: usize, end: usize, firm: bool)
    requires order { from ≤ end }
    requires inside { end ≤ length pairs.old.items }
    ensures { AreKeptIn from end firm pairs.old.items pairs.new.items }
{
    for place in from..end {
        pairs[place].keep(firm);
    }
}
