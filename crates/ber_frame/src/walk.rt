//! The walk through a value, which keeps of each value that it has entered where it ends.

ghost use Rattle.std.specs.Prelude.{◌≡◌, ◌↔◌, ◌<◌, ◌+◌, ◌^◌, ◌∷◌, [], length, IsTrue, OnOk};
ghost use Rattle.ber_frame.specs.Value.{are_over};
ghost use Rattle.ber_frame.specs.Walk.{place, open_with, Enters, Steps, octets_later, steps_left};

use crate::fault::{BerFault, BerKind};
use crate::head::head;
use gw_base::Tag;
use std::marker::Model;

/// The greatest depth of a value, the outer one counted.
const DEPTH: usize = 32;

/// A constructed value that was entered.
#[derive(Clone, Copy)]
struct Level<'a> {
    /// Whether its length is indefinite.
    endless: bool,
    /// What follows it within the value that encloses it, where its length is definite.
    after: &'a [u8],
}

/// Where the walk stands.
#[derive(Drop)]
pub(crate) struct Walk<'a> {
    /// The place of the next octet.
    at: usize,
    /// The octets from there on, up to the end of the innermost definite value.
    window: &'a [u8],
    /// How many more values may be entered.
    left: usize,
    /// The values that were entered, the innermost first, from `left` on.
    levels: [Level<'a>; DEPTH],
}

impl<'a> Model for Walk<'a> {
    ghost use Rattle.ber_frame.specs.Walk.{Place};
    ghost use Rattle.ber_frame.specs.State.{place_of, IsInBounds};

    ghost Value = { Place };

    ghost view = { place_of };

    ghost invariant = { IsInBounds };
}

impl<'a> Walk<'a> {
    /// A walk that stands before these octets.
    pub(crate) fn new(octets: &'a [u8]) -> Walk<'a>
        ensures { result ≡ place 0 octets.now [] }
    {
        Walk {
            at: 0,
            window: octets,
            left: DEPTH,
            levels: [Level {
                endless: false,
                after: &[],
            }; DEPTH],
        }
    }

    /// Whether a value was entered that isn't over.
    pub(crate) fn is_inside(&self) -> bool
        ensures { IsTrue result ↔ (0 < length self.now.opened) }
    {
        self.left < DEPTH
    }

    /// The place of the next octet.
    pub(crate) fn at(&self) -> usize
        ensures { result ≡ self.now.at }
    {
        self.at
    }

    /// The octets from there on.
    pub(crate) fn window(&self) -> &'a [u8]
        ensures { result.now ≡ self.now.window }
    {
        self.window
    }

    /// Enters a value whose contents, values again, begin here.
    fn descend(&mut self, at: usize, contents: &'a [u8], endless: bool, after: &'a [u8])
        requires room { length self.old.opened < 32 }
        requires bounds { at + length contents.now + length after.now + octets_later self.old.opened
            < 2 ^ 63 }
        ensures { self.new ≡ place at contents.now (open_with endless after.now ∷ self.old.opened) }
    {
        self.left -= 1;
        self.levels[self.left] = Level { endless, after };
        self.at = at;
        self.window = contents;
    }

    /// Passes the identifier and the length of the next value, and its contents unless they are
    /// values. After an `Err` the walk is over.
    #[tactic(auto, unfolding(crate::specs::Walk::entered))]
    pub(crate) fn enter(&mut self) -> Result<Tag, BerFault>
        ensures place { Enters result self.old self.new }
        ensures nearer { OnOk result (steps_left self.new < steps_left self.old) }
    {
        let at = self.at;
        let (tag, size, rest) = match head(self.window) {
            Ok(found) => found,
            Err(kind) => return Err(BerFault { at, kind }),
        };
        if self.left == 0 {
            return Err(BerFault {
                at,
                kind: BerKind::TooDeep,
            });
        }
        let from = at + (self.window.len() - rest.len());
        let Some(size) = size else {
            self.descend(from, rest, true, &[]);
            return Ok(tag);
        };
        if rest.len() < size {
            return Err(BerFault {
                at,
                kind: BerKind::Cut,
            });
        }
        let (contents, after) = rest.split_at(size);
        if tag.constructed {
            self.descend(from, contents, false, after);
            return Ok(tag);
        }
        self.at = from + size;
        self.window = after;
        Ok(tag)
    }

    /// Leaves the innermost value where its inner values are over, else goes on to the next one.
    /// After an `Err` the walk is over.
    #[tactic(auto, unfolding(crate::specs::Walk::step_from))]
    pub(crate) fn step(&mut self) -> Result<(), BerFault>
        requires { 0 < length self.old.opened }
        ensures place { Steps result self.old self.new }
        ensures nearer { OnOk result (steps_left self.new < steps_left self.old) }
    {
        let level = self.levels[self.left];
        if !are_over(level.endless, self.window) {
            self.enter()?;
            return Ok(());
        }
        if level.endless {
            self.at += 2;
            self.window = self.window.split_at(2).1;
        } else {
            self.window = level.after;
        }
        self.left += 1;
        Ok(())
    }
}

/// Whether the inner values of a value are over before these octets.
fn are_over(endless: bool, octets: &[u8]) -> bool
    ensures { result ≡ are_over endless octets.now }
{
    if endless {
        matches!(octets, [0, 0, ..])
    } else {
        octets.is_empty()
    }
}
