// The window of one node.
ghost use Rattle.std.specs.Prelude.{◌≡◌, ◌+◌, ◌^◌, ◌<◌, ◌≤◌, true, IfOk, IfSome};
ghost use Rattle.gw_base.specs.Nearest.{nearest};
ghost use Rattle.seq_window.specs.Seen.{is_within, moved_to, nothing_seen, with_state, with_states};
ghost use Rattle.seq_window.specs.Stored.{seen_of};

use crate::ring::{cell_at, cell_below, copy, move_up, set_cell};
use gw_base::{Absolute, KeyState, NoMemory, nearest_number};
use std::alloc::Global;
use std::marker::Model;

/// The states of a node's request numbers in its present epoch, from `HALF` below the greatest one up to it.
///
/// Each of them takes an octet. They are reserved as the window is made, and are first touched as their numbers are set:
/// a window of few numbers in ascending order touches few.
#[derive(Drop)]
pub struct Window<const HALF: usize> {
    top: Option<Absolute>,
    // The cell of the greatest number.
    at: usize,
    // The cells up to the last one that was set. Those behind it are fresh.
    cells: Vec<KeyState>,
}

impl<const HALF: usize> Model for Window<HALF> {
    ghost use Rattle.std.specs.Prelude.{◌+◌, ◌^◌, ◌<◌, ◌≤◌, vec_capacity};
    ghost use Rattle.seq_window.specs.Stored.{HasCells, Stored};

    ghost Value = { Stored };

    ghost view = { λ w. record { top = w.top; at = w.at; cells = w.cells.items } };

    ghost invariant = { λ w.
        (HALF + 1 ≤ vec_capacity w.cells) × (HALF + 1 < 2 ^ 63) × HasCells HALF w.top w.at w.cells.items };
}

impl<const HALF: usize> Window<HALF> {
    /// A window of no number. It takes the memory for all that it will hold.
    pub fn new(alloc: Global) -> Result<Window<HALF>, NoMemory>
        ensures { IfOk result (λ window. seen_of HALF window ≡ nothing_seen) }
    {
        if HALF >= 1 << 62 {
            return Err(NoMemory);
        }
        Ok(Window {
            top: None,
            at: 0,
            cells: Vec::with_capacity(alloc, HALF + 1)?,
        })
    }

    /// The greatest number that was set, where one was.
    pub fn top(&self) -> Option<Absolute>
        ensures value { result ≡ (seen_of HALF self.now).top }
        ensures low { IfSome result (λ top. top < 2 ^ 63) }
    {
        self.top
    }

    /// The number that 16 bits on the wire mean: the nearest one, from 32,768 below the greatest number to 32,767 above
    /// it, and from 65,536 on where no number was set.
    pub fn near(&self, wire: u16) -> Absolute
        ensures { result ≡ nearest (seen_of HALF self.now).top wire }
    {
        nearest_number(self.top, wire)
    }

    /// Whether the window holds a number: one from `HALF` below the greatest number up to it.
    pub fn holds(&self, number: Absolute) -> bool
        ensures { result ≡ is_within HALF (seen_of HALF self.now).top number }
    {
        match self.top {
            Some(top) => number <= top && top - number <= HALF as u64,
            None => false,
        }
    }

    /// The state of a number, `Fresh` for one that the window doesn't hold.
    pub fn state(&self, number: Absolute) -> KeyState
        ensures { result ≡ (seen_of HALF self.now).state number }
    {
        let Some(top) = self.top else {
            return KeyState::Fresh;
        };
        if top < number {
            return KeyState::Fresh;
        }
        let below = top - number;
        if below > HALF as u64 {
            return KeyState::Fresh;
        }
        cell_at(&self.cells, cell_below(HALF + 1, self.at, below as usize))
    }

    // Makes a number that isn't below the window one that it holds.
    fn raise(&mut self, number: Absolute)
        requires high { number < 2 ^ 63 }
        ensures { seen_of HALF self.new ≡ moved_to HALF number (seen_of HALF self.old) }
    {
        let Some(top) = self.top else {
            self.at = 0;
            self.top = Some(number);
            return;
        };
        if top < number {
            self.at = move_up(&mut self.cells, HALF + 1, self.at, number - top);
            self.top = Some(number);
        }
    }

    // Gives a state to a number that the window holds.
    fn put(&mut self, number: Absolute, state: KeyState)
        requires { is_within HALF (seen_of HALF self.old).top number ≡ true }
        ensures { seen_of HALF self.new ≡ with_state HALF number state (seen_of HALF self.old) }
    {
        let Some(top) = self.top else {
            return;
        };
        let cell = cell_below(HALF + 1, self.at, (top - number) as usize);
        set_cell(&mut self.cells, cell, state);
    }

    /// Gives a state to a number that isn't below the window. One above it moves the window up, however far.
    pub fn set(&mut self, number: Absolute, state: KeyState)
        requires not_below { IfSome (seen_of HALF self.old).top (λ top. top ≤ number + HALF) }
        requires high { number < 2 ^ 63 }
        ensures { seen_of HALF self.new ≡ with_state HALF number state (seen_of HALF self.old) }
    {
        self.raise(number);
        self.put(number, state);
    }

    /// Gives a state to those of these numbers that the window holds.
    pub fn set_within(&mut self, numbers: &[Absolute], state: KeyState)
        ensures { seen_of HALF self.new ≡ with_states HALF numbers.now state (seen_of HALF self.old) }
    {
        for number in numbers {
            if self.holds(*number) {
                self.put(*number, state);
            }
        }
    }

    /// Forgets all numbers, as a new epoch of the node does.
    pub fn clear(&mut self)
        ensures { seen_of HALF self.new ≡ nothing_seen }
    {
        self.top = None;
        self.cells.clear();
    }

    /// Makes the window know what another one knows.
    pub fn copy_from(&mut self, other: &Window<HALF>)
        ensures { seen_of HALF self.new ≡ seen_of HALF other.now }
    {
        self.top = other.top;
        self.at = other.at;
        copy(&mut self.cells, &other.cells);
    }
}
