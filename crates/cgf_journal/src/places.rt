// The places of a trail's entries.
ghost use Rattle.std.specs.Prelude.{◌≡◌, ◌<◌, ◌≤◌, ◌^◌, ◌++◌, [], ◌∷◌, length, take, slice_get, Some, IfOk, OnOk, OnErr};
ghost use Rattle.cgf_journal.specs.Reserved.{place_of};

use gw_base::{NoMemory, Place};
use std::alloc::Global;
use std::marker::Model;

/// A place in an area that has so few octets that 32 bits number them.
#[derive(Clone, Copy)]
struct Spot {
    at: u32,
    length: u32,
}

impl Spot {
    fn of(place: Place) -> Spot
        requires { place.at < 2 ^ 32 }
        ensures { place_of result ≡ place }
    {
        Spot {
            at: place.at as u32,
            length: place.length,
        }
    }

    fn place(self) -> Place
        ensures { result ≡ place_of self }
    {
        Place {
            at: u64::from(self.at),
            length: self.length,
        }
    }
}

/// Places of entries, in order, for so many of which memory is reserved. Each takes 8 octets.
#[derive(Drop)]
pub(crate) struct Places {
    spots: Vec<Spot>,
    reserved: usize,
}

impl Model for Places {
    ghost use Rattle.std.specs.Prelude.{◌≤◌, map, vec_capacity};
    ghost use Rattle.cgf_journal.specs.Reserved.{Placed, place_of};

    ghost Value = { Placed };

    ghost view = { λ p. record { items = map place_of p.spots.items; reserved = p.reserved } };

    ghost invariant = { λ p. p.reserved ≤ vec_capacity p.spots };
}

impl Places {
    /// No places, and memory for so many.
    pub(crate) fn reserve(alloc: Global, count: usize) -> Result<Places, NoMemory>
        ensures { IfOk result (λ places. places ≡ record { items = []; reserved = count }) }
    {
        Ok(Places {
            spots: Vec::with_capacity(alloc, count)?,
            reserved: count,
        })
    }

    /// Adds a place after the others. It takes memory only where there are as many as were reserved.
    pub(crate) fn push(&mut self, place: Place) -> Result<(), NoMemory>
        requires fits { place.at < 2 ^ 32 }
        ensures ok { OnOk result (self.new.items ≡ self.old.items ++ place ∷ []) }
        ensures err { OnErr result (self.new.items ≡ self.old.items) }
        ensures reserved { self.new.reserved ≡ self.old.reserved }
        ensures full { OnErr result (self.old.reserved ≤ length self.old.items) }
    {
        self.spots.push(Spot::of(place))?;
        Ok(())
    }

    /// Takes out all places but so many first ones.
    pub(crate) fn truncate(&mut self, count: usize)
        ensures items { self.new.items ≡ take count self.old.items }
        ensures reserved { self.new.reserved ≡ self.old.reserved }
    {
        self.spots.truncate(count);
    }

    /// How many places there are.
    pub(crate) fn len(&self) -> usize
        ensures { result ≡ length self.now.items }
    {
        self.spots.len()
    }

    /// The k-th place, counted from 0.
    pub(crate) fn at(&self, k: usize) -> Place
        requires { k < length self.now.items }
        ensures { slice_get self.now.items k ≡ Some result }
    {
        self.spots[k].place()
    }
}
