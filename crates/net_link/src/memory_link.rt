// A link in memory.
ghost use Rattle.std.specs.Prelude.{◌≡◌, ◌↔◌, ◌≤◌, ◌⊎◌, [], length, Contains, IfOk, OnOk, OnErr, IsErr, Err};
ghost use Rattle.gw_base.specs.Faults.{next_count};
ghost use Rattle.net_link.specs.declared.link.LinkStop.TheVariants as stop;
ghost use Rattle.net_link.specs.Datagrams.{IsNewAt};
ghost use Rattle.net_link.specs.Memory.{AreShort, Hears, failing, path_at, sending, told_of};
ghost use Rattle.net_link.specs.Steps.{Receives, Sends, Stops, most_octets};

use crate::link::{Heard, Link, LinkStop};
use crate::post::Post;
use gw_base::{Addr, Failed, NoMemory, Octets};
use std::alloc::Global;
use std::marker::Model;

/// A link that holds what it receives and what was sent, tells both, and fails at the calls that it is told to, and
/// at a datagram that it has no room for. Its calls are sends, receives and splits.
#[derive(Drop)]
pub struct MemoryLink {
    alloc: Global,
    pub(crate) address: Addr,
    given: Vec<Post>,
    next: usize,
    pub(crate) sent: Vec<Post>,
    room: usize,
    calls: u64,
    fail: Vec<u64>,
    pub(crate) turns: u64,
    pub(crate) faults: u64,
}

impl Model for MemoryLink {
    ghost use Rattle.std.specs.Prelude.{◌≤◌, drop, length, take, vec_capacity};
    ghost use Rattle.net_link.specs.Memory.{AreShort, MemoryPath};

    ghost Value = { MemoryPath };

    ghost view = { λ l. record {
      address = l.address;
      received = take l.next l.given.items;
      left = drop l.next l.given.items;
      sent = l.sent.items;
      room = l.room;
      calls = l.calls;
      fail = l.fail.items;
      turns = l.turns;
      faults = l.faults;
    } };

    ghost invariant = { λ l. (l.next ≤ length l.given.items) × AreShort l.given.items
        × (length l.sent.items ≤ l.room) × (l.room ≤ vec_capacity l.sent) };
}

impl MemoryLink {
    // A link at this address that has these posts to receive.
    pub(crate) fn new(
        alloc: Global,
        address: Addr,
        given: Vec<Post>,
        room: usize,
        fail: Vec<u64>,
    ) -> Result<MemoryLink, NoMemory>
        requires { AreShort given.items }
        ensures { IfOk result (λ link. link ≡ path_at address given.items room fail.items) }
    {
        Ok(MemoryLink {
            alloc,
            address,
            given,
            next: 0,
            sent: Vec::with_capacity(alloc, room)?,
            room,
            calls: 0,
            fail,
            turns: 0,
            faults: 0,
        })
    }

    // Counts a call that fails.
    fn failed(&mut self)
        ensures { self.new ≡ failing self.old }
    {
        self.calls = self.calls.saturating_add(1);
        self.faults = self.faults.saturating_add(1);
    }

    // A link at the same address, with nothing to receive.
    fn again(&self) -> Result<MemoryLink, NoMemory>
        ensures { IfOk result (λ link. link ≡ path_at self.now.address [] self.now.room self.now.fail) }
    {
        let fail = self.fail.to_vec(self.alloc)?;
        MemoryLink::new(
            self.alloc,
            self.address,
            Vec::new(self.alloc),
            self.room,
            fail,
        )
    }

    // Takes the next post that is left, into the front of a buffer.
    #[tactic(auto, using(crate::proofs::PathLemmas::hears_none, crate::proofs::PathLemmas::hears_one))]
    fn take(&mut self, into: &mut [u8]) -> Heard
        requires { most_octets ≤ length into.old }
        ensures { Hears self.old.left self.old into.new result self.new }
    {
        self.calls = self.calls.saturating_add(1);
        self.turns = self.turns.saturating_add(1);
        if self.next == self.given.len() {
            return Heard::Quiet;
        }
        let post = &self.given[self.next];
        let octets = post.octets.octets();
        let length = octets.len();
        into[..length].copy_from_slice(octets);
        let from = post.peer;
        self.next += 1;
        Heard::Datagram { from, length }
    }
}

impl Link for MemoryLink {
    ghost state = { told_of };

    fn send(&mut self, to: Addr, octets: &[u8]) -> Result<(), LinkStop>
        ensures sends { Sends (told_of self.old) to octets.now result (told_of self.new) }
        ensures fails { (result ≡ Err stop.Failed) ↔ (Contains self.old.fail (next_count self.old.calls)
            ⊎ (self.old.room ≤ length self.old.sent)) }
        ensures ok { OnOk result (self.new ≡ sending self.old to octets.now) }
        ensures failed { (result ≡ Err stop.Failed) → self.new ≡ failing self.old }
        ensures no_memory { (result ≡ Err stop.NoMemory) → self.new ≡ self.old }
    {
        let call = self.calls.saturating_add(1);
        if self.fail.contains(&call) || self.sent.len() == self.room {
            self.failed();
            return Err(LinkStop::Failed);
        }
        let Ok(octets) = Octets::of(self.alloc, octets) else {
            return Err(LinkStop::NoMemory);
        };
        self.calls = call;
        self.sent.push_reserved(Post {
            at: self.address,
            peer: to,
            octets,
        });
        Ok(())
    }

    fn receive(&mut self, into: &mut [u8]) -> Result<Heard, Failed>
        requires { most_octets ≤ length into.old }
        ensures receives { Receives (told_of self.old) into.new result (told_of self.new) }
        ensures fails { IsErr result ↔ Contains self.old.fail (next_count self.old.calls) }
        ensures failed { OnErr result (self.new ≡ failing self.old) }
        ensures hears { IfOk result (λ heard. Hears self.old.left self.old into.new heard self.new) }
    {
        let call = self.calls.saturating_add(1);
        if self.fail.contains(&call) {
            self.failed();
            return Err(Failed);
        }
        Ok(self.take(into))
    }

    fn split(&mut self) -> Result<MemoryLink, LinkStop>
        ensures new { IfOk result (λ link. IsNewAt (told_of self.old).address (told_of link)) }
        ensures ok { OnOk result (told_of self.new ≡ told_of self.old) }
        ensures stops { Stops MemoryLink (told_of self.old) result (told_of self.new) }
        ensures fails { (result ≡ Err stop.Failed) ↔ Contains self.old.fail (next_count self.old.calls) }
        ensures works { IfOk result (λ link. link ≡ path_at self.old.address [] self.old.room self.old.fail) }
        ensures counted { OnOk result (self.new ≡ record self.old { calls = next_count self.old.calls }) }
        ensures failed { (result ≡ Err stop.Failed) → self.new ≡ failing self.old }
        ensures no_memory { (result ≡ Err stop.NoMemory) → self.new ≡ self.old }
    {
        let call = self.calls.saturating_add(1);
        if self.fail.contains(&call) {
            self.failed();
            return Err(LinkStop::Failed);
        }
        let link = self.again()?;
        self.calls = call;
        Ok(link)
    }
}
