// What makes links in memory.
ghost use Rattle.std.specs.Prelude.{◌≡◌, IfOk, OnErr, option_copied, slice_get, Err};
ghost use Rattle.net_link.specs.declared.link.LinkStop.TheVariants as stop;
ghost use Rattle.net_link.specs.Datagrams.{IsNewAt};
ghost use Rattle.net_link.specs.Making.{Makes, TakesBack};
ghost use Rattle.net_link.specs.Memory.{AreShort, path_at, told_of};
ghost use Rattle.net_link.specs.Net.{all_sent, given_back, given_for, net_of, told_by};

use crate::link::{Link, LinkStop};
use crate::links::Links;
use crate::memory_link::MemoryLink;
use crate::post::Post;
use crate::turns::{Tally, add};
use gw_base::{Addr, NoMemory, Octets};
use std::alloc::Global;
use std::marker::Model;

/// How many links given back are kept.
const KEPT: usize = 64;

/// What makes links in memory. A link that is made at an address has the posts given for it to receive, in their
/// order, has room to send so many datagrams, and fails at these calls, counted from 1. It keeps the first 64 links
/// given back; from the 65th on no lists are told.
#[derive(Drop)]
pub struct MemoryLinks {
    alloc: Global,
    given: Vec<Post>,
    room: usize,
    fail: Vec<u64>,
    tallies: Vec<Tally>,
    links: Vec<MemoryLink>,
    are_all: bool,
    faults: u64,
}

impl Model for MemoryLinks {
    ghost use Rattle.std.specs.Prelude.{◌≤◌, length, vec_capacity};
    ghost use Rattle.net_link.specs.Memory.{AreShort};
    ghost use Rattle.net_link.specs.Net.{MemoryNet};

    ghost Value = { MemoryNet };

    ghost view = { λ n. record {
      given = n.given.items;
      room = n.room;
      fail = n.fail.items;
      tallies = n.tallies.items;
      links = n.links.items;
      are_all = n.are_all;
      faults = n.faults;
    } };

    ghost invariant = { λ n. AreShort n.given.items × (64 ≤ vec_capacity n.links) };
}

// Copies of the posts that are given for an address.
fn posts_for(alloc: Global, given: &[Post], at: Addr) -> Result<Vec<Post>, NoMemory>
    requires { AreShort given.now }
    ensures all { IfOk result (λ posts. posts.items ≡ given_for at given.now) }
    ensures short { IfOk result (λ posts. AreShort posts.items) }
{
    let mut posts = Vec::new(alloc);
    for post in given {
        if at == post.at {
            let copy = copy_of(alloc, post)?;
            posts.push(copy)?;
        }
    }
    Ok(posts)
}

fn copy_of(alloc: Global, post: &Post) -> Result<Post, NoMemory>
    ensures { IfOk result (λ copy. copy ≡ post.now) }
{
    Ok(Post {
        at: post.at,
        peer: post.peer,
        octets: Octets::of(alloc, post.octets.octets())?,
    })
}

impl MemoryLinks {
    /// What makes links for these posts. It takes the places for 64 links given back.
    pub fn new(
        alloc: Global,
        given: Vec<Post>,
        room: usize,
        fail: Vec<u64>,
    ) -> Result<MemoryLinks, NoMemory>
        requires { AreShort given.items }
        ensures { IfOk result (λ net. net ≡ net_of given.items room fail.items) }
    {
        Ok(MemoryLinks {
            alloc,
            given,
            room,
            fail,
            tallies: Vec::new(alloc),
            links: Vec::with_capacity(alloc, KEPT)?,
            are_all: true,
            faults: 0,
        })
    }

    /// The k-th datagram, from 0, that the first 64 links given back had sent, link after link; `None` exactly where
    /// there are no more.
    pub fn sent(&self, k: usize) -> Option<&Post>
        ensures { option_copied result ≡ slice_get (all_sent self.now.links) k }
    {
        let mut left = k;
        for link in &self.links {
            let count = link.sent.len();
            if left < count {
                return link.sent.get(left);
            }
            left -= count;
        }
        None
    }

    // A link at this address, which has no tally yet.
    fn link_at(&self, at: Addr) -> Result<MemoryLink, NoMemory>
        ensures { IfOk result (λ link. link ≡ path_at at (given_for at self.now.given) self.now.room self.now.fail) }
    {
        let posts = posts_for(self.alloc, &self.given, at)?;
        let fail = self.fail.to_vec(self.alloc)?;
        MemoryLink::new(self.alloc, at, posts, self.room, fail)
    }
}

impl Links for MemoryLinks {
    type Link = MemoryLink;

    ghost state = { told_by };

    fn make(&mut self, at: Addr) -> Result<MemoryLink, LinkStop>
        ensures new { IfOk result (λ link. IsNewAt at (told_of link)) }
        ensures made { Makes MemoryLink (told_by self.old) at result (told_by self.new) }
        ensures whole { IfOk result (λ link.
            link ≡ path_at at (given_for at self.old.given) self.old.room self.old.fail) }
        ensures memory { OnErr result (result ≡ Err stop.NoMemory) }
        ensures kept { self.new ≡ record self.old { tallies = self.new.tallies } }
    {
        let link = self.link_at(at)?;
        if self.tallies.push(Tally { at, turns: 0 }).is_err() {
            return Err(LinkStop::NoMemory);
        }
        Ok(link)
    }

    fn back(&mut self, link: MemoryLink)
        requires { (told_by self.old).IsMade (told_of link).address }
        ensures takes { TakesBack (told_by self.old) (told_of link) (told_by self.new) }
        ensures whole { self.new ≡ given_back self.old link self.new.tallies }
    {
        self.faults = self.faults.saturating_add(link.faults);
        add(&mut self.tallies, link.address, link.turns);
        if self.links.len() >= KEPT {
            self.are_all = false;
            return;
        }
        self.links.push_reserved(link);
    }
}
