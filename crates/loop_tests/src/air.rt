//! A network in memory, for tests: what a link sends comes to the link at that address, late, twice or not at all, as
//! the words of a seed say. It tells turns alone.
ghost use Rattle.std.specs.Prelude.{None};
ghost use Rattle.loop_run.specs.Addresses.{IsLoop};
ghost use Rattle.net_link.specs.Memory.{told_of};

use gw_base::{Addr, Failed, Octets};
use loop_run::{LoopEnd, LoopSetup, Looped, run_loop};
use net_link::{Heard, Link, LinkStop, Links, MemoryLink, MemoryLinks};
use rand_core::SeedableRng;
use rand_core::utils::NextWord;
use rand_pcg::Pcg32;
use std::alloc::Global;
use std::process::Abort;
use std::sync::{Mutex, Wait};
use std::thread::{self, Threads};
use std::time::{Clock, Duration};

/// How many datagrams may be on their way. Those beyond are lost.
const MOST_FLIGHTS: usize = 256;

/// The most octets of a datagram.
const MOST_OCTETS: usize = 65_507;

/// For how many milliseconds a link waits where nothing comes.
const WAIT: u64 = 2;

/// A datagram on its way.
#[derive(Drop)]
struct Flight {
    from: Addr,
    to: Addr,
    octets: Octets,
}

/// What is on its way, and the words that decide what becomes of it.
#[derive(Drop)]
struct Sky {
    flights: Vec<Flight>,
    words: Pcg32,
}

/// A link to the network. A link in memory, which has nothing to receive, counts its turns.
#[derive(Drop)]
struct AirLink<'a, R: Wait + Clock> {
    rt: &'a R,
    alloc: Global,
    sky: &'a Mutex<Sky>,
    at: Addr,
    turns: MemoryLink,
}

/// What makes such links.
#[derive(Drop)]
struct Air<'a, R: Wait + Clock> {
    rt: &'a R,
    alloc: Global,
    sky: &'a Mutex<Sky>,
    made: MemoryLinks,
}

impl Sky {
    /// Lets a datagram go: one of eight is lost, one goes twice.
    fn send(&mut self, alloc: Global, from: Addr, to: Addr, octets: &[u8]) {
        let copies = match self.words.next_word() % 8 {
            0 => 0,
            1 => 2,
            _ => 1,
        };
        for _ in 0..copies {
            if self.flights.len() >= MOST_FLIGHTS {
                return;
            }
            if let Ok(octets) = Octets::of(alloc, octets) {
                let flight = Flight { from, to, octets };
                if self.flights.push(flight).is_err() {
                    return;
                }
            }
        }
    }

    /// A datagram that comes to an address, if one does now: one of four waits longer, and later ones may pass it.
    fn arrive(&mut self, at: Addr) -> Option<Flight> {
        for i in 0..self.flights.len() {
            if self.flights[i].to == at && self.words.next_word() % 4 > 0 {
                return Some(self.flights.remove(i));
            }
        }
        None
    }
}

impl<R: Wait + Clock> Link for AirLink<'_, R> {
    ghost state = { λ link. record (told_of link.turns) { received = None; sent = None } };

    fn send(&mut self, to: Addr, octets: &[u8]) -> Result<(), LinkStop> {
        let mut sky = self.sky.lock(self.rt);
        sky.send(self.alloc, self.at, to, octets);
        Ok(())
    }

    fn receive(&mut self, into: &mut [u8]) -> Result<Heard, Failed> {
        let came = self.sky.lock(self.rt).arrive(self.at);
        let _quiet = self.turns.receive(into)?;
        let Some(
            Flight {
                from,
                to: _,
                octets,
            },
        ) = came
        else {
            thread::sleep(self.rt, Duration::from_millis(WAIT));
            return Ok(Heard::Quiet);
        };
        let octets = octets.octets();
        let length = octets.len().min(MOST_OCTETS);
        into[..length].copy_from_slice(&octets[..length]);
        Ok(Heard::Datagram { from, length })
    }

    fn split(&mut self) -> Result<Self, LinkStop> {
        Ok(AirLink {
            rt: self.rt,
            alloc: self.alloc,
            sky: self.sky,
            at: self.at,
            turns: self.turns.split()?,
        })
    }
}

impl<'a, R: Wait + Clock> Links for Air<'a, R> {
    type Link = AirLink<'a, R>;

    ghost state = { λ a. record (⟦<MemoryLinks as Links>⟧.state a.made) { received = λ at. None; sent = λ at. None } };

    fn make(&mut self, at: Addr) -> Result<AirLink<'a, R>, LinkStop> {
        Ok(AirLink {
            rt: self.rt,
            alloc: self.alloc,
            sky: self.sky,
            at,
            turns: self.made.make(at)?,
        })
    }

    fn back(&mut self, link: AirLink<'a, R>) {
        self.made.back(link.turns);
    }
}

/// How a loop over such a network ends, and what it ran.
fn air_over<R: Threads + Wait + Clock + Sync + Abort>(
    rt: &R,
    alloc: Global,
    seed: u64,
    setup: LoopSetup,
) -> (LoopEnd, Looped)
    requires { IsLoop setup }
{
    let Ok(made) = MemoryLinks::new(alloc, Vec::new(alloc), 0, Vec::new(alloc)) else {
        panic!(rt; "no memory");
    };
    let sky = Mutex::new(Sky {
        flights: Vec::new(alloc),
        words: Pcg32::seed_from_u64(seed),
    });
    let mut air = Air {
        rt,
        alloc,
        sky: &sky,
        made,
    };
    run_loop(rt, alloc, setup, &mut air)
}

/// Whether a loop was fine, or ended with packets that aren't done.
fn is_sound(end: &LoopEnd) -> bool {
    matches!(end, LoopEnd::Fine { .. } | LoopEnd::Unfinished { .. })
}

/// Whether a loop of three gateways is, with these words.
fn is_sound_with<R: Threads + Wait + Clock + Sync + Abort>(
    rt: &R,
    alloc: Global,
    seed: u64,
) -> bool {
    let setup = LoopSetup {
        gateways: 3,
        nodes: 4,
        packets: 20,
        turns: 10_000,
    };
    let (end, _looped) = air_over(rt, alloc, seed, setup);
    is_sound(&end)
}

#[test]
fn losses_repeats_and_delays_file_no_packet_twice(rt: HostRuntime) {
    for seed in 0..3 {
        assert!(rt; is_sound_with(&rt, rt.alloc(), seed));
    }
}
