//! Two sessions of a gateway serve at once: links in memory at which no send ends before sends at two of them have
//! begun.
ghost use Rattle.std.specs.Prelude.{◌≤◌, length};
ghost use Rattle.net_link.specs.Steps.{most_octets};

use crate::serve::{TWO_RECORDS, journal, links, serve};
use cgf_top::Status;
use gw_base::{Addr, Failed};
use net_link::{Heard, Link, LinkStop, Links, MemoryLink, MemoryLinks};
use std::sync::atomic::{AtomicU64, Ordering};
use std::thread;

/// How often a send looks whether another has begun.
const TRIES: u64 = 100_000_000;

/// Where sends meet: at how many links one has begun.
#[derive(Drop)]
struct Meeting {
    begun: AtomicU64,
}

impl Meeting {
    /// Whether sends at two links have begun, or do so soon.
    fn is_met(&self) -> bool {
        for _ in 0..TRIES {
            if self.begun.load(Ordering::SeqCst) > 1 {
                return true;
            }
            thread::yield_now();
        }
        false
    }
}

/// A link in memory that sends nothing, as if for want of memory, where no send at another link begins.
#[derive(Drop)]
struct MeetingLink<'a> {
    link: MemoryLink,
    meeting: &'a Meeting,
    has_begun: bool,
}

impl<'a> Link for MeetingLink<'a> {
    ghost use Rattle.net_link.specs.Memory.{told_of};

    ghost state = { λ l. told_of l.link };

    fn send(&mut self, to: Addr, octets: &[u8]) -> Result<(), LinkStop> {
        if !self.has_begun {
            self.has_begun = true;
            let _before = self.meeting.begun.fetch_add(1, Ordering::SeqCst);
        }
        if !self.meeting.is_met() {
            return Err(LinkStop::NoMemory);
        }
        self.link.send(to, octets)
    }

    fn receive(&mut self, into: &mut [u8]) -> Result<Heard, Failed> {
        self.link.receive(into)
    }

    fn split(&mut self) -> Result<MeetingLink<'a>, LinkStop> {
        match self.link.split() {
            Ok(link) => Ok(MeetingLink {
                link,
                meeting: self.meeting,
                has_begun: false,
            }),
            Err(stop) => Err(stop),
        }
    }
}

/// What makes such links.
#[derive(Drop)]
struct MeetingLinks<'a> {
    links: MemoryLinks,
    meeting: &'a Meeting,
}

impl<'a> Links for MeetingLinks<'a> {
    ghost use Rattle.net_link.specs.Net.{told_by};

    type Link = MeetingLink<'a>;

    ghost state = { λ n. told_by n.links };

    fn make(&mut self, at: Addr) -> Result<MeetingLink<'a>, LinkStop> {
        match self.links.make(at) {
            Ok(link) => Ok(MeetingLink {
                link,
                meeting: self.meeting,
                has_begun: false,
            }),
            Err(stop) => Err(stop),
        }
    }

    fn back(&mut self, link: MeetingLink<'a>) {
        let MeetingLink {
            link,
            meeting: _,
            has_begun: _,
        } = link;
        self.links.back(link);
    }
}

/// Of a gateway whose sessions serve in turn no send would end. It takes two turns, so the third request isn't
/// received.
#[test]
fn two_sessions_send_at_once(rt: HostRuntime) {
    let alloc = rt.alloc();
    let meeting = Meeting {
        begun: AtomicU64::new(0),
    };
    let mut links = MeetingLinks {
        links: links(&rt, alloc, [1, 2, 2], &[]),
        meeting: &meeting,
    };
    let served = serve(&rt, "2", journal(&rt, alloc, 0), &mut links);
    assert_eq!(&rt; served.status, Status::Done);
    assert_eq!(&rt; served.printed.as_slice(), TWO_RECORDS);
}
