//! A gateway that serves, over links in memory: what it replies and files, what it refuses to open, and links that
//! fail.
ghost use Rattle.std.specs.Prelude.{◌≡◌, ◌≤◌, ◌<◌, ◌^◌, length};
ghost use Rattle.gw_base.specs.declared.address.Addr.{Addr as Address};
ghost use Rattle.net_link.specs.Memory.{AreShort};
ghost use Rattle.net_link.specs.Net.{told_by};

use crate::book::REQUEST;
use crate::job::{clock_at, printed, run, sink, source, words_of};
use area_disk::{Area, QuietArea};
use cdr_shelf::{FileName, QuietShelf};
use cgf_top::{Ended, Status, StoreFault};
use gw_base::{Addr, Octets};
use net_link::{Links, MemoryLinks, Post};
use std::alloc::Global;
use std::process::Abort;
use std::sync::Wait;
use std::thread::Threads;
use std::time::Clock;

/// The address of the gateway.
const HERE: Addr = Addr {
    ip: 0x0A00_0001,
    port: 3386,
};

/// How many octets the journal has.
const LENGTH: u64 = 16_777_216;

/// What is printed for a record of each of two nodes.
pub(crate) const TWO_RECORDS: &[u8] = b"gateway 1 entries 4 records 2 held 0 stranded 0\n";

/// A node of the network 10.0.1.0.
fn node(last: u8) -> Addr {
    Addr {
        ip: 0x0A00_0100 | u32::from(last),
        port: 40_001,
    }
}

/// Puts a node's Data Record Transfer Request with one record, under the number 0, behind others.
fn put(rt: &impl Abort, alloc: Global, posts: &mut Vec<Post>, last: u8)
    requires { AreShort posts.old.items }
    ensures { AreShort posts.new.items }
{
    let Ok(octets) = Octets::of(alloc, &REQUEST) else {
        panic!(rt; "no memory for a datagram")
    };
    let post = Post {
        at: HERE,
        peer: node(last),
        octets,
    };
    let Ok(()) = posts.push(post) else {
        panic!(rt; "no memory for a post")
    };
}

/// The request of each of three nodes.
fn posts(rt: &impl Abort, alloc: Global, nodes: [u8; 3]) -> Vec<Post>
    ensures { AreShort result.items }
{
    let [first, second, third] = nodes;
    let mut posts = Vec::new(alloc);
    put(rt, alloc, &mut posts, first);
    put(rt, alloc, &mut posts, second);
    put(rt, alloc, &mut posts, third);
    posts
}

/// Links whose calls with these numbers fail, and which have the request of each of three nodes to receive.
pub(crate) fn links(rt: &impl Abort, alloc: Global, nodes: [u8; 3], fail: &[u64]) -> MemoryLinks
    ensures { (at : Address) → (told_by result).turns at < 2 ^ 63 }
{
    let Ok(fail) = fail.to_vec(alloc) else {
        panic!(rt; "no memory for calls")
    };
    let Ok(links) = MemoryLinks::new(alloc, posts(rt, alloc, nodes), 10, fail) else {
        panic!(rt; "no memory for links")
    };
    links
}

/// A journal that begins with this octet.
pub(crate) fn journal(rt: &impl Abort, alloc: Global, first: u8) -> QuietArea
    ensures { ⟦<QuietArea as Area>⟧.size result ≡ 16777216 }
{
    let Ok(mut area) = QuietArea::new(alloc, LENGTH) else {
        panic!(rt; "no memory for a journal")
    };
    let Ok(()) = area.write_at(0, &[first]) else {
        panic!(rt; "not written")
    };
    area
}

/// How a gateway ended that served, what it wrote, and its files.
#[derive(Drop)]
pub(crate) struct Served {
    pub(crate) status: Status,
    pub(crate) printed: Vec<u8>,
    pub(crate) shelf: QuietShelf,
}

/// Serves so many turns at these links.
pub(crate) fn serve<L: Links, R: Abort + Threads + Wait + Clock + Sync + Alloc<A = Global>>(
    rt: &R,
    turns: &str,
    area: QuietArea,
    links: &mut L,
) -> Served
where
    L::Link: Send,
    requires size { ⟦<QuietArea as Area>⟧.size area ≡ 16777216 }
    requires turns { (at : Address) → (L.state links.old).turns at < 2 ^ 63 }
{
    let alloc = rt.alloc();
    let words = [
        "serve", "10.0.0.1", "3386", turns, "16777216", "area", "folder",
    ];
    let words = words_of(rt, alloc, &words);
    let mut clock = clock_at(rt, alloc, 1_709_164_800);
    let mut source = source(rt, alloc, b"end\n", 4096, &[]);
    let mut sink = sink(rt, alloc, 1000, &[]);
    let Ended {
        status,
        area: _,
        shelf,
        looped: _,
        played: _,
    } = run(rt, &words, &mut source, &mut sink, area, links, &mut clock);
    Served {
        status,
        printed: printed(rt, alloc, &sink),
        shelf,
    }
}

/// Puts the cause of what was sent in this place behind others, where it was sent to a node.
fn put_cause(rt: &impl Abort, causes: &mut Vec<u8>, post: &Post, last: u8) {
    if post.peer != node(last) {
        return;
    }
    let Some(cause) = post.octets.octets().get(7) else {
        return;
    };
    assert!(rt; causes.push(*cause).is_ok());
}

/// The causes of what was sent to a node, in order.
fn causes_to(rt: &impl Abort, alloc: Global, links: &MemoryLinks, last: u8) -> Vec<u8> {
    let mut causes = Vec::new(alloc);
    for k in 0..10 {
        if let Some(post) = links.sent(k) {
            put_cause(rt, &mut causes, post, last);
        }
    }
    causes
}

/// The one file of a shelf.
fn file(shelf: &QuietShelf) -> Option<&[u8]> {
    match shelf.nth(1) {
        None => shelf.file(FileName {
            stream: 0,
            sequence: 1,
        }),
        Some(_) => None,
    }
}

/// A CDR file of a record of each of two nodes.
const TWO_CDRS: &[u8] = b"\
\x00\x00\x00\x46\x00\x00\x00\x34\x60\x60\x2E\x80\x08\x00\x2E\x80\x08\x00\x00\x00\x00\x02\x00\x00\x00\x01\x04\
\x00\x00\x00\x00\x00\x00\x00\x00\x00\x00\xFF\xFF\x0A\x00\x00\x01\x00\x00\x00\x00\x00\x00\x00\x00\x00\x00\x05\
\x60\x20\xA0\x03\x80\x01\x05\x00\x05\x60\x20\xA0\x03\x80\x01\x05";

/// What was sent to a node has these causes, in order.
fn are_told(rt: &impl Abort, alloc: Global, links: &MemoryLinks, last: u8, causes: &[u8]) {
    assert_eq!(rt; causes_to(rt, alloc, links, last).as_slice(), causes);
}

/// A gateway ended well, printed that it has the records of two nodes, and filed them.
fn filed_two(rt: &impl Abort, served: &Served) {
    assert_eq!(rt; served.status, Status::Done);
    assert_eq!(rt; served.printed.as_slice(), TWO_RECORDS);
    assert_eq!(rt; file(&served.shelf), Some(TWO_CDRS));
}

/// The fourth turn hears nothing.
#[test]
fn a_gateway_tells_a_repeat_and_files_a_record_of_each_node(rt: HostRuntime) {
    let alloc = rt.alloc();
    let mut links = links(&rt, alloc, [1, 1, 2], &[]);
    let served = serve(&rt, "4", journal(&rt, alloc, 0), &mut links);
    filed_two(&rt, &served);
    are_told(&rt, alloc, &links, 1, &[0x80, 0xFD]);
    are_told(&rt, alloc, &links, 2, &[0x80]);
}

/// How a gateway ended over a journal that begins with this octet, whose links fail at these calls, and wrote nothing.
fn ended<R: Abort + Threads + Wait + Clock + Sync + Alloc<A = Global>>(
    rt: &R,
    first: u8,
    fail: &[u64],
) -> Status {
    let alloc = rt.alloc();
    let mut links = links(rt, alloc, [1, 1, 2], fail);
    let served = serve(rt, "4", journal(rt, alloc, first), &mut links);
    assert!(rt; served.printed.is_empty());
    assert!(rt; served.shelf.nth(0).is_none());
    served.status
}

/// The first call of the link that receives splits it; the other four are its receipts.
#[test]
fn another_journal_and_links_that_fail_end_it(rt: HostRuntime) {
    let foreign = Status::Store(StoreFault::NotOurs { at: 0 });
    assert_eq!(&rt; ended(&rt, 0xFF, &[]), foreign);
    for call in 1..=5 {
        assert_eq!(&rt; ended(&rt, 0, &[call]), Status::Link);
    }
}
