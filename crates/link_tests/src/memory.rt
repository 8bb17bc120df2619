//! Links in memory, with ample memory.
ghost use Rattle.std.specs.Prelude.{◌≡◌, ◌≤◌, IfSome, length};
ghost use Rattle.net_link.specs.Memory.{AreShort};

use gw_base::{Addr, Octets};
use net_link::{Heard, Link, Links, MemoryLinks, Post};
use std::alloc::Global;
use std::test::Fail;

const HERE: Addr = Addr {
    ip: 0x0A00_0001,
    port: 3386,
};

const THERE: Addr = Addr {
    ip: 0x0A00_0002,
    port: 3386,
};

// A list of one post, from there to here.
fn one_post(alloc: Global, octets: &[u8]) -> Option<Vec<Post>>
    requires { length octets.now ≤ 65507 }
    ensures { IfSome result (λ posts. AreShort posts.items) }
{
    let octets = Octets::of(alloc, octets).ok()?;
    let mut posts = Vec::new(alloc);
    posts
        .push(Post {
            at: HERE,
            peer: THERE,
            octets,
        })
        .ok()?;
    Some(posts)
}

// Hears a post by a link and nothing by the other, sends by both, and by the first once more: whether each went so.
fn used<L: Link + Send>(link: &mut L, split: &mut L, into: &mut [u8]) -> [bool; 5]
    requires { 65507 ≤ length into.old }
    ensures link { (L.state link.new).address ≡ (L.state link.old).address }
    ensures split { (L.state split.new).address ≡ (L.state split.old).address }
{
    let heard = link.receive(into)
        == Ok(Heard::Datagram {
            from: THERE,
            length: 3,
        });
    let quiet = split.receive(into) == Ok(Heard::Quiet);
    let first = link.send(THERE, &[4]).is_ok();
    let second = split.send(THERE, &[5]).is_ok();
    let full = link.send(THERE, &[6]).is_err();
    [heard, quiet, first, second, full]
}

// Whether a link in memory, and one that was split of it, do what they are to do, and whether the datagrams that they
// sent are told once they are given back.
fn runs(alloc: Global) -> Option<([bool; 5], bool)> {
    let posts = one_post(alloc, &[1, 2, 3])?;
    let mut links = MemoryLinks::new(alloc, posts, 1, Vec::new(alloc)).ok()?;
    let mut into = Vec::from_elem(alloc, 0, 65_507).ok()?;
    let Ok(mut link) = links.make(HERE) else {
        return None;
    };
    let Ok(mut split) = link.split() else {
        return None;
    };
    let went = used(&mut link, &mut split, into.as_mut_slice());
    links.back(split);
    links.back(link);
    let first = links.sent(0)?.octets.octets() == [5].as_slice();
    let second = links.sent(1)?.octets.octets() == [4].as_slice();
    Some((went, first && second && links.sent(2).is_none()))
}

#[test]
fn a_link_in_memory_hears_what_is_given_for_it_and_tells_what_it_sent(
    rt: HostRuntime,
) -> Result<(), Fail> {
    assert!(rt; runs(rt.alloc()) == Some(([true; 5], true)));
    Ok(())
}
