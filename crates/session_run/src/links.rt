// The links of a gateway: they are made, and given back.
ghost use Rattle.std.specs.Prelude.{◌≡◌, ◌≢◌, ◌<◌, [], All, None, Some, length, vec_capacity, vec_len};
ghost use Rattle.gw_base.specs.Faults.{Rose};
ghost use Rattle.gw_base.specs.declared.address.Addr.{Addr as Address};
ghost use Rattle.net_link.specs.Datagrams.{IsNewAt};
ghost use Rattle.session_run.specs.Links.{GivesBack, HasMade, IsIdleAt, stopped_by};
ghost use Rattle.session_run.specs.Running.{AreNewAt};

use crate::stop::Stop;
use gw_base::Addr;
use net_link::{Link, LinkStop, Links};
use std::alloc::Global;
use std::mem;

/// How many links a gateway has: one to receive, and one for each of four sessions.
const LINKS: usize = 5;

/// Five links of an address, the one that was made in front of those that were split, or those that could be made, and why
/// there aren't all.
pub fn make_links<L: Links>(
    alloc: Global,
    links: &mut L,
    address: Addr,
) -> (Vec<L::Link>, Option<Stop>)
    ensures made { HasMade L.Link.Link address (L.state links.old) (L.state links.new) result.0.items result.1 }
    ensures five { result.1 ≡ None → AreNewAt L.Link.Link address result.0.items }
{
    let Ok(mut made) = Vec::with_capacity(alloc, LINKS) else {
        return (Vec::new(alloc), Some(Stop::NoMemory));
    };
    let mut last = match links.make(address) {
        Ok(link) => link,
        Err(stop) => return (made, Some(stop_of(stop))),
    };
    let stop = split_all(&mut last, &mut made);
    made.push_reserved(last);
    (made, stop)
}

/// Four more links of the address of a new one, or those that could be made, and why there aren't all. Each is split of
/// the one before, and the last one takes the place of the first: those before it stand in the list, in their order.
fn split_all<K: Link>(last: &mut K, made: &mut Vec<K>) -> Option<Stop>
    requires none { made.old.items ≡ [] }
    requires room { vec_capacity made.old ≡ 5 }
    ensures new { (at : Address) → IsNewAt at (K.state last.old) →
        All (λ link. IsNewAt at (K.state link)) made.new.items }
    ensures last { (at : Address) → IsNewAt at (K.state last.old) → IsIdleAt at (K.state last.new) }
    ensures four { result ≡ None → (length made.new.items ≡ 4)
        × ((at : Address) → IsNewAt at (K.state last.old) → IsNewAt at (K.state last.new)) }
    ensures room { (vec_len made.new < 5) × (vec_capacity made.new ≡ 5) }
    ensures cause { result ≡ Some Stop.Link → (at : Address) → IsNewAt at (K.state last.old) →
        Rose 0 (K.state last.new).faults }
    ensures clock { result ≢ Some Stop.Clock }
{
    'splits: while made.len() < LINKS - 1 {
        match last.split() {
            Ok(link) => made.push_reserved(mem::replace(last, link)),
            Err(stop) => return Some(stop_of(stop)),
        }
    }
    None
}

/// Why a gateway stops whose link stopped.
fn stop_of(stop: LinkStop) -> Stop
    ensures { result ≡ stopped_by stop }
{
    match stop {
        LinkStop::Failed => Stop::Link,
        LinkStop::NoMemory => Stop::NoMemory,
    }
}

/// Gives links back.
pub fn give_back<L: Links>(links: &mut L, mut made: Vec<L::Link>, address: Addr)
    requires made { All (λ link. (L.Link.state link).address ≡ address) made.items }
    requires known { 0 < length made.items → (L.state links.old).IsMade address }
    ensures { GivesBack L.Link.Link address (L.state links.old) (L.state links.new) made.items }
{
    while let Some(link) = made.pop() {
        links.back(link);
    }
}
