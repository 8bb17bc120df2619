//! Where the favourite moves.

ghost use Rattle.std.specs.Prelude.{◌≡◌, ◌<◌, ◌≤◌, IfSome, length};
ghost use Rattle.std.specs.Option.{option_and_then};
ghost use Rattle.gtpp_message.specs.Values.{lent};
ghost use Rattle.node_core.specs.Moving.{another, is_refusal, next_place, place_at, redirected};

use crate::peer::{Peer, place_of};
use crate::port::Port;
use byteorder::{BigEndian, ByteOrder};
use gw_base::cause::{NO_RESOURCES, SYSTEM_FAILURE};

/// The gateway after this one, among so many; with one gateway there is no other.
pub(crate) fn next_place(size: usize, gateway: u8) -> Option<u8>
    requires { size ≤ 255 }
    ensures place { result ≡ next_place size gateway }
    ensures within { IfSome result (λ place. place < size) }
{
    if size <= 1 {
        return None;
    }
    Some(((usize::from(gateway) + 1) % size) as u8)
}

/// Where a Redirection Request from the favourite moves it: to the recommended node, where that is
/// another of the gateways, else to the next one.
pub(crate) fn redirected(peers: &[Peer], gateway: u8, to: Option<&[u8]>) -> Option<u8>
    requires { length peers.now ≤ 255 }
    ensures place { result ≡ redirected peers.now gateway (lent to.entry) }
    ensures within { IfSome result (λ place. place < length peers.now) }
{
    match another(gateway, recommended(peers, to)) {
        Some(place) => Some(place),
        None => next_place(peers.len(), gateway),
    }
}

/// The place of the gateway with the recommended address, if it is one of four octets.
fn recommended(peers: &[Peer], to: Option<&[u8]>) -> Option<u8>
    requires { length peers.now ≤ 255 }
    ensures place { result ≡ option_and_then (place_at peers.now) (lent to.entry) }
    ensures within { IfSome result (λ place. place < length peers.now) }
{
    match to {
        None => None,
        Some(octets) => place_at(peers, octets),
    }
}

/// The place of the gateway with this address, if it has four octets.
fn place_at(peers: &[Peer], octets: &[u8]) -> Option<u8>
    requires { length peers.now ≤ 255 }
    ensures place { result ≡ place_at peers.now octets.now }
    ensures within { IfSome result (λ place. place < length peers.now) }
{
    if octets.len() != 4 {
        return None;
    }
    place_of(peers, BigEndian::read_u32(octets))
}

/// The place, where it is another than this gateway's.
fn another(gateway: u8, place: Option<u8>) -> Option<u8>
    ensures { result ≡ another gateway place }
{
    match place {
        Some(place) if place != gateway => Some(place),
        _ => None,
    }
}

/// Whether a response with this cause, at this port, tells that the gateway takes no packets now.
pub(crate) fn is_refusal(port: Port, cause: u8) -> bool
    ensures { result ≡ is_refusal port cause }
{
    match port {
        Port::First => cause == NO_RESOURCES || cause == SYSTEM_FAILURE,
        Port::Second => false,
    }
}
