ghost use Rattle.std.specs.Prelude.{◌≡◌, ◌<◌, ◌≤◌, IfSome, length};
ghost use Rattle.node_core.specs.Peers.{AreNumbers, address_at, drawn, last_number, next_number, number_drawn, path_drawn, peer_anew, place_of};
ghost use Rattle.node_core.specs.Value.{peers_anew};

use crate::sending::Sending;
use gw_base::Addr;

/// The first request number that a node draws for a gateway.
pub const FIRST_NUMBER: u64 = 65_536;

/// No request number is drawn from here on, as a gateway takes none.
pub const END_OF_NUMBERS: u64 = 0x8000_0000_0000_0000;

/// A gateway as a node sees it: where it is, and the next numbers that the node draws for it.
#[derive(Clone, Copy)]
pub struct Peer {
    pub address: Addr,
    /// The next path number, which returns to 0 behind 65,535.
    pub path: u16,
    /// The next request number.
    pub next: u64,
}

impl Peer {
    /// A gateway for which no number was drawn since the start.
    pub(crate) fn anew(address: Addr) -> Peer
        ensures { result ≡ peer_anew address }
    {
        Peer {
            address,
            path: 0,
            next: FIRST_NUMBER,
        }
    }
}

/// The gateways as at a start.
#[tactic(auto, using(crate::proofs::NodeLemmas::renewed_more, std::proofs::lemmas::Grind::common_steps))]
pub(crate) fn renew(peers: &mut [Peer])
    ensures { peers.new ≡ peers_anew peers.old }
{
    for i in 0..peers.len() {
        peers[i] = Peer::anew(peers[i].address);
    }
}

/// The next request number of a gateway.
pub(crate) fn next_number(peers: &[Peer], gateway: u8) -> u64
    ensures { result ≡ next_number peers.now gateway }
{
    match peers.get(usize::from(gateway)) {
        Some(peer) => peer.next,
        None => FIRST_NUMBER,
    }
}

/// The last request number that was drawn for a gateway.
pub(crate) fn last_number(peers: &[Peer], gateway: u8) -> u64
    ensures { result ≡ last_number peers.now gateway }
{
    next_number(peers, gateway).saturating_sub(1)
}

/// The address of a gateway.
pub(crate) fn address_at(peers: &[Peer], gateway: u8) -> Addr
    ensures { result ≡ address_at peers.now gateway }
{
    match peers.get(usize::from(gateway)) {
        Some(peer) => peer.address,
        None => Addr { ip: 0, port: 0 },
    }
}

/// The place of the gateway with this IPv4 address.
pub(crate) fn place_of(peers: &[Peer], ip: u32) -> Option<u8>
    requires { length peers.now ≤ 255 }
    ensures place { result ≡ place_of peers.now ip }
    ensures within { IfSome result (λ place. place < length peers.now) }
{
    match position_of(peers, ip) {
        Some(place) => Some(place as u8),
        None => None,
    }
}

fn position_of(peers: &[Peer], ip: u32) -> Option<usize>
    ensures place { result ≡ place_of peers.now ip }
    ensures within { IfSome result (λ place. place < length peers.now) }
{
    peers.iter().position(|peer| peer.address.ip == ip)
}

/// Notes the number that a sending draws, if it draws one.
pub(crate) fn draw(peers: &mut [Peer], sending: &Sending)
    requires { AreNumbers peers.old }
    ensures drawn { peers.new ≡ drawn sending.now peers.old }
    ensures numbers { AreNumbers peers.new }
{
    match *sending {
        Sending::Probe { gateway, number } => draw_path(peers, gateway, number),
        Sending::Data {
            gateway,
            number,
            is_new: true,
            ..
        }
        | Sending::Command {
            gateway,
            number,
            is_new: true,
            ..
        } => draw_number(peers, gateway, number),
        Sending::Data { .. } | Sending::Test { .. } | Sending::Command { .. } => {}
    }
}

/// Notes that a path number was drawn.
fn draw_path(peers: &mut [Peer], gateway: u8, number: u16)
    requires { AreNumbers peers.old }
    ensures drawn { peers.new ≡ path_drawn gateway number peers.old }
    ensures numbers { AreNumbers peers.new }
{
    let place = usize::from(gateway);
    if place < peers.len() {
        peers[place].path = if number == u16::MAX { 0 } else { number + 1 };
    }
}

/// Notes that a request number was drawn.
fn draw_number(peers: &mut [Peer], gateway: u8, number: u64)
    requires { AreNumbers peers.old }
    ensures drawn { peers.new ≡ number_drawn gateway number peers.old }
    ensures numbers { AreNumbers peers.new }
{
    let place = usize::from(gateway);
    if place < peers.len() {
        peers[place].next = number.saturating_add(1).min(END_OF_NUMBERS);
    }
}
