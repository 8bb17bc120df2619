// A link over UDP and IPv4.
ghost use Rattle.std.specs.Prelude.{◌≡◌, ◌≤◌, IfOk, OnOk, length};
ghost use Rattle.std.specs.Net.Addr.{IsIpv4OfBits, ipv4_bits};
ghost use Rattle.std.specs.Net.Socket.{v4_ip, v4_port};
ghost use Rattle.net_link.specs.Datagrams.{IsNewAt};
ghost use Rattle.net_link.specs.Steps.{HasFailed, Receives, Sends, Stops, most_octets};
ghost use Rattle.net_link.specs.Udp.{HearsShort};

use crate::link::{Heard, Link, LinkStop};
use gw_base::{Addr, Failed};
use std::io::{self, ErrorKind};
use std::marker::Model;
use std::net::{Ipv4Addr, Net, SocketAddr, SocketAddrV4, UdpSocket};
use std::thread;
use std::time::Duration;

/// The most octets of a datagram.
const MOST_OCTETS: usize = 65_507;

/// How long one call waits for a datagram, in milliseconds.
const WAIT: u64 = 20;

/// How often a link that heard a datagram looks for the next one before it waits. Who sends that one needn't wake a
/// thread then.
const LOOKS: u32 = 100;

/// How often a datagram is sent that the system has no room for at once.
const SENDS: u32 = 1000;

// The errors of Linux that say that the descriptor is no open socket for datagrams, or that a buffer isn't memory.
const EBADF: i32 = 9;

const EFAULT: i32 = 14;

const ENOTSOCK: i32 = 88;

const EOPNOTSUPP: i32 = 95;

const ENOTCONN: i32 = 107;

/// A link over UDP and IPv4. It tells nothing of the datagrams. A call waits for one for 20 milliseconds; one behind a
/// call that heard a datagram looks for the next one some times before that.
///
/// A call fails where the address couldn't be bound, or where the system says that the socket is none. Whatever else
/// keeps a datagram from being sent is a loss on its way, and whatever else keeps one from being received is a
/// `Quiet`: so no datagram that somebody sends can end a gateway.
#[derive(Drop)]
pub struct UdpLink {
    socket: Option<UdpSocket>,
    // Whether calls of the socket don't wait.
    is_awake: bool,
    pub(crate) address: Addr,
    pub(crate) turns: u64,
    pub(crate) faults: u64,
}

impl Model for UdpLink {
    ghost use Rattle.std.specs.Prelude.{None};
    ghost use Rattle.net_link.specs.Datagrams.{LinkState};

    ghost Value = { LinkState };

    ghost view = { λ l. record {
      address = l.address;
      turns = l.turns;
      faults = l.faults;
      received = None;
      sent = None;
    } };
}

fn socket_address(at: Addr) -> SocketAddrV4
    ensures ip { IsIpv4OfBits (v4_ip result) at.ip }
    ensures port { v4_port result ≡ at.port }
{
    SocketAddrV4::new(Ipv4Addr::from_bits(at.ip), at.port)
}

fn address_of(from: SocketAddrV4) -> Addr
    ensures ip { result.ip ≡ ipv4_bits (v4_ip from) }
    ensures port { result.port ≡ v4_port from }
{
    Addr {
        ip: from.ip().to_bits(),
        port: from.port(),
    }
}

// Whether an error is one of the socket itself, and not of a datagram, of a wait or of the way.
fn is_fault(error: &io::Error) -> bool {
    match error.raw_os_error() {
        Some(number) => [EBADF, EFAULT, ENOTSOCK, EOPNOTSUPP, ENOTCONN].contains(&number),
        None => true,
    }
}

// A socket at this address, whose receives wait for a while.
fn bind<R: Net>(net: &R, at: Addr) -> io::Result<UdpSocket> {
    let socket = net.bind_udp(SocketAddr::V4(socket_address(at)))?;
    socket.set_read_timeout(Some(Duration::from_millis(WAIT)))?;
    Ok(socket)
}

// Sends a datagram, again where the system has no room for it now.
fn send_by(socket: &UdpSocket, to: Addr, octets: &[u8]) -> Result<(), Failed> {
    for _ in 0..SENDS {
        let Err(error) = socket.send_to(octets, SocketAddr::V4(socket_address(to))) else {
            return Ok(());
        };
        if is_fault(&error) {
            return Err(Failed);
        }
        if error.kind() != ErrorKind::WouldBlock {
            return Ok(());
        }
        thread::yield_now();
    }
    Ok(())
}

fn receive_by(socket: &UdpSocket, into: &mut [u8]) -> Result<Heard, Failed>
    requires { most_octets ≤ length into.old }
    ensures short { HearsShort result }
    ensures length { length into.new ≡ length into.old }
{
    let (front, _) = into.split_at_mut(MOST_OCTETS);
    match socket.recv_from(front) {
        Ok((length, SocketAddr::V4(from))) => Ok(Heard::Datagram {
            from: address_of(from),
            length,
        }),
        // A socket of IPv4 hears none of IPv6.
        Ok((_, SocketAddr::V6(_))) => Ok(Heard::Quiet),
        Err(error) => {
            if is_fault(&error) {
                Err(Failed)
            } else {
                Ok(Heard::Quiet)
            }
        }
    }
}

// Looks for a datagram some times, at a socket that doesn't wait.
fn look_by(socket: &UdpSocket, into: &mut [u8]) -> Result<Heard, Failed>
    requires { most_octets ≤ length into.old }
    ensures short { HearsShort result }
    ensures length { length into.new ≡ length into.old }
{
    for _ in 0..LOOKS {
        match receive_by(socket, into) {
            Ok(Heard::Quiet) => thread::yield_now(),
            heard => return heard,
        }
    }
    Ok(Heard::Quiet)
}

// Waits for a datagram for a while. Where it hears one, the socket doesn't wait any more.
fn wait_by(socket: &UdpSocket, is_awake: &mut bool, into: &mut [u8]) -> Result<Heard, Failed>
    requires { most_octets ≤ length into.old }
    ensures { HearsShort result }
{
    let heard = receive_by(socket, into);
    if let Ok(Heard::Datagram { .. }) = &heard {
        *is_awake = socket.set_nonblocking(true).is_ok();
    }
    heard
}

// Receives a datagram: an awake socket is looked at first, and where there is none it waits.
fn hear_by(socket: &UdpSocket, is_awake: &mut bool, into: &mut [u8]) -> Result<Heard, Failed>
    requires { most_octets ≤ length into.old }
    ensures { HearsShort result }
{
    if *is_awake {
        match look_by(socket, into) {
            Ok(Heard::Quiet) => {}
            heard => return heard,
        }
        *is_awake = socket.set_nonblocking(false).is_err();
    }
    wait_by(socket, is_awake, into)
}

impl UdpLink {
    /// The link of this address. Where it can't be bound, each call of the link fails.
    pub(crate) fn at<R: Net>(net: &R, at: Addr) -> UdpLink
        ensures { IsNewAt at result }
    {
        UdpLink {
            socket: bind(net, at).ok(),
            is_awake: false,
            address: at,
            turns: 0,
            faults: 0,
        }
    }

    // Counts a call that fails.
    fn failed(&mut self)
        ensures { HasFailed self.old self.new }
    {
        self.faults = self.faults.saturating_add(1);
    }

    // Another handle of the socket.
    fn socket_again(&self) -> Option<UdpSocket> {
        self.socket.as_ref()?.try_clone().ok()
    }
}

impl Link for UdpLink {
    ghost state = { λ l. l };

    fn send(&mut self, to: Addr, octets: &[u8]) -> Result<(), LinkStop>
        ensures { Sends self.old to octets.now result self.new }
    {
        let sent = match &self.socket {
            Some(socket) => send_by(socket, to, octets),
            None => Err(Failed),
        };
        if sent.is_err() {
            self.failed();
            return Err(LinkStop::Failed);
        }
        Ok(())
    }

    fn receive(&mut self, into: &mut [u8]) -> Result<Heard, Failed>
        requires { most_octets ≤ length into.old }
        ensures { Receives self.old into.new result self.new }
    {
        let heard = match &self.socket {
            Some(socket) => hear_by(socket, &mut self.is_awake, into),
            None => Err(Failed),
        };
        if heard.is_ok() {
            self.turns = self.turns.saturating_add(1);
        } else {
            self.failed();
        }
        heard
    }

    fn split(&mut self) -> Result<UdpLink, LinkStop>
        ensures new { IfOk result (λ link. IsNewAt (self.old).address link) }
        ensures ok { OnOk result (self.new ≡ self.old) }
        ensures stops { Stops UdpLink self.old result self.new }
    {
        let Some(socket) = self.socket_again() else {
            self.failed();
            return Err(LinkStop::Failed);
        };
        Ok(UdpLink {
            socket: Some(socket),
            is_awake: self.is_awake,
            address: self.address,
            turns: 0,
            faults: 0,
        })
    }
}
