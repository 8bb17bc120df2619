// The two ends of a connection over TCP.
ghost use Rattle.std.specs.Prelude.{◌≡◌, ◌≤◌, None};
ghost use Rattle.gw_base.specs.Faults.{Rose};

use crate::again::{read_again, write_again};
use gw_base::{Addr, Failed, Sink, Source};
use std::io;
use std::net::{Ipv4Addr, Net, SocketAddr, SocketAddrV4, TcpListener, TcpStream};

/// One connection: the first that is accepted at an address.
///
/// An address that can't be bound, and a peer that can't be accepted, give ends of which each call fails.
pub fn accept<R: Net<Listener = TcpListener, Stream = TcpStream>>(
    net: &R,
    at: Addr,
) -> (ConnectionSource, ConnectionSink)
    ensures { (result.0.faults ≡ 0) × (result.1.faults ≡ 0) }
{
    match accept_one(net, at) {
        Ok((reader, writer)) => (
            ConnectionSource::of(Some(reader)),
            ConnectionSink::of(Some(writer)),
        ),
        Err(_) => (ConnectionSource::of(None), ConnectionSink::of(None)),
    }
}

/// The first peer, as two handles of its one socket. The listening socket is closed then.
fn accept_one<R: Net<Listener = TcpListener, Stream = TcpStream>>(
    net: &R,
    at: Addr,
) -> io::Result<(TcpStream, TcpStream)> {
    let address = SocketAddr::V4(SocketAddrV4::new(Ipv4Addr::from_bits(at.ip), at.port));
    let listener = net.bind(address)?;
    let (reader, _) = listener.accept()?;
    // A reply is sent at once, and not kept back until more come.
    reader.set_nodelay(true)?;
    let writer = reader.try_clone()?;
    Ok((reader, writer))
}

/// What a peer sends: it ends where the peer has closed its side. It tells nothing of what is left.
#[derive(Drop)]
pub struct ConnectionSource {
    stream: Option<TcpStream>,
    faults: u64,
}

impl ConnectionSource {
    fn of(stream: Option<TcpStream>) -> ConnectionSource
        ensures faults { result.faults ≡ 0 }
    {
        ConnectionSource { stream, faults: 0 }
    }
}

impl Source for ConnectionSource {
    ghost left = { λ s. None };

    ghost faults = { λ s. s.faults };

    fn take(&mut self, into: &mut [u8]) -> Result<usize, Failed> {
        if let Some(stream) = &mut self.stream {
            if let Ok(count) = read_again(stream, into) {
                return Ok(count);
            }
        }
        self.faults = self.faults.saturating_add(1);
        Err(Failed)
    }
}

/// What is sent to a peer. It tells nothing of what was written: what is put into the system may be lost on its way.
#[derive(Drop)]
pub struct ConnectionSink {
    stream: Option<TcpStream>,
    faults: u64,
}

impl ConnectionSink {
    fn of(stream: Option<TcpStream>) -> ConnectionSink
        ensures faults { result.faults ≡ 0 }
    {
        ConnectionSink { stream, faults: 0 }
    }
}

impl Sink for ConnectionSink {
    ghost written = { λ s. None };

    ghost faults = { λ s. s.faults };

    fn put(&mut self, from: &[u8]) -> Result<usize, Failed> {
        if let Some(stream) = &mut self.stream {
            match write_again(stream, from) {
                Ok(0) if !from.is_empty() => {}
                Ok(count) => return Ok(count),
                Err(_) => {}
            }
        }
        self.faults = self.faults.saturating_add(1);
        Err(Failed)
    }
}
