use cgf_edge::{ConnectionSink, ConnectionSource, accept};
use gw_base::{Addr, Failed, Sink, Source};
use std::io::{Read, Write};
use std::net::{Ipv4Addr, Net, Shutdown, SocketAddr, SocketAddrV4, TcpListener, TcpStream};
use std::process::Abort;
use std::sync::Wait;
use std::thread::{self, Threads};
use std::time::{Clock, Duration};

/// This machine.
const HERE: u32 = 0x7f00_0001;

/// How often a peer tries to connect, a hundredth of a second after the other.
const TRIES: u32 = 1_000;

fn address(port: u16) -> SocketAddr {
    SocketAddr::V4(SocketAddrV4::new(Ipv4Addr::from_bits(HERE), port))
}

/// A connection to a port, once somebody accepts there.
fn connected<R: Net<Listener = TcpListener, Stream = TcpStream> + Clock + Wait + Abort>(
    rt: &R,
    port: u16,
) -> TcpStream {
    for _ in 0..TRIES {
        if let Ok(stream) = TcpStream::connect(rt, address(port)) {
            return stream;
        }
        thread::sleep(rt, Duration::from_millis(10));
    }
    panic!(rt; "nobody accepts");
}

/// Sends an octet, and waits a while.
fn sends<R: Clock + Wait + Abort>(rt: &R, stream: &mut TcpStream, octet: &[u8], millis: u64) {
    assert!(rt; stream.write_all(octet).is_ok());
    thread::sleep(rt, Duration::from_millis(millis));
}

/// How many octets a peer sends at last, and the first of them.
fn heard(rt: &impl Abort, stream: &mut TcpStream) -> (usize, u8) {
    let mut into = [0; 10];
    match stream.read(&mut into) {
        Ok(count) => (count, into[0]),
        Err(_) => panic!(rt; "nothing is read"),
    }
}

/// A peer that sends three octets, one by one, closes its side, and reads to the end: how many octets it got, and the
/// first of them.
fn ask<R: Net<Listener = TcpListener, Stream = TcpStream> + Clock + Wait + Abort>(
    rt: &R,
    port: u16,
) -> (usize, u8) {
    let mut stream = connected(rt, port);
    sends(rt, &mut stream, b"a", 10);
    sends(rt, &mut stream, b"b", 10);
    sends(rt, &mut stream, b"c", 10);
    assert!(rt; stream.shutdown(Shutdown::Write).is_ok());
    heard(rt, &mut stream)
}

/// Takes what a peer sends up to its end, in pieces of four octets at most: how many octets came, and the last of them.
fn take_all(source: &mut ConnectionSource) -> Option<(usize, u8)> {
    let mut came = 0usize;
    let mut last = 0;
    let mut into = [0; 4];
    for _ in 0..TRIES {
        let Ok(count) = source.take(&mut into) else {
            return None;
        };
        if count == 0 {
            return Some((came, last));
        }
        came = came.saturating_add(count);
        if let Some(octet) = into.get(count.saturating_sub(1)) {
            last = *octet;
        }
    }
    None
}

/// Takes what a peer sends up to its end, and puts two octets then: how many octets came, and the last of them, and
/// whether all was put.
fn answer<R: Net<Listener = TcpListener, Stream = TcpStream>>(
    rt: &R,
    port: u16,
) -> (Option<(usize, u8)>, bool) {
    let (mut source, mut sink) = accept(rt, Addr { ip: HERE, port });
    let taken = take_all(&mut source);
    (taken, sink.put(b"xy") == Ok(2))
}

fn asked_and_answered<
    R: Net<Listener = TcpListener, Stream = TcpStream> + Clock + Wait + Threads + Abort + Sync,
>(rt: &R, port: u16) -> ((usize, u8), (Option<(usize, u8)>, bool)) {
    thread::join(rt, || ask(rt, port), || answer(rt, port))
}

#[test]
fn a_peer_is_taken_octet_by_octet_up_to_its_end_and_gets_what_is_put(rt: HostRuntime) {
    let (asked, answered) = asked_and_answered(&rt, 47_011);
    assert_eq!(rt; answered, (Some((3, b'c')), true));
    assert_eq!(rt; asked, (2, b'x'));
}

/// A peer that sends an octet, stays a while, never reads, and is gone.
fn stay<R: Net<Listener = TcpListener, Stream = TcpStream> + Clock + Wait + Abort>(
    rt: &R,
    port: u16,
) {
    let mut stream = connected(rt, port);
    sends(rt, &mut stream, b"a", 300);
}

/// Puts octets until that fails: whether the sink failed and stays so. What the system keeps for a peer that never
/// reads is far less than all that may be put.
fn fails_at_last(sink: &mut ConnectionSink) -> bool {
    let octets = [b'x'; 65_536];
    for _ in 0..TRIES {
        if sink.put(&octets) == Err(Failed) {
            return sink.put(b"xy") == Err(Failed);
        }
    }
    false
}

/// Takes what such a peer sends, and puts octets in vain: how many octets came, and whether the sink failed and stays
/// so.
fn put_in_vain<R: Net<Listener = TcpListener, Stream = TcpStream>>(
    rt: &R,
    port: u16,
) -> (Result<usize, Failed>, bool) {
    let (mut source, mut sink) = accept(rt, Addr { ip: HERE, port });
    let came = source.take(&mut [0; 4]);
    (came, fails_at_last(&mut sink))
}

fn left_unread<
    R: Net<Listener = TcpListener, Stream = TcpStream> + Clock + Wait + Threads + Abort + Sync,
>(rt: &R, port: u16) -> ((), (Result<usize, Failed>, bool)) {
    thread::join(rt, || stay(rt, port), || put_in_vain(rt, port))
}

#[test]
fn a_peer_that_never_reads_holds_the_sink_until_it_is_gone_and_that_is_a_fault_that_stays(
    rt: HostRuntime,
) {
    let (_, (came, failed)) = left_unread(&rt, 47_012);
    assert_eq!(rt; came, Ok(1));
    assert!(rt; failed);
}

/// A call of each end fails.
fn fail(rt: &impl Abort, source: &mut ConnectionSource, sink: &mut ConnectionSink) {
    assert!(rt; source.take(&mut [0; 4]).is_err());
    assert!(rt; sink.put(b"xy").is_err());
}

/// Somebody has the address of a port.
fn bound<R: Net<Listener = TcpListener, Stream = TcpStream> + Abort>(
    rt: &R,
    port: u16,
) -> TcpListener {
    match TcpListener::bind(rt, address(port)) {
        Ok(listener) => listener,
        Err(_) => panic!(rt; "not bound"),
    }
}

#[test]
fn an_address_that_cannot_be_had_is_a_fault_of_both_ends(rt: HostRuntime) {
    let port = 47_013;
    let _taken = bound(&rt, port);
    let (mut source, mut sink) = accept(&rt, Addr { ip: HERE, port });
    fail(&rt, &mut source, &mut sink);
    fail(&rt, &mut source, &mut sink);
}
