//! Links over sockets of this machine. Each test has addresses of its own.
use gw_base::Addr;
use net_link::{Heard, Link, LinkStop, Links, UdpLink, UdpLinks};
use std::net::Net;
use std::process::Abort;

const MOST_OCTETS: usize = 65_507;

// A port for data records of GTP', at some address of this machine.
fn local(host: u8) -> Addr {
    Addr {
        ip: 0x7F4C_0000 | u32::from(host),
        port: 3386,
    }
}

// A link at such an address.
fn link_at<R: Net + Abort>(rt: &R, links: &mut UdpLinks<'_, R>, host: u8) -> UdpLink {
    match links.make(local(host)) {
        Ok(link) => link,
        Err(_) => panic!(rt; "not made"),
    }
}

fn split(rt: &impl Abort, link: &mut UdpLink) -> UdpLink {
    match link.split() {
        Ok(link) => link,
        Err(_) => panic!(rt; "not split"),
    }
}

// What comes of waiting for a datagram.
fn hear(rt: &impl Abort, link: &mut UdpLink, into: &mut [u8]) -> Heard {
    assert!(rt; into.len() >= MOST_OCTETS);
    match link.receive(into) {
        Ok(heard) => heard,
        Err(_) => panic!(rt; "the link failed"),
    }
}

// The next datagram, of which a link hears within a second.
fn hear_soon(rt: &impl Abort, link: &mut UdpLink, into: &mut [u8]) -> (Addr, usize) {
    for _ in 0..50 {
        if let Heard::Datagram { from, length } = hear(rt, link, into) {
            return (from, length);
        }
    }
    panic!(rt; "nothing is heard");
}

// A link takes a datagram.
fn sends(rt: &impl Abort, link: &mut UdpLink, to: Addr, octets: &[u8]) {
    assert!(rt; link.send(to, octets).is_ok());
}

// A datagram that one link sends is what the other hears, from this address.
fn goes(
    rt: &impl Abort,
    one: &mut UdpLink,
    other: &mut UdpLink,
    (from, to): (u8, u8),
    octets: &[u8],
) {
    let mut into = [0; MOST_OCTETS];
    sends(rt, one, local(to), octets);
    let heard = hear_soon(rt, other, &mut into);
    assert_eq!(rt; heard, (local(from), octets.len()));
    assert!(rt; into.starts_with(octets));
}

// Datagrams of 0, 3 and 65,507 octets, and one by a link that was split.
#[test]
fn a_datagram_of_any_length_is_heard_as_it_was_sent(rt: HostRuntime) {
    let mut links = UdpLinks::new(rt.alloc(), &rt);
    let mut one = link_at(&rt, &mut links, 1);
    let mut other = link_at(&rt, &mut links, 2);
    goes(&rt, &mut one, &mut other, (1, 2), &[]);
    goes(&rt, &mut one, &mut other, (1, 2), &[0x4E, 1, 0]);
    goes(&rt, &mut other, &mut one, (2, 1), &[0x4E; MOST_OCTETS]);
    let mut again = split(&rt, &mut one);
    goes(&rt, &mut again, &mut other, (1, 2), &[7]);
}

// Sends to a port 0, to nobody, to the broadcast address and of an octet too many.
fn sends_in_vain(rt: &impl Abort, link: &mut UdpLink) {
    let port_0 = Addr {
        ip: local(4).ip,
        port: 0,
    };
    let everybody = Addr {
        ip: 0xFFFF_FFFF,
        port: 3386,
    };
    sends(rt, link, port_0, &[1]);
    sends(rt, link, local(99), &[1]);
    sends(rt, link, everybody, &[1]);
    sends(rt, link, local(4), &[0; MOST_OCTETS + 1]);
}

// A datagram that is sent behind those is heard.
#[test]
fn a_datagram_that_cannot_be_sent_is_lost_and_no_fault(rt: HostRuntime) {
    let mut links = UdpLinks::new(rt.alloc(), &rt);
    let mut one = link_at(&rt, &mut links, 3);
    let mut other = link_at(&rt, &mut links, 4);
    sends_in_vain(&rt, &mut one);
    goes(&rt, &mut one, &mut other, (3, 4), &[2]);
}

// Nothing is heard where nothing is sent.
fn is_quiet(rt: &impl Abort, link: &mut UdpLink) {
    assert!(rt; hear(rt, link, &mut [0; MOST_OCTETS]) == Heard::Quiet);
}

// Each call of a link fails.
fn fails(rt: &impl Abort, link: &mut UdpLink) {
    assert!(rt; link.send(local(5), &[1]) == Err(LinkStop::Failed));
    assert!(rt; link.receive(&mut [0; MOST_OCTETS]).is_err());
    assert!(rt; link.split().err() == Some(LinkStop::Failed));
}

#[test]
fn a_link_whose_address_is_taken_fails_at_each_call(rt: HostRuntime) {
    let mut links = UdpLinks::new(rt.alloc(), &rt);
    let mut one = link_at(&rt, &mut links, 5);
    let mut second = link_at(&rt, &mut links, 5);
    is_quiet(&rt, &mut one);
    fails(&rt, &mut second);
}
