// What a gateway without an entry answers to a datagram.
use crate::book::{FROM, REQUEST, moment};
use crate::job_datagrams::{ANSWERED, digits, largest, with_255_records};
use gateway_answer::{OwnedAnswer, answer, filed, prepare};
use gw_base::{Caller, HistoryAct, HistoryEntry};
use std::alloc::Global;
use std::process::Abort;

/// The response that accepts a packet under the number 0.
const RESPONSE: [u8; 13] = [
    0x4E, 0xF1, 0x00, 0x07, 0x00, 0x00, 0x01, 0x80, 0xFD, 0x00, 0x02, 0x00, 0x00,
];

// The answer to a datagram. It is what a gateway that began to run answers, but for the number that an Echo Request is
// told.
fn plainly(rt: &impl Abort, alloc: Global, datagram: &[u8]) -> OwnedAnswer {
    match answer(alloc, &[], FROM, &prepare(datagram), 16_777_216) {
        Ok(found) => found,
        Err(_) => panic!(rt; "no memory for an answer"),
    }
}

// What is recorded of a datagram that is answered by these octets.
fn recorded(rt: &impl Abort, alloc: Global, datagram: &[u8], response: &[u8]) -> HistoryAct {
    let OwnedAnswer::Reply { reply, act } = plainly(rt, alloc, datagram) else {
        panic!(rt; "it was dropped")
    };
    assert_eq!(rt; reply.octets(), response);
    let Some(act) = act else {
        panic!(rt; "nothing is recorded")
    };
    act
}

// An entry at the first moment.
fn entry(rt: &impl Abort, act: HistoryAct) -> HistoryEntry {
    HistoryEntry {
        moment: moment(rt, 0),
        caller: Caller::NONE,
        act,
    }
}

// One record is filed, under the first number.
fn is_filed(rt: &impl Abort, alloc: Global, history: &[HistoryEntry]) {
    let Ok(records) = filed(alloc, history) else {
        panic!(rt; "no memory for records")
    };
    let [record] = records.as_slice() else {
        panic!(rt; "not one record")
    };
    assert_eq!(rt; record.octets.octets(), [0xA0, 3, 0x80, 1, 5].as_slice());
    assert_eq!(rt; record.key.number, 65_536);
}

#[test]
fn a_first_request_is_accepted_and_filed(rt: HostRuntime) {
    let act = recorded(&rt, rt.alloc(), &REQUEST, &RESPONSE);
    is_filed(&rt, rt.alloc(), &[entry(&rt, act)]);
}

// The octets that go back, or why none do.
fn shown(rt: &impl Abort, alloc: Global, found: &OwnedAnswer) -> String {
    match found {
        OwnedAnswer::Drop(why) => dropped(rt, alloc, why.name()),
        OwnedAnswer::Reply { reply, act: _ } => digits(rt, alloc, reply.octets()),
    }
}

// The line of a datagram that isn't answered for a cause with this name.
fn dropped(rt: &impl Abort, alloc: Global, name: &str) -> String {
    match format!(in alloc; "- {name}") {
        Ok(line) => line,
        Err(_) => panic!(rt; "no memory for a line"),
    }
}

// The line that a datagram is answered by.
fn told(rt: &impl Abort, alloc: Global, datagram: &[u8]) -> String {
    shown(rt, alloc, &plainly(rt, alloc, datagram))
}

// Octets of these digits.
fn octets_of(rt: &impl Abort, alloc: Global, digits: &str) -> Vec<u8> {
    match hex::decode(alloc, digits) {
        Ok(octets) => octets,
        Err(_) => panic!(rt; "no hexadecimal"),
    }
}

// A datagram is answered as by a feed, whose gateway began to run once, and this one never did.
fn is_told_as_by_a_feed(rt: &impl Abort, alloc: Global, datagram: &str, answer: &str) {
    let wanted = if answer == "4E02000200050E01" {
        "4E02000200050E00"
    } else {
        answer
    };
    let found = told(rt, alloc, &octets_of(rt, alloc, datagram));
    assert_eq!(rt; found.as_str(), wanted, "{datagram}");
}

#[test]
fn what_a_feed_prints_is_the_plain_answer(rt: HostRuntime) {
    for (datagram, answer) in ANSWERED {
        is_told_as_by_a_feed(&rt, rt.alloc(), datagram, answer);
    }
}

// A datagram is answered by the response that accepts a packet under the number 0.
fn is_accepted(rt: &impl Abort, alloc: Global, datagram: &[u8]) {
    let found = told(rt, alloc, datagram);
    assert_eq!(rt; found.as_str(), "4EF1000700000180FD00020000");
}

#[test]
fn the_largest_packets_are_accepted(rt: HostRuntime) {
    let alloc = rt.alloc();
    is_accepted(&rt, alloc, &largest(&rt, alloc));
    is_accepted(&rt, alloc, &with_255_records(&rt, alloc));
}
