//! The largest datagrams, and datagrams that a gateway doesn't take as they are, by values of the formats.

use crate::job::job;
use cgf_top::Status;
use std::alloc::Global;
use std::process::Abort;
use std::sync::Wait;
use std::thread::Threads;
use std::time::Clock;

/// Datagrams, and the line that is printed for each.
pub(crate) const ANSWERED: [(&str, &str); 16] = [
    // Another version is answered, but for the answer to another version.
    ("0FF000000005", "4E0300000005"),
    ("0F0300000005", "- Stray"),
    // Header and type decide in this order.
    ("4EF0000000", "- Short"),
    ("5E0100000000", "- NotPrime"),
    ("4E0100050000", "- Cut"),
    ("4E6300000000", "- UnknownType"),
    ("4E0500000000", "- Stray"),
    // No message answers an Echo Response without its restart counter.
    ("4E0200000001", "- Malformed"),
    // Octets behind a message's end are no part of it. An Echo Request is told how often the gateway began to run.
    ("4E0100000005", "4E02000200050E01"),
    ("4E0100000005FFFF", "4E02000200050E01"),
    // The second of two records ends before its end of contents.
    (
        "4EF0001700007E01FC0012020106000005A00380010500053080040105",
        "4EF10007000001B1FD00020000",
    ),
    // The command is missing; it is none of the four; an element's type is unknown, and so its length.
    ("4EF000030000FC0000", "4EF10007000001CAFD00020000"),
    ("4EF0000500007E05FC0000", "4EF10007000001C9FD00020000"),
    ("4EF0000200000200", "4EF10007000001C1FD00020000"),
    // A packet may be empty with the number of its records, and not with half a format version.
    ("4EF0000600017E02FC000100", "4EF1000700010180FD00020001"),
    ("4EF0000700027E02FC00020001", "4EF10007000201C9FD00020002"),
];

/// Puts octets behind a datagram's.
fn put(rt: &impl Abort, datagram: &mut Vec<u8>, octets: &[u8]) {
    assert!(rt; datagram.extend_from_slice(octets).is_ok());
}

/// The largest datagram that sends a record.
pub(crate) fn largest(rt: &impl Abort, alloc: Global) -> Vec<u8> {
    let Ok(mut datagram) = vec![in alloc; 0; 65_507] else {
        panic!(rt; "no memory for a datagram")
    };
    let (head, _) = datagram.split_at_mut(21);
    head.copy_from_slice(&[
        0x4E, 0xF0, 0xFF, 0xDD, 0, 0, 0x7E, 1, 0xFC, 0xFF, 0xD8, 1, 1, 6, 0, 0xFF, 0xD2, 4, 0x82,
        0xFF, 0xCE,
    ]);
    datagram
}

/// A datagram that sends 255 records.
pub(crate) fn with_255_records(rt: &impl Abort, alloc: Global) -> Vec<u8> {
    let mut datagram = Vec::new(alloc);
    let head = [0x4E, 0xF0, 7, 2, 0, 0, 0x7E, 1, 0xFC, 6, 0xFD, 255, 1, 6, 0];
    put(rt, &mut datagram, &head);
    for _ in 0..255 {
        put(rt, &mut datagram, &[0, 5, 0xA0, 3, 0x80, 1, 5]);
    }
    datagram
}

/// Octets in hexadecimal.
pub(crate) fn digits(rt: &impl Abort, alloc: Global, octets: &[u8]) -> String {
    match hex::encode_upper(alloc, octets) {
        Ok(digits) => digits,
        Err(_) => panic!(rt; "no memory for digits"),
    }
}

/// A script that sends a datagram.
fn script(rt: &impl Abort, alloc: Global, datagram: &str) -> String {
    let script = format!(in alloc; "reserve 200000\nin 10.0.1.1:40001 {datagram}\nend\n");
    match script {
        Ok(script) => script,
        Err(_) => panic!(rt; "no memory for a script"),
    }
}

/// What is printed for the largest datagram, with this record.
fn report(rt: &impl Abort, alloc: Global, record: &str) -> String {
    let report = format!(in alloc;
        "4EF1000700000180FD00020000\n\
        file 1 00-0000000001.cdr 0001000A0000003460601080080010800800\
        00000001000000010400000000000000000000FFFF0A000001000000000000000000FFD26020{record}\n\
        gateway 1 entries 3 records 1 held 0 stranded 0\n"
    );
    match report {
        Ok(report) => report,
        Err(_) => panic!(rt; "no memory for a report"),
    }
}

/// What is printed for a script.
fn is_reported<R: Abort + Threads + Wait + Clock + Sync + Alloc<A = Global>>(
    rt: &R,
    script: &str,
    report: &str,
) {
    let done = job(rt, &["feed", "-"], script.as_bytes(), 4096, &[], &[]);
    assert_eq!(rt; done.status, Status::Done);
    assert_eq!(rt; done.printed.as_slice(), report.as_bytes());
}

/// The report on it is too long to stand among the stories of `story_runs`.
#[test]
fn the_largest_datagram_is_filed(rt: HostRuntime) {
    let alloc = rt.alloc();
    let datagram = largest(&rt, alloc);
    assert_eq!(&rt; datagram.len(), 65_507);
    let (_, record) = datagram.split_at(17);
    let script = script(&rt, alloc, &digits(&rt, alloc, &datagram));
    let report = report(&rt, alloc, &digits(&rt, alloc, record));
    is_reported(&rt, &script, &report);
}
