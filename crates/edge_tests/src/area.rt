ghost use Rattle.std.specs.Prelude.{◌≡◌};

use crate::disk::{holds, is_there, lay, length, opened};
use area_disk::Area;
use cgf_edge::{DiskFile, FileArea, Trouble};
use std::alloc::AllocGlobal;
use std::fs::{File, Files, OpenOptions};
use std::os::fd::AsRawFd;
use std::process::Abort;

fn is_locked(trouble: &Option<Trouble>) -> bool {
    matches!(trouble, Some(Trouble::Locked))
}

fn is_length(trouble: &Option<Trouble>, found: u64) -> bool {
    match trouble {
        Some(Trouble::Length(length)) => *length == found,
        _ => false,
    }
}

/// The area of so many octets in a file.
fn area<'a, R: Files<File = File> + AllocGlobal>(
    rt: &'a R,
    path: &'a str,
    length: u64,
) -> FileArea<'a, R>
    ensures { result.length ≡ length }
{
    FileArea::new(rt.alloc(), rt, path, length)
}

/// Writes octets.
fn writes<R: Files<File = File> + Abort>(
    rt: &R,
    area: &mut FileArea<'_, R>,
    at: u64,
    octets: &[u8],
) {
    assert!(rt; at <= area.length());
    assert!(rt; octets.len() as u64 <= area.length() - at);
    assert!(rt; area.write_at(at, octets).is_ok());
}

/// What a read gives from this place on.
fn reads<R: Files<File = File> + Abort, const N: usize>(
    rt: &R,
    area: &mut FileArea<'_, R>,
    at: u64,
    wanted: &[u8; N],
) {
    let mut into = [9; N];
    assert!(rt; at <= area.length());
    assert!(rt; N as u64 <= area.length() - at);
    assert!(rt; area.read_at(at, &mut into).is_ok());
    assert_eq!(rt; into, *wanted);
}

/// What the area of so many octets in a file gives that is opened now.
fn reads_anew<R: Files<File = File> + AllocGlobal + Abort, const N: usize>(
    rt: &R,
    path: &str,
    length: u64,
    at: u64,
    wanted: &[u8; N],
) {
    let mut area = area(rt, path, length);
    reads(rt, &mut area, at, wanted);
}

#[test]
fn what_is_written_is_read_after_opening_again(rt: HostRuntime) {
    let mut area = area(&rt, "again.area", 10_000);
    assert!(rt; !is_there(&rt, "again.area"));
    reads(&rt, &mut area, 9_996, &[0; 4]);
    writes(&rt, &mut area, 9_997, b"abc");
    reads(&rt, &mut area, 9_996, b"\0abc");
    assert!(rt; area.sync().is_ok());
    drop(area);
    assert_eq!(rt; length(&rt, "again.area"), 10_000);
    reads_anew(&rt, "again.area", 10_000, 9_996, b"\0abc");
}

/// Writes behind one another, inside those before, in front of them and over their beginning.
#[test]
fn what_was_written_last_is_read_as_the_file_has_it(rt: HostRuntime) {
    let mut area = area(&rt, "last.area", 10_000);
    writes(&rt, &mut area, 100, b"abcdef");
    writes(&rt, &mut area, 99, b"x");
    writes(&rt, &mut area, 103, b"YZ");
    writes(&rt, &mut area, 106, b"gh");
    reads(&rt, &mut area, 100, b"abcYZfgh");
    writes(&rt, &mut area, 98, b"123");
    reads(&rt, &mut area, 98, b"123bcYZf");
    drop(area);
    reads_anew(&rt, "last.area", 10_000, 98, b"123bcYZf");
}

/// A second handle fails at each call while the first has the lock, and changes nothing.
#[test]
fn a_file_that_is_locked_is_refused(rt: HostRuntime) {
    let mut holder = area(&rt, "held.area", 100);
    writes(&rt, &mut holder, 0, b"x");
    let mut second = area(&rt, "held.area", 100);
    assert!(rt; second.write_at(0, b"y").is_err());
    assert!(rt; second.sync().is_err());
    assert!(rt; is_locked(&second.trouble()));
    reads(&rt, &mut holder, 0, b"x");
    drop(holder);
    reads(&rt, &mut second, 0, b"x");
}

/// The area of 11 octets in a file with these fails, and the file stays.
fn is_refused<R: Files<File = File> + AllocGlobal + Abort>(rt: &R, octets: &str) {
    lay(rt, "other.area", octets);
    let mut area = area(rt, "other.area", 11);
    assert!(rt; area.read_at(0, &mut [0; 1]).is_err());
    assert!(rt; is_length(&area.trouble(), octets.len() as u64));
    holds(rt, "other.area", octets);
}

/// A longer file, and a shorter one that doesn't begin with an octet 0, are refused and stay as they were.
#[test]
fn a_file_of_another_length_is_refused_and_stays(rt: HostRuntime) {
    is_refused(&rt, "0123456789ab");
    is_refused(&rt, "0123456789");
}

/// The area in what stands at a path can't be synced.
fn fails<R: Files<File = File> + AllocGlobal + Abort>(rt: &R, path: &str) {
    assert!(rt; area(rt, path, 100).sync().is_err(), "{path}");
}

/// A folder, a device, and a file in a folder that is missing.
#[test]
fn what_is_no_regular_file_is_refused(rt: HostRuntime) {
    fails(&rt, ".");
    fails(&rt, "/dev/full");
    fails(&rt, "missing/a.area");
}

/// The area of 9,000 octets in a file with these is filled with octets 0.
fn is_filled<R: Files<File = File> + AllocGlobal + Abort>(rt: &R, left: &str) {
    lay(rt, "short.area", left);
    reads_anew(rt, "short.area", 9_000, 8_992, &[0; 8]);
    assert_eq!(rt; length(rt, "short.area"), 9_000);
}

/// A start that was stopped while it filled the file left it empty, or with a first octet 0.
#[test]
fn a_file_that_was_left_short_is_filled_to_its_end(rt: HostRuntime) {
    is_filled(&rt, "");
    is_filled(&rt, "\0");
    is_filled(&rt, "\0\0\0\0\0");
}

/// A device of zeros takes reads and writes and can't be synced.
#[test]
fn after_a_sync_that_failed_writes_and_syncs_fail_and_reads_go_on(rt: HostRuntime) {
    let zeros = opened(&rt, OpenOptions::new().read(true).write(true), "/dev/zero");
    let mut file = DiskFile::new(zeros);
    let mut into = [9; 3];
    assert!(rt; file.write(5, b"abc").is_ok());
    assert!(rt; !file.is_unsynced());
    assert!(rt; file.sync_data().is_err());
    assert!(rt; file.is_unsynced());
    assert!(rt; file.sync_data().is_err());
    assert!(rt; file.sync_all().is_err());
    assert!(rt; file.write(5, b"abc").is_err());
    assert!(rt; file.read(5, &mut into).is_ok());
    assert_eq!(rt; into, [0; 3]);
}

/// A handle that may only read, and a read behind the end.
#[test]
fn a_write_that_the_system_refuses_is_a_fault(rt: HostRuntime) {
    lay(&rt, "read-only", "0123");
    let file = DiskFile::new(opened(&rt, OpenOptions::new().read(true), "read-only"));
    let mut into = [0; 3];
    assert!(rt; file.read(1, &mut into).is_ok());
    assert_eq!(rt; into, [b'1', b'2', b'3']);
    assert!(rt; file.read(2, &mut into).is_err());
    assert!(rt; file.write(0, b"x").is_err());
}

/// Where the standard input is closed, the next file gets its number. The area's is moved away, so the file after it
/// gets the number again.
#[test]
fn the_number_of_a_standard_stream_is_left_free(rt: HostRuntime) {
    assert_eq!(rt; libc::close(0), 0);
    let mut area = area(&rt, "streams.area", 100);
    writes(&rt, &mut area, 0, b"x");
    let next = opened(&rt, OpenOptions::new().read(true), "streams.area");
    assert_eq!(rt; next.as_raw_fd(), 0);
    writes(&rt, &mut area, 1, b"y");
    reads(&rt, &mut area, 0, b"xy");
}
