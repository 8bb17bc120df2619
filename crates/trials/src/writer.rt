//! Files of items, octet for octet, and what a stop at each call of the shelf leaves.
ghost use Rattle.std.specs.Prelude.{◌≡◌, ◌<◌, ◌+◌, ◌^◌, length, All};
ghost use Rattle.file_rotate.specs.Items.{AreLimits};
ghost use Rattle.file_writer.specs.AllStreams.{IsFit};

use crate::book::{moment, stopping};
use area_disk::{Drill, Outcome3, Stop};
use cdr_file::Offset16;
use cdr_shelf::{FileName, MemoryShelf};
use file_rotate::Limits;
use file_writer::*;
use gw_base::{Item, Octets, Tag, cdr_kind};
use route_filter::Rules;
use std::alloc::Global;
use std::process::Abort;

/// The gateway's address, 10.0.0.1.
const ADDRESS: u32 = 0x0A00_0001;

/// The profile of its files.
const PROFILE: u8 = 1;

/// The format version of the records, of release 3.
const RELEASE_3: u16 = 0x0600;

/// A record of format 1.
fn part(rt: &impl Abort, alloc: Global, tag: Option<Tag>, octets: &[u8], seconds: u64) -> Item
    requires { length octets.now < 2 ^ 16 }
    ensures { IsFit result }
{
    let Ok(octets) = Octets::of(alloc, octets) else {
        panic!(rt; "no memory for a record")
    };
    Item::Part {
        kind: cdr_kind(1, RELEASE_3),
        tag,
        octets,
        moment: moment(rt, seconds),
    }
}

/// Puts an item behind others.
fn put(rt: &impl Abort, items: &mut Vec<Item>, item: Item)
    requires fit { All IsFit items.old.items }
    requires item { IsFit item }
    ensures fit { All IsFit items.new.items }
    ensures count { length items.new.items ≡ length items.old.items + 1 }
{
    let Ok(()) = items.push(item) else {
        panic!(rt; "no memory for items")
    };
}

/// A shelf in memory, with one stop.
fn shelf(rt: &impl Abort, alloc: Global, stop: Stop) -> MemoryShelf {
    match MemoryShelf::new(alloc, stopping(alloc, stop)) {
        Ok(shelf) => shelf,
        Err(_) => panic!(rt; "no memory for a shelf"),
    }
}

fn offset(rt: &impl Abort, minutes: i16) -> Offset16 {
    match Offset16::of(minutes) {
        Some(offset) => offset,
        None => panic!(rt; "an offset past the last"),
    }
}

/// The greatest size at which a file may be closed.
const MOST_SIZE: u32 = 4_294_836_224;

fn limits(size: u32, count: u32) -> Limits
    ensures { AreLimits result }
{
    Limits {
        size: size.clamp(1, MOST_SIZE),
        count: count.max(1),
        open_time: 60,
    }
}

/// What a writer answers that recovers on a shelf and takes these items, and the shelf.
fn write(
    shelf: MemoryShelf,
    rules: Rules,
    limits: Limits,
    offset: Offset16,
    items: &[Item],
) -> (MemoryShelf, Result<u64, ShelfFault>)
    requires limits { AreLimits limits }
    requires few { length items.now < 2 ^ 31 }
    requires fit { All IsFit items.now }
{
    let mut writer = Writer::new(shelf, rules, limits, offset, ADDRESS, PROFILE);
    let answer = match writer.recover() {
        Ok(()) => writer.advance(items),
        Err(fault) => Err(fault),
    };
    (writer.into_shelf(), answer)
}

/// Whether the file of the first stream with this sequence number has these octets.
fn has_file(shelf: &MemoryShelf, sequence: u32, octets: &[u8]) -> bool {
    let name = FileName {
        stream: 0,
        sequence,
    };
    shelf.file(name) == Some(octets)
}

/// The first stream has these files.
fn has_files(rt: &impl Abort, shelf: &MemoryShelf, files: &[(u32, &[u8])]) {
    for (sequence, octets) in files {
        assert!(rt; has_file(shelf, *sequence, octets), "{sequence}");
    }
}

/// A size and a count at which files are closed, and the minutes of the offset from UTC.
type Setting = (u32, u32, i16);

/// A writer on this shelf takes all items, and then the first stream has these files.
fn takes_all(
    rt: &impl Abort,
    alloc: Global,
    shelf: MemoryShelf,
    setting: Setting,
    items: &[Item],
    files: &[(u32, &[u8])],
)
    requires few { length items.now < 2 ^ 31 }
    requires fit { All IsFit items.now }
{
    let (size, count, minutes) = setting;
    let limits = limits(size, count);
    let rules = Rules::none(alloc);
    let (shelf, answer) = write(shelf, rules, limits, offset(rt, minutes), items);
    assert_eq!(rt; answer, Ok(items.len() as u64));
    has_files(rt, &shelf, files);
}

const FIRST: [u8; 5] = [0xA0, 3, 0x80, 1, 5];

const THIRD: [u8; 5] = [0xA0, 3, 0x80, 1, 7];

const FIRST_OF_TWO: &[u8] = b"\
\x00\x00\x00\x41\x00\x00\x00\x34\x60\x60\x2E\x80\x08\x00\x2E\x80\x08\x00\x00\x00\x00\x02\x00\x00\x00\x01\x03\
\x00\x00\x00\x00\x00\x00\x00\x00\x00\x00\xFF\xFF\x0A\x00\x00\x01\x00\x00\x00\x00\x00\x00\x00\x00\x00\x00\x05\
\x60\x20\xA0\x03\x80\x01\x05\x00\x00\x60\x20";

const SECOND_OF_TWO: &[u8] = b"\
\x00\x00\x00\x3D\x00\x00\x00\x34\x60\x60\x2E\x80\x08\x00\x2E\x80\x08\x00\x00\x00\x00\x01\x00\x00\x00\x02\x04\
\x00\x00\x00\x00\x00\x00\x00\x00\x00\x00\xFF\xFF\x0A\x00\x00\x01\x00\x00\x00\x00\x00\x00\x00\x00\x00\x00\x05\
\x60\x20\xA0\x03\x80\x01\x07";

/// The first and the second file after all items.
const BOTH: [(u32, &[u8]); 2] = [(1, FIRST_OF_TWO), (2, SECOND_OF_TWO)];

fn three_and_a_close(rt: &impl Abort, alloc: Global) -> Vec<Item>
    ensures fit { All IsFit result.items }
    ensures few { length result.items < 2 ^ 31 }
{
    let mut items = Vec::new(alloc);
    put(rt, &mut items, part(rt, alloc, None, &FIRST, 1_709_164_800));
    put(rt, &mut items, part(rt, alloc, None, &[], 1_709_164_801));
    put(rt, &mut items, part(rt, alloc, None, &THIRD, 1_709_164_802));
    let moment = moment(rt, 1_709_164_803);
    put(rt, &mut items, Item::Close { moment });
    items
}

/// The shelf after a writer was stopped, with the device running again.
fn stopped(
    rt: &impl Abort,
    shelf: MemoryShelf,
    rules: Rules,
    setting: Setting,
    items: &[Item],
) -> MemoryShelf
    requires few { length items.now < 2 ^ 31 }
    requires fit { All IsFit items.now }
{
    let (size, count, minutes) = setting;
    let limits = limits(size, count);
    let (mut shelf, answer) = write(shelf, rules, limits, offset(rt, minutes), items);
    assert_eq!(rt; answer, Err(ShelfFault::Device));
    shelf.revive();
    shelf
}

/// Stops at this call: whether the first file is sealed then, and both files after all items are taken once more.
fn stop_and_go_on(rt: &impl Abort, alloc: Global, items: &[Item], stop: Stop)
    requires few { length items.now < 2 ^ 31 }
    requires fit { All IsFit items.now }
{
    let sealed = stop.call > 9 || stop.call == 9 && stop.outcome == Outcome3::New;
    let (call, setting) = (stop.call, (1000, 2, 0));
    let shelf = shelf(rt, alloc, stop);
    let shelf = stopped(rt, shelf, Rules::none(alloc), setting, items);
    assert!(rt; has_file(&shelf, 1, FIRST_OF_TWO) == sealed, "{call}");
    takes_all(rt, alloc, shelf, setting, items, &BOTH);
}

/// Stops with this outcome, at each call.
fn stop_at_each_call(rt: &impl Abort, alloc: Global, items: &[Item], outcome: Outcome3)
    requires few { length items.now < 2 ^ 31 }
    requires fit { All IsFit items.now }
{
    for call in 1..=16 {
        stop_and_go_on(rt, alloc, items, Stop { call, outcome });
    }
}

#[test]
fn a_stop_at_each_call_leaves_the_same_files_in_the_end(rt: HostRuntime) {
    let alloc = rt.alloc();
    let items = three_and_a_close(&rt, alloc);
    stop_at_each_call(&rt, alloc, &items, Outcome3::Old);
    stop_at_each_call(&rt, alloc, &items, Outcome3::New);
    stop_at_each_call(&rt, alloc, &items, Outcome3::Rot);
}

/// Rules that send a record of format 1 to the stream with the number of its tag.
const RULES: [&str; 16] = [
    "rule 80 1 0",
    "rule 81 1 1",
    "rule 82 1 2",
    "rule 83 1 3",
    "rule 84 1 4",
    "rule 85 1 5",
    "rule 86 1 6",
    "rule 87 1 7",
    "rule 88 1 8",
    "rule 89 1 9",
    "rule 8A 1 10",
    "rule 8B 1 11",
    "rule 8C 1 12",
    "rule 8D 1 13",
    "rule 8E 1 14",
    "rule 8F 1 15",
];

/// Adds a rule behind others.
fn add(rt: &impl Abort, rules: &mut Rules, line: &str) {
    assert!(rt; rules.add(line).is_ok(), "{line}");
}

fn rules(rt: &impl Abort, alloc: Global) -> Rules {
    let mut rules = Rules::none(alloc);
    for line in RULES {
        add(rt, &mut rules, line);
    }
    rules
}

/// The record that goes to the stream before which so many others stand, from the last one.
fn record_for(rt: &impl Abort, alloc: Global, n: u8) -> Item
    requires { n < 16 }
    ensures { IsFit result }
{
    let tag = Tag {
        class: 2,
        constructed: false,
        number: u32::from(15 - n),
    };
    part(rt, alloc, Some(tag), &[0x8F - n, 0], 1_709_164_800)
}

/// A record for each stream, the last stream's first, and a Tick at which all their files are due.
fn a_record_for_each(rt: &impl Abort, alloc: Global) -> Vec<Item>
    ensures fit { All IsFit result.items }
    ensures few { length result.items < 2 ^ 31 }
{
    let mut items = Vec::new(alloc);
    for n in 0..16u8 {
        put(rt, &mut items, record_for(rt, alloc, n));
    }
    let moment = moment(rt, 1_709_164_860);
    put(rt, &mut items, Item::Tick { moment });
    items
}

/// The streams up to this one have a sealed file, and no other.
fn are_sealed_up_to(rt: &impl Abort, shelf: &MemoryShelf, last: u8) {
    for stream in 0..16u8 {
        let name = FileName {
            stream,
            sequence: 1,
        };
        let is_sealed = shelf.file(name).is_some();
        assert!(rt; is_sealed == (stream <= last), "{last} {stream}");
    }
}

/// Stops behind the seal of this stream's file.
fn stop_at_seal(rt: &impl Abort, alloc: Global, items: &[Item], last: u8)
    requires few { length items.now < 2 ^ 31 }
    requires fit { All IsFit items.now }
{
    // Four calls begin each file, and three close it: the seal of this stream's file stops.
    let stop = Stop {
        call: 64 + 3 * (u64::from(last) + 1),
        outcome: Outcome3::New,
    };
    let shelf = shelf(rt, alloc, stop);
    let shelf = stopped(rt, shelf, rules(rt, alloc), (1000, 9, 0), items);
    are_sealed_up_to(rt, &shelf, last);
}

#[test]
fn streams_close_at_one_mark_in_order_of_number(rt: HostRuntime) {
    let items = a_record_for_each(&rt, rt.alloc());
    for last in 0..16u8 {
        stop_at_seal(&rt, rt.alloc(), &items, last);
    }
}
