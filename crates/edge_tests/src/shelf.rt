use crate::disk::{holds, is_there, lay, make_folder};
use cdr_shelf::{FileName, Shelf, ShelfStop};
use cgf_edge::{FolderShelf, Trouble};
use std::alloc::AllocGlobal;
use std::fs::{File, Files};
use std::process::Abort;

fn name(stream: u8, sequence: u32) -> FileName {
    FileName { stream, sequence }
}

/// The shelf in a folder.
fn shelf_at<'a, R: Files<File = File> + AllocGlobal + Abort>(
    rt: &'a R,
    path: &str,
) -> FolderShelf<'a, R> {
    match FolderShelf::new(rt.alloc(), rt, path) {
        Ok(shelf) => shelf,
        Err(_) => panic!(rt; "no memory for a shelf"),
    }
}

/// The shelf in a folder that is made for it.
fn new_shelf<'a, R: Files<File = File> + AllocGlobal + Abort>(
    rt: &'a R,
    path: &str,
) -> FolderShelf<'a, R> {
    make_folder(rt, path);
    shelf_at(rt, path)
}

/// Begins a file.
fn begins<R: Files<File = File> + Abort>(
    rt: &R,
    shelf: &mut FolderShelf<'_, R>,
    stream: u8,
    sequence: u32,
) {
    assert_eq!(rt; shelf.begin(name(stream, sequence)), Ok(()));
}

/// Writes octets from a place on.
fn writes<R: Files<File = File> + Abort>(
    rt: &R,
    shelf: &mut FolderShelf<'_, R>,
    stream: u8,
    at: u32,
    octets: &[u8],
) {
    assert_eq!(rt; shelf.write_at(stream, at, octets), Ok(()));
}

/// Seals a file.
fn seals<R: Files<File = File> + Abort>(rt: &R, shelf: &mut FolderShelf<'_, R>, stream: u8) {
    assert!(rt; shelf.seal(stream).is_ok());
}

/// Begins no file, as the shelf has failed.
fn begins_none<R: Files<File = File> + Abort>(
    rt: &R,
    shelf: &mut FolderShelf<'_, R>,
    stream: u8,
    sequence: u32,
) {
    let begun = shelf.begin(name(stream, sequence));
    assert_eq!(rt; begun, Err(ShelfStop::Failed));
}

/// A sealed file has its name and its octets; its name is refused from then on, and it stays as it was.
#[test]
fn a_file_is_sealed_under_its_name_once(rt: HostRuntime) {
    let mut shelf = new_shelf(&rt, "sealed");
    begins(&rt, &mut shelf, 3, 7);
    writes(&rt, &mut shelf, 3, 0, b"abcdef");
    writes(&rt, &mut shelf, 3, 4, b"XYZ");
    assert!(rt; is_there(&rt, "sealed/03.part"));
    assert!(rt; shelf.sync(3).is_ok());
    seals(&rt, &mut shelf, 3);
    assert!(rt; !is_there(&rt, "sealed/03.part"));
    holds(&rt, "sealed/03-0000000007.cdr", "abcdXYZ");
    begins_none(&rt, &mut shelf, 3, 7);
    assert!(rt; matches!(shelf.trouble(), Some(Trouble::Sealed)));
    assert!(rt; shelf.seal(3).is_err());
    holds(&rt, "sealed/03-0000000007.cdr", "abcdXYZ");
}

/// Writes the next piece of a file, and notes it.
fn writes_piece<R: Files<File = File> + AllocGlobal + Abort>(
    rt: &R,
    shelf: &mut FolderShelf<'_, R>,
    wanted: &mut String,
    number: u32,
) {
    let Ok(piece) = format!(in rt.alloc(); "{number:05}") else {
        panic!(rt; "no memory for a piece");
    };
    assert!(rt; wanted.push_str(piece.as_str()).is_ok());
    writes(rt, shelf, 0, number.saturating_mul(5), piece.as_bytes());
}

/// Octets that come in many pieces, more of them than wait to be written, stand in order, behind a beginning that was
/// written once more.
#[test]
fn many_pieces_stand_in_order(rt: HostRuntime) {
    let mut shelf = new_shelf(&rt, "many-pieces");
    let mut wanted = String::new(rt.alloc());
    assert!(rt; wanted.push_str("begin").is_ok());
    begins(&rt, &mut shelf, 0, 1);
    writes(&rt, &mut shelf, 0, 0, b"xxxxx");
    for number in 1..30_000 {
        writes_piece(&rt, &mut shelf, &mut wanted, number);
    }
    writes(&rt, &mut shelf, 0, 0, b"begin");
    seals(&rt, &mut shelf, 0);
    holds(&rt, "many-pieces/00-0000000001.cdr", wanted.as_str());
}

/// A part that an earlier run left is longer than what is written now, and none of it stays.
#[test]
fn a_part_that_was_left_is_made_anew(rt: HostRuntime) {
    let mut shelf = new_shelf(&rt, "left");
    lay(&rt, "left/00.part", "a part of an earlier run");
    begins(&rt, &mut shelf, 0, 1);
    writes(&rt, &mut shelf, 0, 0, b"new");
    begins(&rt, &mut shelf, 0, 2);
    writes(&rt, &mut shelf, 0, 0, b"new");
    seals(&rt, &mut shelf, 0);
    holds(&rt, "left/00-0000000002.cdr", "new");
    assert!(rt; !is_there(&rt, "left/00-0000000001.cdr"));
}

/// Seals a file of one octet.
fn seals_one<R: Files<File = File> + Abort>(
    rt: &R,
    shelf: &mut FolderShelf<'_, R>,
    (stream, sequence): (u8, u32),
) {
    begins(rt, shelf, stream, sequence);
    writes(rt, shelf, stream, 0, b"x");
    seals(rt, shelf, stream);
}

/// Writes a file that has the name of a sealed one of stream 4.
fn lay_sealed<R: Files + AllocGlobal + Abort>(rt: &R, number: u32) {
    match format!(in rt.alloc(); "three/04-{number:010}.cdr") {
        Ok(path) => lay(rt, path.as_str(), "x"),
        Err(_) => panic!(rt; "no memory for a name"),
    }
}

/// The greatest number of a sealed file of a stream.
fn is_greatest<R: Files<File = File> + Abort>(
    rt: &R,
    shelf: &mut FolderShelf<'_, R>,
    (stream, greatest): (u8, u32),
) {
    assert_eq!(rt; shelf.sealed(stream), Ok(greatest), "stream {stream}");
}

const SEALED: [(u8, u32); 5] = [(0, 2), (0, 11), (0, 9), (1, 4_294_967_295), (15, 1)];

const OTHERS: [&str; 7] = [
    "three/00-0000000099.txt",
    "three/00-00000000099.cdr",
    "three/00-99.cdr",
    "three/0-00000000099.cdr",
    "three/+0-0000000099.cdr",
    "three/15-9999999999.cdr",
    "three/notes",
];

const GREATEST: [(u8, u32); 6] = [
    (0, 11),
    (1, 4_294_967_295),
    (2, 0),
    (4, 300),
    (15, 1),
    (16, 0),
];

/// Writes files whose names count nothing, and then more than are read at once that count.
fn lay_names<R: Files + AllocGlobal + Abort>(rt: &R) {
    for other in OTHERS {
        lay(rt, other, "x");
    }
    for number in 1..301 {
        lay_sealed(rt, number);
    }
}

/// The greatest number of each stream, by names alone, which are more than are read at once. A part, another name and
/// another number of digits count nothing.
#[test]
fn the_greatest_sealed_number_of_each_stream_is_found(rt: HostRuntime) {
    let mut shelf = new_shelf(&rt, "three");
    for file in SEALED {
        seals_one(&rt, &mut shelf, file);
    }
    begins(&rt, &mut shelf, 2, 5);
    lay_names(&rt);
    for stream in GREATEST {
        is_greatest(&rt, &mut shelf, stream);
    }
}

/// Which calls of a shelf fail.
fn failed<R: Files<File = File>>(shelf: &mut FolderShelf<'_, R>) -> [bool; 5] {
    [
        shelf.begin(name(0, 1)) == Err(ShelfStop::Failed),
        shelf.write_at(0, 0, b"x") == Err(ShelfStop::Failed),
        shelf.sync(0).is_err(),
        shelf.seal(0).is_err(),
        shelf.sealed(0).is_err(),
    ]
}

/// Each call of the shelf at a path fails.
fn fails<R: Files<File = File> + AllocGlobal + Abort>(rt: &R, path: &str) {
    let mut shelf = shelf_at(rt, path);
    assert_eq!(rt; failed(&mut shelf), [true; 5], "{path}");
}

/// A folder that is missing, one that is a file, no path, and one that another handle has.
#[test]
fn a_folder_that_is_not_ours_fails_at_each_call(rt: HostRuntime) {
    lay(&rt, "no-folder", "x");
    fails(&rt, "missing");
    fails(&rt, "no-folder");
    fails(&rt, "");
    let mut holder = new_shelf(&rt, "held");
    is_greatest(&rt, &mut holder, (0, 0));
    let mut second = shelf_at(&rt, "held");
    begins_none(&rt, &mut second, 0, 1);
    assert!(rt; matches!(second.trouble(), Some(Trouble::Locked)));
}

/// A stream without a file, and one whose number has three digits.
#[test]
fn a_stream_without_a_file_fails(rt: HostRuntime) {
    let mut shelf = new_shelf(&rt, "streams");
    assert!(rt; shelf.write_at(0, 0, b"x") == Err(ShelfStop::Failed));
    assert!(rt; shelf.sync(0).is_err());
    begins_none(&rt, &mut shelf, 100, 1);
    begins(&rt, &mut shelf, 99, 1);
    seals(&rt, &mut shelf, 99);
    is_greatest(&rt, &mut shelf, (99, 1));
}
