//! CDR files: their headers, timestamps, and what is read of them.
//!
//! - `stamp SECONDS MINUTES`: the timestamp of a moment at an offset from UTC in minutes.
//! - `fields STAMP`: the fields of a timestamp.
//! - `file SECONDS MINUTES ADDRESS RECORD`: the file of one record, of release 3, version 0 and format 1, that was filed
//!   then and that an operator closed, at a gateway with this address; and its header as that of a run of records.
//! - `file-2 SECONDS MINUTES ADDRESS VERSION`: the header of the file of one record of five octets, of this format
//!   version and format 1, in profile 2; and the header of its CDR.
//! - `file-head LENGTH HEADER HIGH HIGH-VERSION LOW LOW-VERSION REASON LOST REST`: the header of a file; REST is, in
//!   hexadecimal, when it was opened and appended to, the count, the sequence number and the node's address.
//! - `cdr-head LENGTH RELEASE VERSION FORMAT TS`: the header of a CDR.
//! - `listed OCTETS`: what is listed of a file, its head, and then each CDR by itself; or its first fault.
//! - `long LENGTH`: what is read of a file of one record of so many octets, of release 7, version 31 and format 7.

ghost use Rattle.std.specs.Prelude.{◌≡◌, ◌<◌, ◌≤◌, ◌∷◌, [], None, Some, length, pos, negsuc, IfOk};
ghost use Rattle.cdr_file.specs.CdrFile.{file_octets};
ghost use Rattle.cdr_file.specs.FileHeader.{IsFileHeader};
ghost use Rattle.cdr_file.specs.Profile.{IsFiledKind, in_profile};
ghost use Rattle.cdr_file.specs.Timestamp.{stamp_of};

use crate::words::{moment, octets, print_octets};
use byteorder::{BigEndian, ByteOrder};
use cdr_file::{
    Cdr, CdrFile, CdrHeader, ClosureReason, FileHeader, FiledKind, Offset16, RunFacts, StampFields,
    cdr_header_length, cdr_line, head_lines, node_address, read, run_header, stamp, write_cdr,
    write_header,
};
use gw_base::{CdrKind, GatewayId, Moment, cdr_kind};
use run_lines::{bad, first_word, next, no_memory, number};
use std::alloc::{AllocError, Global};
use std::io;

/// A file of one CDR, which was filed in the first second of 29 February 2024 and is closed by an operator: the
/// header, the CDR's header, and its octets.
const ONE_CDR: [u8; 61] = [
    0x00, 0x00, 0x00, 0x3D, // file length
    0x00, 0x00, 0x00, 0x34, // header length
    0x60, 0x60, // high and low release 3, version 0
    0x2E, 0x80, 0x08, 0x00, // opened
    0x2E, 0x80, 0x08, 0x00, // appended to
    0x00, 0x00, 0x00, 0x01, // one CDR
    0x00, 0x00, 0x00, 0x01, // sequence number
    0x04, // manual intervention
    0x00, 0x00, 0x00, 0x00, 0x00, 0x00, 0x00, 0x00, 0x00, 0x00, // node address
    0xFF, 0xFF, 0x0A, 0x00, 0x00, 0x01, 0x00, 0x00, 0x00, 0x00, //
    0x00, // none lost
    0x00, 0x00, 0x00, 0x00, // no routeing filter, no private extension
    0x00, 0x05, 0x60, 0x20, // five octets, release 3, version 0, format 1
    0xA0, 0x03, 0x80, 0x01, 0x05,
];

/// The same file of a record of release 7 and extension 1, in profile 2: an octet more for each release of the header,
/// and one in the header of the CDR.
const ONE_CDR_OF_PROFILE_2: [u8; 64] = [
    0x00, 0x00, 0x00, 0x40, // file length
    0x00, 0x00, 0x00, 0x36, // header length
    0xE0, 0xE0, // high and low release 7, version 0
    0x2E, 0x80, 0x08, 0x00, // opened
    0x2E, 0x80, 0x08, 0x00, // appended to
    0x00, 0x00, 0x00, 0x01, // one CDR
    0x00, 0x00, 0x00, 0x01, // sequence number
    0x04, // manual intervention
    0x00, 0x00, 0x00, 0x00, 0x00, 0x00, 0x00, 0x00, 0x00, 0x00, // node address
    0xFF, 0xFF, 0x0A, 0x00, 0x00, 0x01, 0x00, 0x00, 0x00, 0x00, //
    0x00, // none lost
    0x00, 0x00, 0x00, 0x00, // no routeing filter, no private extension
    0x01, 0x01, // the extensions of the high and of the low release
    0x00, 0x05, 0xE0, 0x20, 0x01, // five octets, release 7, version 0, format 1, extension 1
    0xA0, 0x03, 0x80, 0x01, 0x05,
];

/// The definition gives these octets for these files.
fn one_cdr_by_definition()
    ensures profile_1 { file_octets
        ((record {
          kind = record { release = 3; version = 0; format = 1; extension = None };
          octets = 0xA0 ∷ 0x03 ∷ 0x80 ∷ 0x01 ∷ 0x05 ∷ [];
          moment = 1_709_164_800;
        }) ∷ [])
        1 ClosureReason.Manual (record { offset = pos 0; address = 0x0A00_0001 })
        ≡ ONE_CDR }
    ensures profile_2 { file_octets
        ((record {
          kind = record { release = 7; version = 0; format = 1; extension = Some 1 };
          octets = 0xA0 ∷ 0x03 ∷ 0x80 ∷ 0x01 ∷ 0x05 ∷ [];
          moment = 1_709_164_800;
        }) ∷ [])
        1 ClosureReason.Manual (record { offset = pos 0; address = 0x0A00_0001 })
        ≡ ONE_CDR_OF_PROFILE_2 }
{}

/// The definition gives these timestamps.
fn timestamps_by_definition()
    ensures evening_before { stamp_of 1_709_251_140 (negsuc 209) ≡ 0x2ED1_D0DE }
    ensures midnight { stamp_of 1_709_164_800 (pos 0) ≡ 0x2E80_0800 }
    ensures day_after { stamp_of 1_709_251_140 (pos 60) ≡ 0x3083_B840 }
    ensures furthest_behind { stamp_of 0 (negsuc 958) ≡ 0xCFA0_13FB }
    ensures a_minute_behind { stamp_of 0 (negsuc 0) ≡ 0xCFDF_B001 }
    ensures furthest_ahead { stamp_of 4_102_444_799 (pos 959) ≡ 0x10BF_ABFB }
    ensures a_minute_ahead { stamp_of 4_102_444_799 (pos 1) ≡ 0x1080_0801 }
{}

/// The octets of a file of one CDR of profile 1 that an operator closed, as plain code: its contract is the definition.
fn one_cdr_file(
    alloc: Global,
    kind: CdrKind,
    octets: &[u8],
    filed: Moment,
    offset: Offset16,
    gateway: GatewayId,
) -> Result<Vec<u8>, AllocError>
    requires release { kind.release < 8 }
    requires version { kind.version < 32 }
    requires format { kind.format < 8 }
    requires short { length octets.now < 65536 }
    ensures { IfOk result (λ file. file.items ≡ file_octets
        ((record { kind = in_profile 1 kind; octets = octets.now; moment = filed }) ∷ [])
        1 ClosureReason.Manual (record { offset = offset; address = gateway.0 })) }
{
    let stamp = stamp(filed, offset);
    let header = FileHeader {
        length: 52 + (4 + octets.len() as u32),
        header_length: 52,
        high_release: kind.release,
        high_version: kind.version,
        low_release: kind.release,
        low_version: kind.version,
        opened: stamp,
        appended: stamp,
        count: 1,
        sequence: 1,
        reason: ClosureReason::Manual.code(),
        address: node_address(gateway.0),
        lost: 0,
        high_extension: None,
        low_extension: None,
    };
    let cdr = CdrHeader {
        length: octets.len() as u16,
        release: kind.release,
        version: kind.version,
        format: kind.format,
        ts: 0,
        extension: None,
    };
    let header = write_header(&header);
    let cdr = write_cdr(cdr);
    let mut file = Vec::new(alloc);
    file.extend_from_slice(header.octets())?;
    file.extend_from_slice(cdr.octets())?;
    file.extend_from_slice(octets)?;
    Ok(file)
}

/// The moment and the offset from UTC in minutes that a line begins with.
fn filed_of(words: &str) -> io::Result<(Moment, Offset16)> {
    let (seconds, words) = first_word(words);
    let (minutes, _) = first_word(words);
    let filed = moment(seconds)?;
    let Ok(minutes) = minutes.parse::<i16>() else {
        return Err(bad());
    };
    match Offset16::of(minutes) {
        Some(offset) => Ok((filed, offset)),
        None => Err(bad()),
    }
}

/// The words behind them.
fn behind_filed(words: &str) -> &str {
    let (_, words) = first_word(words);
    let (_, words) = first_word(words);
    words
}

pub(crate) fn stamped(rt: &HostRuntime, words: &str) -> io::Result<()> {
    timestamps_by_definition();
    let (filed, offset) = filed_of(words)?;
    print_octets(rt, &stamp(filed, offset).to_be_bytes())
}

pub(crate) fn fields(rt: &HostRuntime, words: &str) -> io::Result<()> {
    let octets = octets(rt.alloc(), words)?;
    if octets.len() != 4 {
        return Err(bad());
    }
    print!(rt; "{:?}", StampFields::of(BigEndian::read_u32(&octets)))
}

/// Prints the header of the file of one record, which was filed then and which an operator closed.
fn print_header(
    rt: &HostRuntime,
    kind: FiledKind,
    length: u16,
    filed: Moment,
    offset: Offset16,
    address: u32,
) -> io::Result<()>
    requires { IsFiledKind kind }
{
    let run = RunFacts {
        kind,
        opened: filed,
        appended: filed,
        count: 1,
        octets: u64::from(cdr_header_length(kind)) + u64::from(length),
    };
    let header = run_header(run, 1, ClosureReason::Manual, offset, address);
    print_octets(rt, header.octets())
}

pub(crate) fn file(rt: &HostRuntime, words: &str) -> io::Result<()> {
    one_cdr_by_definition();
    let (filed, offset) = filed_of(words)?;
    let words = behind_filed(words);
    let (address, record) = next(words, 4_294_967_295)?;
    let address = address as u32;
    let record = octets(rt.alloc(), record)?;
    if record.len() > 65_535 {
        return Err(bad());
    }
    let kind = CdrKind {
        release: 3,
        version: 0,
        format: 1,
        extension: 0,
    };
    let file = one_cdr_file(rt.alloc(), kind, &record, filed, offset, GatewayId(address))?;
    print_octets(rt, &file)?;
    print!(rt; ", ")?;
    let length = record.len() as u16;
    print_header(rt, FiledKind::of(kind, 1), length, filed, offset, address)
}

pub(crate) fn file_of_profile_2(rt: &HostRuntime, words: &str) -> io::Result<()> {
    let (filed, offset) = filed_of(words)?;
    let words = behind_filed(words);
    let (address, words) = next(words, 4_294_967_295)?;
    let version = number(words, 65_535)? as u16;
    let kind = FiledKind::of(cdr_kind(1, version), 2);
    print_header(rt, kind, 5, filed, offset, address as u32)?;
    print!(rt; ", ")?;
    let header = write_cdr(CdrHeader {
        length: 5,
        release: kind.release,
        version: kind.version,
        format: kind.format,
        ts: 0,
        extension: kind.extension,
    });
    print_octets(rt, header.octets())
}

/// A release and a version, and the words behind them.
fn release_of(words: &str) -> io::Result<(u8, u8, &str)>
    ensures { IfOk result (λ said. (said.0 < 8) × (said.1 < 32)) }
{
    let (release, words) = next(words, 7)?;
    let (version, words) = next(words, 31)?;
    Ok((release as u8, version as u8, words))
}

/// A header by the words of a line, but for what is told in octets, and the words behind it.
fn header_of(words: &str) -> io::Result<(FileHeader, &str)>
    ensures { IfOk result (λ said. IsFileHeader said.0) }
{
    let (length, words) = next(words, 4_294_967_295)?;
    let (header_length, words) = next(words, 4_294_967_295)?;
    let (high_release, high_version, words) = release_of(words)?;
    let (low_release, low_version, words) = release_of(words)?;
    let (reason, words) = next(words, 255)?;
    let (lost, words) = next(words, 255)?;
    let header = FileHeader {
        length: length as u32,
        header_length: header_length as u32,
        high_release,
        high_version,
        low_release,
        low_version,
        opened: 0,
        appended: 0,
        count: 0,
        sequence: 0,
        reason: reason as u8,
        address: [0; 20],
        lost: lost as u8,
        high_extension: None,
        low_extension: None,
    };
    Ok((header, words))
}

/// Prints the octets of a header with these octets of what has no word.
fn print_head(rt: &HostRuntime, mut header: FileHeader, rest: &[u8]) -> io::Result<()>
    requires { IsFileHeader header }
{
    if rest.len() != 36 {
        return Err(bad());
    }
    header.opened = BigEndian::read_u32(rest);
    header.appended = BigEndian::read_u32(&rest[4..]);
    header.count = BigEndian::read_u32(&rest[8..]);
    header.sequence = BigEndian::read_u32(&rest[12..]);
    header.address.copy_from_slice(&rest[16..]);
    print_octets(rt, write_header(&header).octets())
}

pub(crate) fn file_head(rt: &HostRuntime, words: &str) -> io::Result<()> {
    let (header, words) = header_of(words)?;
    let rest = octets(rt.alloc(), words)?;
    print_head(rt, header, &rest)
}

pub(crate) fn cdr_head(rt: &HostRuntime, words: &str) -> io::Result<()> {
    let (length, words) = next(words, 65_535)?;
    let (release, version, words) = release_of(words)?;
    let (format, words) = next(words, 7)?;
    let ts = number(words, 31)?;
    let header = CdrHeader {
        length: length as u16,
        release,
        version,
        format: format as u8,
        ts: ts as u8,
        extension: None,
    };
    print_octets(rt, write_cdr(header).octets())
}

pub(crate) fn listed(rt: &HostRuntime, words: &str) -> io::Result<()> {
    let octets = octets(rt.alloc(), words)?;
    match read(rt.alloc(), &octets) {
        Ok(file) => print_parts(rt, &file),
        Err(fault) => print!(rt; "{fault:?}, {fault}"),
    }
}

/// Prints what is listed of a file's head, and of each of its CDRs.
fn print_parts(rt: &HostRuntime, file: &CdrFile) -> io::Result<()> {
    match head_lines(rt.alloc(), file) {
        Ok(lines) => print_lines(rt, &lines)?,
        Err(_) => return Err(no_memory()),
    }
    for (number, cdr) in (1..).zip(file.cdrs.cdrs()) {
        print_cdr(rt, number, cdr)?;
    }
    Ok(())
}

fn print_cdr(rt: &HostRuntime, number: u64, cdr: &Cdr) -> io::Result<()> {
    print!(rt; ", ")?;
    match cdr_line(rt.alloc(), number, cdr) {
        Ok(line) => print_lines(rt, &line),
        Err(_) => Err(no_memory()),
    }
}

/// Prints lines with each line feed as `\n`.
fn print_lines(rt: &HostRuntime, text: &[u8]) -> io::Result<()> {
    match str::from_utf8(text) {
        Ok(text) => print!(rt; "{text:?}"),
        Err(_) => Err(bad()),
    }
}

pub(crate) fn long(rt: &HostRuntime, words: &str) -> io::Result<()> {
    let (filed, offset) = filed_of(words)?;
    let words = behind_filed(words);
    let length = number(words, 65_535)? as usize;
    let record = vec![in rt.alloc(); 0x5A_u8; length]?;
    let kind = CdrKind {
        release: 7,
        version: 31,
        format: 7,
        extension: 0,
    };
    let file = one_cdr_file(rt.alloc(), kind, &record, filed, offset, GatewayId(1))?;
    print_long(rt, &file, &record)
}

/// Prints what is read of a file, and whether its records are this one.
fn print_long(rt: &HostRuntime, file: &[u8], wanted: &[u8]) -> io::Result<()> {
    let Ok(found) = read(rt.alloc(), file) else {
        return Err(bad());
    };
    let opened = found.header.opened;
    print!(rt; "{} octets, opened {opened:08X}", found.header.length)?;
    for cdr in found.cdrs.cdrs() {
        let is_same = cdr.octets.octets() == wanted;
        print!(rt; ", {} octets, the same: {is_same}", cdr.header.length)?;
    }
    Ok(())
}
