ghost use Rattle.std.specs.Prelude.{◌≡◌, ◌≤◌, ◌+◌, ◌⊎◌, ◌<◌, ◌++◌, ◌∷◌, [], true, None, Ok, Err, if◌then◌else◌, IfOk, IfErr, OnOk, length, slice_index, take, drop};
ghost use Rattle.cdr_file.specs.Profile.{extension_if};
ghost use Rattle.cdr_file.specs.Reading.{HasHeader, cdr_end, cdr_fault, cdr_head, cdr_in, cdrs_from, extends_in, extension_end, extension_in, fields_in, file_in, filter_in, header_end, header_fault, header_in, high_extension_in, is_seven, low_extension_in, number_at, one_if, sevens};
ghost use Rattle.cdr_file.specs.FileHeader.{least_header};
ghost use Rattle.cdr_file.specs.Spelling.{Spells};
ghost use Rattle.cdr_file.specs.declared.fault.FileFault.TheVariants.{Bad, NoMemory as no_memory};

use crate::cdr_header::CdrHeader;
use crate::fault::{FileFault, FileKind};
use crate::file::{Cdr, CdrFile, Cdrs};
use crate::file_header::FileHeader;
use crate::filed_kind::LAST_RELEASE;
use byteorder::{BigEndian, ByteOrder};
use gw_base::{NoMemory, Octets};
use std::alloc::Global;

/// How many octets a header has that has neither a routeing filter nor any extension.
const LEAST_HEADER: usize = 52;

/// Where the length of the routeing filter stands, in two octets.
const FILTER: usize = 48;

/// How many octets the header of a CDR has that has no extension.
const LEAST_CDR_HEADER: usize = 4;

/// How many numbers the five low bits of an octet can say, which it shares with another number.
const FIVE_BITS: u8 = 32;

/// Reads a whole CDR file (3GPP TS 32.297, clause 6.1).
///
/// The first test that fails decides (`FileKind` lists them in their order). A field that no test names
/// may hold any number.
pub fn read(alloc: Global, octets: &[u8]) -> Result<CdrFile, FileFault>
    ensures file { IfOk result (λ file. file_in octets.now ≡ Ok file) }
    ensures spelled { IfOk result (λ file. Spells file octets.now) }
    ensures fault { IfErr result (λ fault. (fault ≡ no_memory) ⊎ (file_in octets.now ≡ Err fault)) }
{
    if let Some(fault) = header_fault(octets) {
        return Err(fault);
    }
    let extends = extends_in(octets);
    let header = header_of(octets, extends);
    let cdrs = cdrs_of(alloc, extends, octets, header.header_length as usize)?;
    if cdrs.len() as u64 != header.count as u64 {
        return Err(bad(18, FileKind::Count));
    }
    let (filter, extension) = extras_of(alloc, octets)?;
    let cdrs = Cdrs::from_vec(cdrs);
    Ok(CdrFile {
        header,
        filter,
        extension,
        cdrs,
    })
}

/// A fault at a place.
fn bad(place: usize, kind: FileKind) -> FileFault
    ensures { result ≡ Bad place kind }
{
    FileFault::Bad {
        place: place as u64,
        kind,
    }
}

/// What is wrong with the header of a file, if anything is.
#[tactic(auto, unfolding(crate::specs::Reading::header_fault))]
fn header_fault(octets: &[u8]) -> Option<FileFault>
    ensures fault { result ≡ header_fault octets.now }
    ensures whole { result ≡ None → HasHeader octets.now }
{
    let length = octets.len();
    if length < LEAST_HEADER {
        return Some(bad(length, FileKind::Short));
    }
    if number_at(octets, 0) as usize != length {
        return Some(bad(length, FileKind::FileLength));
    }
    let end = number_at(octets, 4) as usize;
    if end < LEAST_HEADER || length < end {
        return Some(bad(4, FileKind::HeaderLength));
    }
    let extension = FILTER + 2 + length_at(octets, FILTER) as usize;
    if end < extension + 2 {
        return Some(bad(FILTER, FileKind::Filter));
    }
    let after = extension + 2 + length_at(octets, extension) as usize;
    let extends = after != end;
    if after + release_count(extends, octets) != end {
        return Some(bad(extension, FileKind::Extension));
    }
    None
}

/// How many octets extend the releases of a header, where any do: one for each that is 7.
fn release_count(extends: bool, octets: &[u8]) -> usize
    requires { least_header ≤ length octets.now }
    ensures count { result ≡ (if extends then sevens octets.now else 0) }
    ensures most { result ≤ 2 }
{
    if !extends {
        return 0;
    }
    one_if(is_seven(octets, 8)) + one_if(is_seven(octets, 9))
}

/// Whether the release in the octet at a place is 7.
fn is_seven(octets: &[u8], place: usize) -> bool
    requires { place < length octets.now }
    ensures { result ≡ is_seven place octets.now }
{
    octets[place] / FIVE_BITS == LAST_RELEASE
}

/// 1 where something holds.
fn one_if(holds: bool) -> usize
    ensures count { result ≡ one_if holds }
    ensures most { result ≤ 1 }
{
    if holds { 1 } else { 0 }
}

/// Where the private extension ends.
fn extension_end(octets: &[u8]) -> usize
    requires { HasHeader octets.now }
    ensures end { result ≡ extension_end octets.now }
    ensures within { result ≤ header_end octets.now }
{
    let place = FILTER + 2 + length_at(octets, FILTER) as usize;
    place + 2 + length_at(octets, place) as usize
}

/// Whether octets follow the private extension: the file is read in profile 2, else in profile 1.
fn extends_in(octets: &[u8]) -> bool
    requires { HasHeader octets.now }
    ensures { result ≡ extends_in octets.now }
{
    extension_end(octets) != number_at(octets, 4) as usize
}

/// The header of a file but for its routeing filter and its private extension.
#[tactic(auto, unfolding(crate::specs::Reading::header_in))]
fn header_of(octets: &[u8], extends: bool) -> FileHeader
    requires header { HasHeader octets.now }
    requires extends { extends ≡ extends_in octets.now }
    ensures { result ≡ header_in octets.now }
{
    FileHeader {
        high_extension: high_extension_of(octets, extends),
        low_extension: low_extension_of(octets, extends),
        ..fields_of(octets)
    }
}

/// The extension of the high release, if there is one.
fn high_extension_of(octets: &[u8], extends: bool) -> Option<u8>
    requires header { HasHeader octets.now }
    requires extends { extends ≡ extends_in octets.now }
    ensures { result ≡ high_extension_in octets.now }
{
    let is_there = extends && is_seven(octets, 8);
    extension_at(is_there, octets, extension_end(octets))
}

/// The extension of the low release, if there is one.
fn low_extension_of(octets: &[u8], extends: bool) -> Option<u8>
    requires header { HasHeader octets.now }
    requires extends { extends ≡ extends_in octets.now }
    ensures { result ≡ low_extension_in octets.now }
{
    let is_there = extends && is_seven(octets, 9);
    let place = extension_end(octets) + one_if(is_seven(octets, 8));
    extension_at(is_there, octets, place)
}

/// The extension at a place, if there is one.
fn extension_at(is_there: bool, octets: &[u8], place: usize) -> Option<u8>
    requires { is_there ≡ true → place < length octets.now }
    ensures { result ≡ extension_if is_there (slice_index octets.now place) }
{
    if is_there { Some(octets[place]) } else { None }
}

/// The fields of a file's header.
#[tactic(auto, using(crate::proofs::NumberLemmas::length_of_part), unfolding(crate::specs::Reading::fields_in))]
fn fields_of(octets: &[u8]) -> FileHeader
    requires { least_header ≤ length octets.now }
    ensures fields { result ≡ fields_in octets.now }
    ensures end { result.header_length ≡ header_end octets.now }
{
    let mut address = [0; 20];
    address.copy_from_slice(part(octets, 27, 20));
    FileHeader {
        length: number_at(octets, 0),
        header_length: number_at(octets, 4),
        high_release: octets[8] / FIVE_BITS,
        high_version: octets[8] % FIVE_BITS,
        low_release: octets[9] / FIVE_BITS,
        low_version: octets[9] % FIVE_BITS,
        opened: number_at(octets, 10),
        appended: number_at(octets, 14),
        count: number_at(octets, 18),
        sequence: number_at(octets, 22),
        reason: octets[26],
        address,
        lost: octets[47],
        high_extension: None,
        low_extension: None,
    }
}

/// The routeing filter and the private extension.
#[tactic(auto, unfolding(crate::specs::Reading::filter_in, crate::specs::Reading::extension_in))]
fn extras_of(alloc: Global, octets: &[u8]) -> Result<(Octets, Octets), NoMemory>
    requires { HasHeader octets.now }
    ensures { IfOk result (λ extras. (extras.0 ≡ filter_in octets.now) × (extras.1 ≡ extension_in octets.now)) }
{
    let filter = length_at(octets, FILTER) as usize;
    let place = FILTER + 2 + filter;
    let extension = length_at(octets, place) as usize;
    let filter = Octets::of(alloc, part(octets, FILTER + 2, filter))?;
    let extension = Octets::of(alloc, part(octets, place + 2, extension))?;
    Ok((filter, extension))
}

/// The CDRs of a file, which begin at a place of it, and have extensions where it extends releases.
fn cdrs_of(alloc: Global, extends: bool, octets: &[u8], start: usize) -> Result<Vec<Cdr>, FileFault>
    requires { start ≤ length octets.now }
    ensures cdrs { IfOk result (λ cdrs. cdrs_from extends start (drop start octets.now) ≡ Ok cdrs.items) }
    ensures fault { IfErr result (λ fault. (fault ≡ no_memory)
        ⊎ (cdrs_from extends start (drop start octets.now) ≡ Err fault)) }
{
    let mut cdrs = Vec::new(alloc);
    let (_, mut rest) = octets.split_at(start);
    while !rest.is_empty() {
        if let Some(fault) = cdr_fault(extends, octets.len() - rest.len(), rest) {
            return Err(fault);
        }
        let (cdr, after) = first_cdr(alloc, extends, rest)?;
        push_cdr(&mut cdrs, cdr)?;
        rest = after;
    }
    Ok(cdrs)
}

/// Appends a CDR.
fn push_cdr(cdrs: &mut Vec<Cdr>, cdr: Cdr) -> Result<(), NoMemory>
    ensures { OnOk result (cdrs.new.items ≡ cdrs.old.items ++ cdr ∷ []) }
{
    cdrs.push(cdr)?;
    Ok(())
}

/// What is wrong with the CDR that octets from a place of the file on begin with, if anything is.
#[tactic(auto, unfolding(crate::specs::Reading::cdr_fault))]
fn cdr_fault(extends: bool, place: usize, octets: &[u8]) -> Option<FileFault>
    ensures fault { result ≡ cdr_fault extends place octets.now }
    ensures header { result ≡ None → cdr_head extends octets.now ≤ length octets.now }
    ensures whole { result ≡ None → cdr_end extends octets.now ≤ length octets.now }
{
    if octets.len() < LEAST_CDR_HEADER {
        return Some(bad(place, FileKind::CdrHeader));
    }
    let head = cdr_head(extends, octets);
    if octets.len() < head {
        return Some(bad(place, FileKind::CdrHeader));
    }
    if octets.len() < head + length_at(octets, 0) as usize {
        return Some(bad(place, FileKind::CdrCut));
    }
    None
}

/// How many octets the header of the CDR has that octets begin with.
fn cdr_head(extends: bool, octets: &[u8]) -> usize
    requires { 4 ≤ length octets.now }
    ensures head { result ≡ cdr_head extends octets.now }
    ensures most { result ≤ 5 }
{
    LEAST_CDR_HEADER + one_if(extends && is_seven(octets, 2))
}

/// The CDR that octets begin with, and the octets after it.
#[tactic(auto, unfolding(crate::specs::Reading::cdr_in))]
fn first_cdr(alloc: Global, extends: bool, octets: &[u8]) -> Result<(Cdr, &[u8]), NoMemory>
    requires header { cdr_head extends octets.now ≤ length octets.now }
    requires whole { cdr_end extends octets.now ≤ length octets.now }
    ensures { IfOk result (λ found. (found.0 ≡ cdr_in extends octets.now)
        × (found.1.now ≡ drop (cdr_end extends octets.now) octets.now)) }
{
    let length = length_at(octets, 0);
    let head = cdr_head(extends, octets);
    let (_, after) = octets.split_at(head + length as usize);
    let header = CdrHeader {
        length,
        release: octets[2] / FIVE_BITS,
        version: octets[2] % FIVE_BITS,
        format: octets[3] / FIVE_BITS,
        ts: octets[3] % FIVE_BITS,
        extension: extension_at(extends && is_seven(octets, 2), octets, LEAST_CDR_HEADER),
    };
    let octets = Octets::of(alloc, part(octets, head, length as usize))?;
    Ok((Cdr { header, octets }, after))
}

/// The number in the four octets from a place on.
fn number_at(octets: &[u8], place: usize) -> u32
    requires { place + 4 ≤ length octets.now }
    ensures { result ≡ number_at 4 place octets.now }
{
    let (_, rest) = octets.split_at(place);
    BigEndian::read_u32(rest)
}

/// The number in the two octets from a place on.
fn length_at(octets: &[u8], place: usize) -> u16
    requires { place + 2 ≤ length octets.now }
    ensures { result ≡ number_at 2 place octets.now }
{
    let (_, rest) = octets.split_at(place);
    BigEndian::read_u16(rest)
}

/// So many octets from a place on.
fn part(octets: &[u8], place: usize, count: usize) -> &[u8]
    requires { place + count ≤ length octets.now }
    ensures { result.now ≡ take count (drop place octets.now) }
{
    let (_, rest) = octets.split_at(place);
    let (part, _) = rest.split_at(count);
    part
}
