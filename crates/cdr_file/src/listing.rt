//! The listing of a CDR file, line by line.

ghost use Rattle.std.specs.Prelude.{◌≡◌, ◌<◌, ◌++◌, ◌∷◌, [], IfOk, OnOk};
ghost use Rattle.std.specs.Fmt.{decimal};
ghost use Rattle.hex.specs.Hex.{encode_upper};
ghost use Rattle.cdr_file.specs.Listing.{cdr_line, extra_line, file_line, head_lines, listing, octets_text, release_text, stamp_text, two_digits, words};

use crate::file::{Cdr, CdrFile};
use crate::file_header::FileHeader;
use crate::stamp_fields::StampFields;
use gw_base::NoMemory;
use gw_base::text::{append_number, append_word};
use std::alloc::Global;

/// The listing of a file: the lines of its head, and a line for each CDR. `NoMemory` where there was none for the text.
#[tactic(auto, using(crate::proofs::ListingLemmas::step_cdrs))]
pub fn list(alloc: Global, file: &CdrFile) -> Result<Vec<u8>, NoMemory>
    ensures { IfOk result (λ text. text.items ≡ listing file.now) }
{
    let mut text = head_lines(alloc, file)?;
    for (place, cdr) in file.cdrs.cdrs().iter().enumerate() {
        append_cdr(alloc, &mut text, place as u64 + 1, cdr)?;
    }
    Ok(text)
}

/// The line of a file's header, that of its routeing filter and that of its private extension, where
/// these aren't empty. `NoMemory` where there was none for the text.
pub fn head_lines(alloc: Global, file: &CdrFile) -> Result<Vec<u8>, NoMemory>
    ensures { IfOk result (λ text. text.items ≡ head_lines file.now) }
{
    let mut text = Vec::new(alloc);
    append_header(alloc, &mut text, &file.header)?;
    append_extra(alloc, &mut text, b"filter", file.filter.octets())?;
    append_extra(alloc, &mut text, b"extension", file.extension.octets())?;
    Ok(text)
}

/// The line of a CDR by its number among those of its file, from 1. `NoMemory` where there was none for the text.
pub fn cdr_line(alloc: Global, number: u64, cdr: &Cdr) -> Result<Vec<u8>, NoMemory>
    ensures { IfOk result (λ text. text.items ≡ cdr_line number cdr.now) }
{
    let mut text = Vec::new(alloc);
    append_cdr(alloc, &mut text, number, cdr)?;
    Ok(text)
}

/// Appends the line of the CDR with a number.
fn append_cdr(alloc: Global, text: &mut Vec<u8>, number: u64, cdr: &Cdr) -> Result<(), NoMemory>
    ensures { OnOk result (text.new.items ≡ text.old.items ++ cdr_line number cdr.now) }
{
    let header = cdr.header;
    text.extend_from_slice(b"cdr")?;
    append_number(alloc, text, number)?;
    append_number(alloc, text, header.length as u64)?;
    append_release(
        alloc,
        text,
        header.release,
        header.extension,
        header.version,
    )?;
    append_number(alloc, text, header.format as u64)?;
    append_number(alloc, text, header.ts as u64)?;
    append_octets(alloc, text, cdr.octets.octets())?;
    text.push(b'\n')?;
    Ok(())
}

/// Appends the line of a file's header.
fn append_header(alloc: Global, text: &mut Vec<u8>, header: &FileHeader) -> Result<(), NoMemory>
    ensures { OnOk result (text.new.items ≡ text.old.items ++ file_line header.now) }
{
    text.extend_from_slice(b"file")?;
    append_sizes(alloc, text, header)?;
    append_word(text, &stamp_text(header.opened))?;
    append_word(text, &stamp_text(header.appended))?;
    append_numbers(alloc, text, header)?;
    append_hex(alloc, text, &header.address)?;
    append_number(alloc, text, header.lost as u64)?;
    text.push(b'\n')?;
    Ok(())
}

/// Appends the lengths and releases of a file's header.
fn append_sizes(alloc: Global, text: &mut Vec<u8>, header: &FileHeader) -> Result<(), NoMemory>
    ensures { OnOk result (text.new.items ≡ text.old.items ++ words
        (decimal header.now.length
        ∷ decimal header.now.header_length
        ∷ release_text header.now.high_release header.now.high_extension header.now.high_version
        ∷ release_text header.now.low_release header.now.low_extension header.now.low_version
        ∷ [])) }
{
    append_number(alloc, text, header.length as u64)?;
    append_number(alloc, text, header.header_length as u64)?;
    append_release(
        alloc,
        text,
        header.high_release,
        header.high_extension,
        header.high_version,
    )?;
    append_release(
        alloc,
        text,
        header.low_release,
        header.low_extension,
        header.low_version,
    )?;
    Ok(())
}

/// Appends the count, the sequence number and the reason of a file's header.
fn append_numbers(alloc: Global, text: &mut Vec<u8>, header: &FileHeader) -> Result<(), NoMemory>
    ensures { OnOk result (text.new.items ≡ text.old.items ++ words
        (decimal header.now.count ∷ decimal header.now.sequence ∷ decimal header.now.reason ∷ [])) }
{
    append_number(alloc, text, header.count as u64)?;
    append_number(alloc, text, header.sequence as u64)?;
    append_number(alloc, text, header.reason as u64)?;
    Ok(())
}

/// Appends the line of octets that a header may have, if there are any.
fn append_extra(
    alloc: Global,
    text: &mut Vec<u8>,
    name: &[u8],
    octets: &[u8],
) -> Result<(), NoMemory>
    ensures { OnOk result (text.new.items ≡ text.old.items ++ extra_line name.now octets.now) }
{
    if octets.is_empty() {
        return Ok(());
    }
    text.extend_from_slice(name)?;
    append_hex(alloc, text, octets)?;
    text.push(b'\n')?;
    Ok(())
}

/// Appends the octets of a CDR in hexadecimal, or a dash where there are none, as a word.
fn append_octets(alloc: Global, text: &mut Vec<u8>, octets: &[u8]) -> Result<(), NoMemory>
    ensures { OnOk result (text.new.items ≡ text.old.items ++ 32 ∷ octets_text octets.now) }
{
    if octets.is_empty() {
        return append_word(text, b"-");
    }
    append_hex(alloc, text, octets)
}

/// Appends octets in hexadecimal, as a word.
fn append_hex(alloc: Global, text: &mut Vec<u8>, octets: &[u8]) -> Result<(), NoMemory>
    ensures { OnOk result (text.new.items ≡ text.old.items ++ 32 ∷ encode_upper octets.now) }
{
    let digits = hex::encode_upper(alloc, octets)?;
    append_word(text, digits.as_bytes())
}

/// Appends a release, with its extension where it has one, and a version, as a word.
fn append_release(
    alloc: Global,
    text: &mut Vec<u8>,
    release: u8,
    extension: Option<u8>,
    version: u8,
) -> Result<(), NoMemory>
    ensures { OnOk result (text.new.items ≡ text.old.items ++ 32 ∷ release_text release extension version) }
{
    let word = match extension {
        None => format!(in alloc; "{release}.{version}")?,
        Some(extension) => format!(in alloc; "{release}+{extension}.{version}")?,
    };
    append_word(text, word.as_bytes())
}

/// A timestamp as month, day, hour and minute, and the offset of its clock from UTC.
#[tactic(auto, unfolding(crate::specs::Listing::stamp_text))]
fn stamp_text(stamp: u32) -> [u8; 18]
    ensures { result ≡ stamp_text stamp }
{
    let fields = StampFields::of(stamp);
    let [month_tens, month] = two_digits(fields.month);
    let [day_tens, day] = two_digits(fields.day);
    let [hour_tens, hour] = two_digits(fields.hour);
    let [minute_tens, minute] = two_digits(fields.minute);
    let sign = if fields.sign == 1 { b'+' } else { b'-' };
    let [ahead_hour_tens, ahead_hour] = two_digits(fields.offset_hours);
    let [ahead_minute_tens, ahead_minute] = two_digits(fields.offset_minutes);
    [
        month_tens,
        month,
        b'-',
        day_tens,
        day,
        b'/',
        hour_tens,
        hour,
        b':',
        minute_tens,
        minute,
        b'/',
        sign,
        ahead_hour_tens,
        ahead_hour,
        b':',
        ahead_minute_tens,
        ahead_minute,
    ]
}

/// A number below 100, in two digits.
fn two_digits(number: u8) -> [u8; 2]
    requires { number < 100 }
    ensures { result ≡ two_digits number }
{
    [b'0' + number / 10, b'0' + number % 10]
}
