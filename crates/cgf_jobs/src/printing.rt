//! The lines that `feed` prints.
ghost use Rattle.std.specs.Prelude.{◌≡◌, ◌+◌, ◌-◌, ◌*◌, ◌^◌, ◌≤◌, ◌++◌, ◌∷◌, [], OnOk, length, min, vec_capacity};
ghost use Rattle.std.specs.List.{flat_map};
ghost use Rattle.cdr_shelf.specs.Files.{file_of, in_stream};
ghost use Rattle.replay_gateway.specs.GatewayReport.{counts_text, file_line, file_name};
ghost use Rattle.cgf_jobs.specs.FeedReport.{lines_size, octets_line};
ghost use Rattle.cgf_jobs.specs.Steps.{outcome_line};

use cdr_shelf::{FileName, QuietShelf, Shelf};
use gateway_book::{GatewayCounts, Outcome};
use gw_base::{NoMemory, Octets};
use std::alloc::Global;

/// The digits of numbers in hexadecimal.
const DIGITS: &[u8; 16] = b"0123456789ABCDEF";

/// Appends the reply to a datagram, or why it isn't answered.
pub fn print_outcome(printed: &mut Vec<u8>, outcome: &Outcome) -> Result<(), NoMemory>
    ensures { OnOk result (printed.new.items ≡ printed.old.items ++ outcome_line outcome.now) }
{
    match outcome {
        Outcome::Answer(receipt) => print_octets(printed, receipt.reply.octets()),
        Outcome::Drop(why) => {
            printed.extend_from_slice(b"- ")?;
            printed.extend_from_slice(why.name().as_bytes())?;
            printed.push(b'\n')?;
            Ok(())
        }
    }
}

/// Appends octets in hexadecimal, as a line.
fn print_octets(printed: &mut Vec<u8>, octets: &[u8]) -> Result<(), NoMemory>
    ensures { OnOk result (printed.new.items ≡ printed.old.items ++ octets_line octets.now) }
{
    let start = printed.len();
    // Past 64 bits it is the greatest number, for which `resize` has no room.
    let end = octets.len().saturating_mul(2).saturating_add(start + 1);
    printed.resize(end, 0)?;
    let (_, line) = printed.as_mut_slice().split_at_mut(start);
    spell_line(line, octets);
    Ok(())
}

/// Writes octets in hexadecimal, as a line.
fn spell_line(line: &mut [u8], octets: &[u8])
    requires { length line.old ≡ 2 * length octets.now + 1 }
    ensures { line.new ≡ octets_line octets.now }
{
    'octets: for k in 0..octets.len() {
        let octet = octets[k];
        line[2 * k] = DIGITS[(octet >> 4) as usize];
        line[2 * k + 1] = DIGITS[(octet & 0x0F) as usize];
    }
    line[2 * octets.len()] = b'\n';
}

/// Takes room for the lines of all files at once, so that what was printed isn't copied again and again.
pub fn make_room(printed: &mut Vec<u8>, shelf: &QuietShelf) -> Result<(), NoMemory>
    ensures same { printed.new.items ≡ printed.old.items }
    ensures room { OnOk result (length printed.new.items
        + lines_size (⟦<QuietShelf as Shelf>⟧.files shelf.now) ≤ vec_capacity printed.new) }
{
    let mut size: usize = 0;
    let mut at = 0;
    while let Some(file) = shelf.nth(at) {
        size = size.saturating_add(line_size(file.1.len()));
        at += 1;
    }
    printed.reserve(size)?;
    Ok(())
}

/// How many octets the line of a file of so many has: its digits, and those of `file 1 `, of the name, of a space and
/// of the line feed.
fn line_size(octets: usize) -> usize
    ensures { result ≡ min (2 * octets + 26) (2 ^ 64 - 1) }
{
    octets.saturating_mul(2).saturating_add(26)
}

/// Appends the lines of the sealed files of a stream, in the order in which they were sealed.
pub fn print_stream(
    alloc: Global,
    printed: &mut Vec<u8>,
    shelf: &QuietShelf,
    stream: u8,
) -> Result<(), NoMemory>
    ensures { OnOk result (printed.new.items ≡
        printed.old.items ++ flat_map (file_line 0) (in_stream stream (⟦<QuietShelf as Shelf>⟧.files shelf.now))) }
{
    let mut at = 0;
    while let Some((name, octets)) = shelf.nth(at) {
        print_if_in(alloc, printed, stream, name, octets)?;
        at += 1;
    }
    Ok(())
}

/// Appends the line of a file, where it is one of the stream.
fn print_if_in(
    alloc: Global,
    printed: &mut Vec<u8>,
    stream: u8,
    name: FileName,
    octets: &[u8],
) -> Result<(), NoMemory>
    ensures { OnOk result (printed.new.items ≡
        printed.old.items ++ flat_map (file_line 0) (in_stream stream (file_of name octets.now ∷ []))) }
{
    if name.stream == stream {
        print_file(alloc, printed, name, octets)?;
    }
    Ok(())
}

/// Appends the line of a file.
fn print_file(
    alloc: Global,
    printed: &mut Vec<u8>,
    name: FileName,
    octets: &[u8],
) -> Result<(), NoMemory>
    ensures { OnOk result (printed.new.items ≡ printed.old.items ++ file_line 0 (file_of name octets.now)) }
{
    printed.extend_from_slice(b"file 1 ")?;
    print_name(alloc, printed, name)?;
    printed.push(b' ')?;
    print_octets(printed, octets)?;
    Ok(())
}

/// Appends the name of a file.
fn print_name(alloc: Global, printed: &mut Vec<u8>, name: FileName) -> Result<(), NoMemory>
    ensures { OnOk result (printed.new.items ≡ printed.old.items ++ file_name name) }
{
    let mut text = Octets::from_vec(Vec::new(alloc));
    replay_gateway::print_name(&mut text, name)?;
    printed.extend_from_slice(text.octets())?;
    Ok(())
}

/// Appends the line of a gateway's counts. The only gateway is the first.
pub fn print_counts(
    alloc: Global,
    printed: &mut Vec<u8>,
    counts: GatewayCounts,
) -> Result<(), NoMemory>
    ensures { OnOk result (printed.new.items ≡ printed.old.items ++ counts_text 0 counts) }
{
    let mut line = Octets::from_vec(Vec::new(alloc));
    replay_gateway::print_counts(alloc, &mut line, 0, counts)?;
    printed.extend_from_slice(line.octets())?;
    Ok(())
}
