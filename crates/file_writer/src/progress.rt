ghost use Rattle.std.specs.Prelude.{◌≡◌, ◌+◌, ◌-◌, ◌<◌, ◌≤◌, ◌^◌, IsTrue, IfOk, OnOk, length, max, false};
ghost use Rattle.cdr_shelf.specs.Files.{IsFresh, greatest_in};
ghost use Rattle.cdr_file.specs.CdrFile.{header_length};
ghost use Rattle.cdr_file.specs.Profile.{IsFiledKind};
ghost use Rattle.file_writer.specs.Making.{Makes, ending_of};
ghost use Rattle.file_writer.specs.Shutting.{BeginsShut, StaysShut};
ghost use Rattle.file_writer.specs.Writing.{ClosesOpen, HasKind, IsBounded, IsReady, OthersStay, StillOpen, appending_of, beginning_of, body_length, closed_progress, closing_of, filed_of, grown, grown_facts, IsBegun, IsGrown, ReadyWhere, kind_with, settings_of};

use crate::fault::ShelfFault;
use crate::gateway::Gateway;
use crate::one_file::{append_cdr, begin_file, close_file};
use cdr_file::{ClosureReason, FiledKind, RunFacts, cdr_header_length, header_length};
use cdr_shelf::{FileName, Shelf};
use gw_base::{CdrKind, Moment};

/// How far the files of a stream have come.
#[derive(Clone, Copy)]
pub(crate) struct Progress {
    /// What the header of the open file is to say of its records so far, if a file is open.
    pub growing: Option<RunFacts>,
    /// How many files are closed.
    pub closed: u32,
    /// The greatest number of a file that was sealed before.
    pub sealed: u32,
}

/// A record that is to be filed.
#[derive(Clone, Copy)]
pub(crate) struct NextRecord<'a> {
    pub kind: CdrKind,
    pub octets: &'a [u8],
    pub moment: Moment,
}

/// The same, its kind in the form of the file's profile.
#[derive(Clone, Copy)]
pub(crate) struct FormedRecord<'a> {
    pub kind: FiledKind,
    pub octets: &'a [u8],
    pub moment: Moment,
}

/// What the header of a file is to say with one more record.
fn with_record(
    growing: &Option<RunFacts>,
    kind: FiledKind,
    octets: &[u8],
    moment: Moment,
) -> RunFacts
    requires length { length octets.now < 2 ^ 16 }
    requires bounded { IsBounded growing.now }
    ensures { result ≡ grown_facts growing.now (filed_of kind octets.now moment) }
{
    let octets = cdr_header_length(kind) as u64 + octets.len() as u64;
    match growing {
        None => RunFacts {
            kind,
            opened: moment,
            appended: moment,
            count: 1,
            octets,
        },
        Some(run) => RunFacts {
            kind: run.kind,
            opened: run.opened,
            appended: moment,
            count: run.count + 1,
            octets: run.octets + octets,
        },
    }
}

/// How many octets the open file of these records has.
fn length_of(run: RunFacts) -> u32
    requires { run.octets < 2 ^ 32 - 2 ^ 17 }
    ensures length { result ≡ header_length run.kind + run.octets }
    ensures most { result ≤ 54 + run.octets }
{
    header_length(run.kind) + run.octets as u32
}

/// Begins the file of a stream where none is open. It answers how many octets the open file has.
fn end_of_file<F: Shelf>(
    shelf: &mut F,
    gateway: &Gateway,
    name: FileName,
    growing: Option<RunFacts>,
    next: &RunFacts,
) -> Result<u32, ShelfFault>
    requires fresh { IsTrue F.tells_files → IsFresh name (F.files shelf.old) }
    requires ready { IsTrue F.tells_files → ReadyWhere false name growing (F.unsealed shelf.old name.stream) }
    requires kind { IsFiledKind next.now.kind }
    requires bounded { IsBounded growing }
    ensures makes { Makes F.Shelf (beginning_of growing) (ending_of result) shelf.old shelf.new }
    ensures end { IfOk result (λ at. at ≡ header_length (kind_with growing next.now.kind) + body_length growing) }
    ensures most { IfOk result (λ at. at ≤ 54 + body_length growing) }
    ensures stands { IsTrue F.tells_files → OnOk result (IsBegun name next.now.kind growing
        (F.unsealed shelf.old name.stream) (F.unsealed shelf.new name.stream)) }
    ensures others { IsTrue F.tells_files →
        OnOk result (OthersStay name.stream (F.unsealed shelf.old) (F.unsealed shelf.new)) }
    ensures shut { greatest_in name.stream (F.files shelf.old) < name.sequence →
        BeginsShut F.Shelf name.stream name.sequence shelf.old shelf.new }
{
    match growing {
        None => {
            begin_file(shelf, gateway, name, next)?;
            Ok(header_length(next.kind))
        }
        Some(run) => Ok(length_of(run)),
    }
}

/// Appends a record to the open file of a stream, which it begins where none is open. A file that was sealed before
/// gets no call.
pub(crate) fn append<F: Shelf>(
    shelf: &mut F,
    gateway: &Gateway,
    stream: u8,
    file: Progress,
    next: FormedRecord<'_>,
) -> Result<Progress, ShelfFault>
    requires fresh { IsTrue F.tells_files → greatest_in stream (F.files shelf.old) ≤ max file.closed file.sealed }
    requires ready { IsTrue F.tells_files → IsReady stream file (F.unsealed shelf.old stream) }
    requires kind { IsFiledKind next.kind }
    requires length { length next.octets.now < 2 ^ 16 }
    requires bounded { IsBounded file.growing }
    requires few { file.closed + 1 < 2 ^ 32 }
    ensures makes { Makes F.Shelf (appending_of file) (ending_of result) shelf.old shelf.new }
    ensures grown { IfOk result (λ later.
        later ≡ grown file (filed_of next.entry.kind next.entry.octets.now next.entry.moment)) }
    ensures stands { IsTrue F.tells_files → OnOk result (IsGrown stream file
        (filed_of next.entry.kind next.entry.octets.now next.entry.moment)
        (F.unsealed shelf.old stream) (F.unsealed shelf.new stream)) }
    ensures others { IsTrue F.tells_files →
        OnOk result (OthersStay stream (F.unsealed shelf.old) (F.unsealed shelf.new)) }
    ensures shut { BeginsShut F.Shelf stream (file.closed + 1) shelf.old shelf.new }
{
    let Progress {
        growing,
        closed,
        sealed,
    } = file;
    let FormedRecord {
        kind,
        octets,
        moment,
    } = next;
    let run = with_record(&growing, kind, octets, moment);
    let sequence = closed + 1;
    if sequence <= sealed {
        return Ok(Progress {
            growing: Some(run),
            closed,
            sealed,
        });
    }
    let name = FileName { stream, sequence };
    let at = end_of_file(shelf, gateway, name, growing, &run)?;
    append_cdr(shelf, stream, at, kind, octets)?;
    Ok(Progress {
        growing: Some(run),
        closed,
        sealed,
    })
}

/// Closes the open file of a stream, if there is a reason to. A file that was sealed before gets no call.
pub(crate) fn close<F: Shelf>(
    shelf: &mut F,
    gateway: &Gateway,
    stream: u8,
    file: Progress,
    reason: Option<ClosureReason>,
) -> Result<Progress, ShelfFault>
    requires ready { IsTrue F.tells_files → IsReady stream file (F.unsealed shelf.old stream) }
    requires open { ClosesOpen reason file.growing }
    requires kind { HasKind file.growing }
    requires few { file.closed + 1 < 2 ^ 32 }
    ensures makes { Makes F.Shelf
        (closing_of (settings_of gateway.now) stream file (F.unsealed shelf.old stream) reason)
        (ending_of result) shelf.old shelf.new }
    ensures closed { IfOk result (λ later. later ≡ closed_progress reason file) }
    ensures still { IsTrue F.tells_files →
        OnOk result (StillOpen reason file (F.unsealed shelf.old stream) (F.unsealed shelf.new stream)) }
    ensures others { IsTrue F.tells_files →
        OnOk result (OthersStay stream (F.unsealed shelf.old) (F.unsealed shelf.new)) }
    ensures shut { StaysShut F.Shelf shelf.old shelf.new }
{
    let Progress {
        growing,
        closed,
        sealed,
    } = file;
    let Some(reason) = reason else {
        return Ok(Progress {
            growing,
            closed,
            sealed,
        });
    };
    let Some(run) = growing else {
        unreachable!();
    };
    let sequence = closed + 1;
    let later = Progress {
        growing: None,
        closed: sequence,
        sealed,
    };
    if sequence <= sealed {
        return Ok(later);
    }
    close_file(shelf, gateway, FileName { stream, sequence }, run, reason)?;
    Ok(later)
}
