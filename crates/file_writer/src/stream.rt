ghost use Rattle.std.specs.Prelude.{◌≡◌, ◌≢◌, ◌+◌, ◌<◌, ◌≤◌, ◌^◌, ℕ, List, IsTrue, IfOk, OnOk, Option, length, option_map};
ghost use Rattle.cdr_file.specs.ClosureReason.{code_of};
ghost use Rattle.cdr_file.specs.declared.closure.ClosureReason.{ClosureReason};
ghost use Rattle.file_rotate.specs.Items.{Filed, Record};
ghost use Rattle.gw_base.specs.CdrKind.{IsCdrKind};
ghost use Rattle.file_rotate.specs.Division.{cuts_at};
ghost use Rattle.file_writer.specs.Calls.{closed_by};
ghost use Rattle.file_writer.specs.Following.{IsBehind, IsSafe, Stays, StaysLeft, Takes, mark_item};
ghost use Rattle.file_writer.specs.Shutting.{BeginsShut, StaysShut};
ghost use Rattle.file_writer.specs.Streams.{stream_record};
ghost use Rattle.file_writer.specs.Writing.{settings_of, weight_of};

use crate::fault::ShelfFault;
use crate::gateway::Gateway;
use crate::progress::{FormedRecord, NextRecord, Progress, append, close};
use cdr_file::{ClosureReason, file_octets_law, run_facts_law};
use cdr_shelf::Shelf;
use file_rotate::{Cutter, cutter_keeps_the_run};
use gw_base::{Moment, Octets};

/// A stream of records: where it is cut, and how far its files have come.
#[derive(Clone, Copy)]
pub(crate) struct Stream {
    pub cutter: Cutter,
    pub file: Progress,
}

/// The reason that a code stands for.
fn reason_of(code: Option<u8>) -> Option<ClosureReason>
    ensures { (reason : Option ClosureReason) → code ≡ option_map code_of reason → result ≡ reason }
{
    match code? {
        1 => Some(ClosureReason::SizeLimit),
        2 => Some(ClosureReason::OpenTimeLimit),
        3 => Some(ClosureReason::CountLimit),
        4 => Some(ClosureReason::Manual),
        5 => Some(ClosureReason::KindChange),
        128 => Some(ClosureReason::Abnormal),
        129 => Some(ClosureReason::FileSystemError),
        130 => Some(ClosureReason::StorageExhausted),
        131 => Some(ClosureReason::IntegrityError),
        _ => Some(ClosureReason::Normal),
    }
}

/// Takes a record of the stream. After a fault the stream is as it may be.
pub(crate) fn put<F: Shelf>(
    shelf: &mut F,
    gateway: &Gateway,
    s: u8,
    stream: Stream,
    next: NextRecord<'_>,
) -> Result<Stream, ShelfFault>
    requires safe { IsSafe F.Shelf s stream shelf.old }
    requires kind { IsCdrKind next.kind }
    requires length { length next.octets.now < 2 ^ 16 }
    requires few { weight_of stream.file + 1 < 2 ^ 32 }
    ensures takes { (run : List (Filed (List ℕ))) → IsBehind F.Shelf s run stream shelf.old →
        Takes F.Shelf (settings_of gateway.now) s run
        (Record (stream_record stream.cutter.profile next.entry.kind next.entry.octets.now next.entry.moment))
        stream shelf.old shelf.new result }
    ensures safe { IfOk result (λ later. IsSafe F.Shelf s later shelf.new) }
    ensures few { IfOk result (λ later. weight_of later.file ≤ weight_of stream.file + 1) }
    ensures left { IfOk result (λ later. StaysLeft F.Shelf s stream.file later.file shelf.old shelf.new) }
    ensures others { IsTrue F.tells_files → OnOk result ((t : ℕ) → t ≢ s → Stays F.Shelf t shelf.old shelf.new) }
    ensures shut { (run : List (Filed (List ℕ))) → IsBehind F.Shelf s run stream shelf.old →
        let filed = stream_record stream.cutter.profile next.entry.kind next.entry.octets.now next.entry.moment in
        let cuts = cuts_at stream.cutter.limits run (Record filed) in
        BeginsShut F.Shelf s (closed_by cuts.before stream.file.closed + 1) shelf.old shelf.new }
{
    cutter_keeps_the_run::<Octets>();
    run_facts_law();
    file_octets_law();
    let Stream { mut cutter, file } = stream;
    let NextRecord {
        kind,
        octets,
        moment,
    } = next;
    let next = FormedRecord {
        kind: cutter.kind(kind),
        octets,
        moment,
    };
    let cut = cutter.put(kind, octets.len() as u16, moment);
    let file = close(shelf, gateway, s, file, reason_of(cut.before))?;
    let file = append(shelf, gateway, s, file, next)?;
    let file = close(shelf, gateway, s, file, reason_of(cut.after))?;
    Ok(Stream { cutter, file })
}

/// Takes a Close if `closes`, else a Tick. After a fault the stream is as it may be.
pub(crate) fn mark<F: Shelf>(
    shelf: &mut F,
    gateway: &Gateway,
    s: u8,
    stream: Stream,
    closes: bool,
    moment: Moment,
) -> Result<Stream, ShelfFault>
    requires safe { IsSafe F.Shelf s stream shelf.old }
    requires few { weight_of stream.file + 1 < 2 ^ 32 }
    ensures takes { (run : List (Filed (List ℕ))) → IsBehind F.Shelf s run stream shelf.old →
        Takes F.Shelf (settings_of gateway.now) s run (mark_item closes moment) stream shelf.old shelf.new result }
    ensures safe { IfOk result (λ later. IsSafe F.Shelf s later shelf.new) }
    ensures few { IfOk result (λ later. weight_of later.file ≤ weight_of stream.file) }
    ensures left { IfOk result (λ later. StaysLeft F.Shelf s stream.file later.file shelf.old shelf.new) }
    ensures others { IsTrue F.tells_files → OnOk result ((t : ℕ) → t ≢ s → Stays F.Shelf t shelf.old shelf.new) }
    ensures shut { StaysShut F.Shelf shelf.old shelf.new }
{
    cutter_keeps_the_run::<Octets>();
    let Stream { mut cutter, file } = stream;
    let cut = cutter.mark(closes, moment);
    let file = close(shelf, gateway, s, file, reason_of(cut.before))?;
    Ok(Stream { cutter, file })
}
