//! The calls for one file: it is begun, records are appended, and it is closed.
ghost use Rattle.std.specs.Prelude.{◌≡◌, ◌+◌, ◌-◌, ◌<◌, ◌^◌, IsTrue, OnOk, None, [], ◌∷◌, length};
ghost use Rattle.cdr_file.specs.CdrFile.{cdr_octets};
ghost use Rattle.cdr_shelf.specs.Files.{IsFresh, greatest_in};
ghost use Rattle.cdr_shelf.specs.Steps.{StepsAt};
ghost use Rattle.cdr_file.specs.Profile.{IsFiledKind};
ghost use Rattle.file_writer.specs.Calls.{Writes, Seals};
ghost use Rattle.file_writer.specs.Making.{Makes, ending_of};
ghost use Rattle.file_writer.specs.Shutting.{BeginsShut, StaysShut};
ghost use Rattle.file_writer.specs.Writing.{IsOpenAt, OthersStay, appended, closed_file, settings_of, HasLength};

use crate::fault::ShelfFault;
use crate::gateway::Gateway;
use crate::shelf_calls::{begin, seal, sync, write};
use cdr_file::{
    CdrHeader, ClosureReason, FiledKind, RunFacts, cdr_header_length, run_header, write_cdr,
};
use cdr_shelf::{FileName, Shelf};

/// Begins a file, with a header that says its first record alone.
pub(crate) fn begin_file<F: Shelf>(
    shelf: &mut F,
    gateway: &Gateway,
    name: FileName,
    first: &RunFacts,
) -> Result<(), ShelfFault>
    requires fresh { IsTrue F.tells_files → IsFresh name (F.files shelf.old) }
    requires kind { IsFiledKind first.now.kind }
    ensures makes { Makes F.Shelf (Writes ∷ Writes ∷ []) (ending_of result) shelf.old shelf.new }
    ensures open { IsTrue F.tells_files →
        OnOk result (IsOpenAt name first.now.kind 0 (F.unsealed shelf.new name.stream)) }
    ensures others { IsTrue F.tells_files →
        OnOk result (OthersStay name.stream (F.unsealed shelf.old) (F.unsealed shelf.new)) }
    ensures shut { greatest_in name.stream (F.files shelf.old) < name.sequence →
        BeginsShut F.Shelf name.stream name.sequence shelf.old shelf.new }
{
    begin(shelf, name)?;
    let header = run_header(
        *first,
        name.sequence,
        ClosureReason::Normal,
        gateway.offset,
        gateway.address,
    );
    write(shelf, name.stream, 0, header.octets())
}

/// Appends a record to the file of a stream, which has so many octets.
pub(crate) fn append_cdr<F: Shelf>(
    shelf: &mut F,
    stream: u8,
    at: u32,
    kind: FiledKind,
    octets: &[u8],
) -> Result<(), ShelfFault>
    requires end { IsTrue F.tells_files → HasLength at (F.unsealed shelf.old stream) }
    requires room { at + 5 < 2 ^ 32 }
    requires length { length octets.now < 2 ^ 16 }
    requires kind { IsFiledKind kind }
    ensures makes { Makes F.Shelf (Writes ∷ Writes ∷ []) (ending_of result) shelf.old shelf.new }
    ensures appended { IsTrue F.tells_files → OnOk result (StepsAt stream
        (appended (cdr_octets (record { kind = kind; octets = octets.now; moment = 0 })))
        (F.unsealed shelf.old) (F.unsealed shelf.new)) }
    ensures shut { StaysShut F.Shelf shelf.old shelf.new }
{
    let header = write_cdr(CdrHeader {
        length: octets.len() as u16,
        release: kind.release,
        version: kind.version,
        format: kind.format,
        ts: 0,
        extension: kind.extension,
    });
    write(shelf, stream, at, header.octets())?;
    write(shelf, stream, at + cdr_header_length(kind), octets)
}

/// Closes the file of some records for a reason: its header is written again, and it is sealed.
pub(crate) fn close_file<F: Shelf>(
    shelf: &mut F,
    gateway: &Gateway,
    name: FileName,
    run: RunFacts,
    reason: ClosureReason,
) -> Result<(), ShelfFault>
    requires open { IsTrue F.tells_files → IsOpenAt name run.kind run.octets (F.unsealed shelf.old name.stream) }
    requires kind { IsFiledKind run.kind }
    ensures makes { let file =
        closed_file (settings_of gateway.now) name reason (Some run) (F.unsealed shelf.old name.stream) in
        Makes F.Shelf (Writes ∷ Writes ∷ Seals file ∷ []) (ending_of result) shelf.old shelf.new }
    ensures gone { IsTrue F.tells_files → OnOk result (F.unsealed shelf.new name.stream ≡ None) }
    ensures others { IsTrue F.tells_files →
        OnOk result (OthersStay name.stream (F.unsealed shelf.old) (F.unsealed shelf.new)) }
    ensures shut { StaysShut F.Shelf shelf.old shelf.new }
{
    let header = run_header(run, name.sequence, reason, gateway.offset, gateway.address);
    write(shelf, name.stream, 0, header.octets())?;
    sync(shelf, name.stream)?;
    seal(shelf, name.stream)
}
