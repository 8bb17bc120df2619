//! The calls of a shelf, each as one of a list of calls.
ghost use Rattle.std.specs.Prelude.{◌≡◌, ◌<◌, IsTrue, IsSome, OnOk, [], ◌∷◌};
ghost use Rattle.cdr_shelf.specs.Files.{IsFresh, SealedFile, greatest_in, sealed_as};
ghost use Rattle.cdr_shelf.specs.Steps.{StepsAt, TakesWrite, begun, left_unsealed, synced, written};
ghost use Rattle.file_writer.specs.Calls.{Writes, Seals};
ghost use Rattle.file_writer.specs.Making.{Makes, ending_of};
ghost use Rattle.file_writer.specs.Shutting.{BeginsShut, StaysShut};

use crate::fault::ShelfFault;
use cdr_shelf::{FileName, Shelf, ShelfStop};

/// Begins a file.
pub(crate) fn begin<F: Shelf>(shelf: &mut F, name: FileName) -> Result<(), ShelfFault>
    requires { IsTrue F.tells_files → IsFresh name (F.files shelf.old) }
    ensures makes { Makes F.Shelf (Writes ∷ []) (ending_of result) shelf.old shelf.new }
    ensures begun { IsTrue F.tells_files →
        OnOk result (StepsAt name.stream (begun name) (F.unsealed shelf.old) (F.unsealed shelf.new)) }
    ensures shut { greatest_in name.stream (F.files shelf.old) < name.sequence →
        BeginsShut F.Shelf name.stream name.sequence shelf.old shelf.new }
{
    match shelf.begin(name) {
        Ok(()) => Ok(()),
        Err(ShelfStop::Failed) => Err(ShelfFault::Device),
        Err(ShelfStop::NoMemory) => Err(ShelfFault::NoMemory),
    }
}

/// Writes octets into the unsealed file of a stream.
pub(crate) fn write<F: Shelf>(
    shelf: &mut F,
    stream: u8,
    at: u32,
    from: &[u8],
) -> Result<(), ShelfFault>
    requires { IsTrue F.tells_files → TakesWrite at (F.unsealed shelf.old stream) }
    ensures makes { Makes F.Shelf (Writes ∷ []) (ending_of result) shelf.old shelf.new }
    ensures written { IsTrue F.tells_files →
        OnOk result (StepsAt stream (written at from.now) (F.unsealed shelf.old) (F.unsealed shelf.new)) }
    ensures shut { StaysShut F.Shelf shelf.old shelf.new }
{
    match shelf.write_at(stream, at, from) {
        Ok(()) => Ok(()),
        Err(ShelfStop::Failed) => Err(ShelfFault::Device),
        Err(ShelfStop::NoMemory) => Err(ShelfFault::NoMemory),
    }
}

/// Waits until the unsealed file of a stream stands.
pub(crate) fn sync<F: Shelf>(shelf: &mut F, stream: u8) -> Result<(), ShelfFault>
    requires { IsTrue F.tells_files → IsSome (F.unsealed shelf.old stream) }
    ensures makes { Makes F.Shelf (Writes ∷ []) (ending_of result) shelf.old shelf.new }
    ensures synced { IsTrue F.tells_files →
        OnOk result (StepsAt stream synced (F.unsealed shelf.old) (F.unsealed shelf.new)) }
    ensures shut { StaysShut F.Shelf shelf.old shelf.new }
{
    match shelf.sync(stream) {
        Ok(()) => Ok(()),
        Err(_) => Err(ShelfFault::Device),
    }
}

/// Seals the unsealed file of a stream, which is synced.
pub(crate) fn seal<F: Shelf>(shelf: &mut F, stream: u8) -> Result<(), ShelfFault>
    requires { IsTrue F.tells_files → IsSome (F.unsealed shelf.old stream) }
    ensures makes { (file : SealedFile) → (IsTrue F.tells_files → sealed_as (F.unsealed shelf.old stream) ≡ file ∷ [])
        → Makes F.Shelf (Seals file ∷ []) (ending_of result) shelf.old shelf.new }
    ensures ended { IsTrue F.tells_files →
        OnOk result (StepsAt stream left_unsealed (F.unsealed shelf.old) (F.unsealed shelf.new)) }
    ensures shut { (file : SealedFile) → sealed_as (F.unsealed shelf.old stream) ≡ file ∷ []
        → file.name.stream ≡ stream → StaysShut F.Shelf shelf.old shelf.new }
{
    match shelf.seal(stream) {
        Ok(()) => Ok(()),
        Err(_) => Err(ShelfFault::Device),
    }
}
