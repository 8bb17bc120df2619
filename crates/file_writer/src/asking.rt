//! What a writer asks of a shelf when it recovers.
ghost use Rattle.std.specs.Prelude.{◌≡◌, ◌<◌, IsTrue, IfErr, IfOk, OnOk, is_err, length};
ghost use Rattle.cdr_shelf.specs.Files.{greatest_in};
ghost use Rattle.cdr_file.specs.Profile.{IsProfile};
ghost use Rattle.file_rotate.specs.Items.{AreLimits};
ghost use Rattle.file_writer.specs.Asking.{HasAsked, IsAsked, IsFreshStream};
ghost use Rattle.file_writer.specs.Streams.{stream_count};
ghost use Rattle.file_writer.specs.declared.fault.ShelfFault.TheVariants.{Device};

use crate::fault::ShelfFault;
use crate::progress::Progress;
use crate::stream::Stream;
use cdr_shelf::Shelf;
use file_rotate::{Cutter, Limits};

/// A stream with so many closed files, by what is sealed of it.
fn fresh_stream<F: Shelf>(
    shelf: &mut F,
    limits: Limits,
    profile: u8,
    s: u8,
    closed: u32,
) -> Result<Stream, ShelfFault>
    requires limits { AreLimits limits }
    requires profile { IsProfile profile }
    ensures fresh { IfOk result (λ stream. IsFreshStream limits profile closed stream) }
    ensures greatest { IsTrue F.tells_files →
        IfOk result (λ stream. stream.file.sealed ≡ greatest_in s (F.files shelf.old)) }
    ensures asked { IsAsked F.Shelf (is_err result) shelf.old shelf.new }
    ensures cause { IfErr result (λ fault. fault ≡ Device) }
{
    match shelf.sealed(s) {
        Ok(sealed) => Ok(Stream {
            cutter: Cutter::new(limits, profile),
            file: Progress {
                growing: None,
                closed,
                sealed,
            },
        }),
        Err(_) => Err(ShelfFault::Device),
    }
}

/// All streams begin anew, with so many closed files each.
pub(crate) fn ask_all<F: Shelf>(
    shelf: &mut F,
    limits: Limits,
    profile: u8,
    sequences: &[u32],
    streams: &mut [Stream],
) -> Result<(), ShelfFault>
    requires limits { AreLimits limits }
    requires profile { IsProfile profile }
    requires sixteen { length streams.old ≡ stream_count }
    requires each { length sequences.now ≡ stream_count }
    ensures asked { IsAsked F.Shelf (is_err result) shelf.old shelf.new }
    ensures cause { IfErr result (λ fault. fault ≡ Device) }
    ensures fresh { OnOk result
        (HasAsked F.Shelf limits profile sequences.now stream_count streams.new shelf.old shelf.new) }
{
    for s in 0..16u8 {
        streams[s as usize] = fresh_stream(shelf, limits, profile, s, sequences[s as usize])?;
    }
    Ok(())
}
