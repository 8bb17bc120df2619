// Reads and writes that a signal interrupts, and that are made again.
ghost use Rattle.std.specs.Io.{ReadsAtMost, WritesAtMost};
ghost use Rattle.std.specs.Io.KnownBytes.{ReadConsumes, WriteAppends};

use std::io;
use std::io::{ErrorKind, Read, Write};

/// Reads, again where a signal interrupts it: such a call took nothing.
#[tactic(auto, using(crate::proofs::Interrupted::kept_twice, crate::proofs::Interrupted::kept_consumes))]
pub fn read_again<R: Read>(reader: &mut R, into: &mut [u8]) -> io::Result<usize>
    ensures bound { ReadsAtMost result into.new }
    ensures read { ReadConsumes (R.remaining reader.old) (R.remaining reader.new) result into.new }
{
    'tries: for _ in 0..u64::MAX {
        match reader.read(into) {
            Ok(count) => return Ok(count),
            Err(error) => {
                if error.kind() != ErrorKind::Interrupted {
                    return Err(error);
                }
            }
        }
    }
    Err(io::Error::from(ErrorKind::TimedOut))
}

/// Writes, again where a signal interrupts it: such a call wrote nothing.
#[tactic(auto, using(crate::proofs::Interrupted::kept_twice, crate::proofs::Interrupted::kept_appends))]
pub fn write_again<W: Write>(writer: &mut W, from: &[u8]) -> io::Result<usize>
    ensures bound { WritesAtMost result from.now }
    ensures written { WriteAppends (W.contents writer.old) (W.contents writer.new) result from.now }
{
    'tries: for _ in 0..u64::MAX {
        match writer.write(from) {
            Ok(count) => return Ok(count),
            Err(error) => {
                if error.kind() != ErrorKind::Interrupted {
                    return Err(error);
                }
            }
        }
    }
    Err(io::Error::from(ErrorKind::TimedOut))
}
