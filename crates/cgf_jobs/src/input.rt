//! Reading an input to its end.

ghost use Rattle.std.specs.Prelude.{◌≡◌, ◌≢◌, ◌≤◌, ◌<◌, ◌+◌, length, vec_len, Err, IfOk, OnOk};
ghost use Rattle.gw_base.specs.Faults.{Rose};
ghost use Rattle.cgf_jobs.specs.Run.{IsRead, TakesUpTo};
ghost use Rattle.cgf_jobs.specs.Steps.{TakesPiece};

use gw_base::Source;
use std::alloc::Global;

/// Why an input was not read.
#[derive(Clone, Copy)]
pub enum ReadEnd {
    /// The source failed.
    Failed,
    /// There was no memory for the text.
    NoMemory,
}

/// How many octets a call takes at most.
const PIECE: usize = 16_384;

/// The octets that a source has left, or the first of them, where they are more than so many.
#[tactic(auto, using(crate::proofs::Streams::consumes_piece, crate::proofs::Streams::consumes_none, crate::proofs::Streams::rose_more, crate::proofs::Streams::takes_more, crate::proofs::Streams::takes_read))]
pub fn read_input<S: Source>(alloc: Global, source: &mut S, most: usize) -> Result<Vec<u8>, ReadEnd>
    ensures read { IfOk result (λ octets. IsRead most (S.left source.old) (S.left source.new) octets.items) }
    ensures taken { TakesUpTo most (S.left source.old) (S.left source.new) }
    ensures failed { result ≡ Err ReadEnd.Failed → Rose (S.faults source.old) (S.faults source.new) }
    ensures unfailed { result ≢ Err ReadEnd.Failed → S.faults source.new ≡ S.faults source.old }
    ensures unread { most ≡ 0 → source.new ≡ source.old }
{
    let mut octets = Vec::new(alloc);
    if most == 0 {
        return Ok(octets);
    }
    let mut piece = [0; PIECE];
    while octets.len() < most {
        if read_piece(source, &mut piece, most - octets.len(), &mut octets)? == 0 {
            return Ok(octets);
        }
    }
    Ok(octets)
}

/// Appends the next octets of a source to those before, at most so many, and says how many.
#[tactic(auto, using(crate::proofs::Streams::takes_kept, crate::proofs::Streams::takes_piece))]
fn read_piece<S: Source>(
    source: &mut S,
    piece: &mut [u8],
    wanted: usize,
    octets: &mut Vec<u8>,
) -> Result<usize, ReadEnd>
    requires piece { 0 < length piece.old }
    requires wanted { 0 < wanted }
    ensures taken { IfOk result (TakesPiece (S.left source.old) (S.left source.new) octets.old.items octets.new.items) }
    ensures bounded { OnOk result (vec_len octets.new ≤ vec_len octets.old + wanted) }
    ensures within { TakesUpTo wanted (S.left source.old) (S.left source.new) }
    ensures unfailed { result ≢ Err ReadEnd.Failed → S.faults source.new ≡ S.faults source.old }
    ensures failed { result ≡ Err ReadEnd.Failed → Rose (S.faults source.old) (S.faults source.new) }
{
    let room = piece.len().min(wanted);
    let (front, _) = piece.split_at_mut(room);
    match source.take(front) {
        Ok(count) => {
            let (taken, _) = front.split_at(count);
            match octets.extend_from_slice(taken) {
                Ok(()) => Ok(count),
                Err(_) => Err(ReadEnd::NoMemory),
            }
        }
        Err(_) => Err(ReadEnd::Failed),
    }
}
