// Taking a piece into the message that has begun.
ghost use Rattle.std.specs.Prelude.{◌≡◌, ◌+◌, ◌≤◌, ◌++◌, None, length, min, take, vec_capacity};
ghost use Rattle.gtpp_header.specs.Reading.{header_reading};
ghost use Rattle.gtpp_stream.specs.Frames.{first_fault};
ghost use Rattle.gtpp_stream.specs.Taking.{IsBegun, Takes, lack_of};

use gtpp_header::{HEADER_OCTETS, HeadFault, read};

/// How many octets these lack of a header, or else of the message that it begins.
pub(crate) fn lack(octets: &[u8]) -> usize
    requires { length octets.now ≤ 65541 }
    ensures value { result ≡ lack_of (header_reading octets.now) (length octets.now) }
    ensures small { length octets.now + result ≤ 65541 }
{
    match read(octets) {
        Ok(_) => 0,
        Err(HeadFault::Short) => HEADER_OCTETS.saturating_sub(octets.len()),
        Err(HeadFault::NotPrime) => 0,
        Err(HeadFault::Version { .. }) => 0,
        Err(HeadFault::Cut { length }) => {
            (HEADER_OCTETS + usize::from(length)).saturating_sub(octets.len())
        }
    }
}

// Appends the first octets of a piece, at most so many, for which there is memory, and says how many.
fn append(octets: &mut Vec<u8>, piece: &[u8], most: usize) -> usize
    requires { length octets.old.items + most ≤ vec_capacity octets.old }
    ensures count { result ≡ min most (length piece.now) }
    ensures items { octets.new.items ≡ octets.old.items ++ take result piece.now }
    ensures capacity { vec_capacity octets.old ≤ vec_capacity octets.new }
{
    let count = most.min(piece.len());
    let (front, _) = piece.split_at(count);
    match octets.extend_from_slice(front) {
        Ok(()) => {}
        Err(_) => unreachable!(),
    }
    count
}

/// Takes in the octets of a piece up to the end of the message that has begun, or all of them, and says how many.
pub(crate) fn take_in(octets: &mut Vec<u8>, piece: &[u8]) -> usize
    requires begun { IsBegun octets.old.items }
    requires good { first_fault (octets.old.items ++ piece.now) ≡ None }
    requires small { length octets.old.items ≤ 65541 }
    requires room { 65541 ≤ vec_capacity octets.old }
    ensures takes { Takes piece.now result octets.old.items octets.new.items }
    ensures small { length octets.new.items ≤ 65541 }
    ensures room { vec_capacity octets.old ≤ vec_capacity octets.new }
{
    let lacking = lack(octets);
    let head = append(octets, piece, lacking);
    let (_, rest) = piece.split_at(head);
    let lacking = lack(octets);
    head + append(octets, rest, lacking)
}
