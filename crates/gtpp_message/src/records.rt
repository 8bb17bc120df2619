//! The records of a packet, one after the other, each behind its length in two octets
//! (3GPP TS 32.295, clause 6.2.4.5).

ghost use Rattle.std.specs.Prelude.{◌≡◌, ◌<◌, [], ◌∷◌, IfSome, MatchOption, is_some, length, option_map, true};
ghost use Rattle.gtpp_message.specs.Packet.{behind, lent_parts, nth_record, record_at, records_at, records_in};
ghost use Rattle.gtpp_message.specs.Values.{lent};

use byteorder::{BigEndian, ByteOrder};
use std::marker::Model;

/// The records of a packet that are still to be lent, in their order.
#[derive(Drop)]
pub struct Records<'a> {
    left: u8,
    octets: &'a [u8],
}

impl<'a> Model for Records<'a> {
    ghost use Rattle.std.specs.Prelude.{◌≡◌, ℕ, List, is_some, true};
    ghost use Rattle.gtpp_message.specs.Packet.{records_at, records_in};

    ghost Value = { List (List ℕ) };

    ghost view = { λ r. records_in r.left r.octets.now };

    ghost invariant = { λ r. is_some (records_at r.left r.octets.now) ≡ true };
}

impl<'a> Records<'a> {
    /// So many records, with nothing behind the last.
    pub(crate) fn of(count: u8, octets: &'a [u8]) -> Records<'a>
        requires { is_some (records_at count octets.now) ≡ true }
        ensures { result ≡ records_in count octets.now }
    {
        Records {
            left: count,
            octets,
        }
    }

    /// Lends the first of the records that are left, and leaves the rest. It is `None` where none
    /// is left.
    pub fn next(&mut self) -> Option<&'a [u8]>
        ensures first { MatchOption result ((self.old ≡ []) × (self.new ≡ []))
            (λ first. self.old ≡ first.now ∷ self.new) }
        ensures short { IfSome result (λ first. length first.now < 65536) }
    {
        if self.left == 0 {
            return None;
        }
        let Some((record, behind)) = first_record(self.octets) else {
            unreachable!()
        };
        self.left -= 1;
        self.octets = behind;
        Some(record)
    }
}

/// Whether the octets are so many records, with nothing behind the last.
#[tactic(auto, using(crate::proofs::PacketLemmas::are_records))]
pub fn are_records(count: u8, octets: &[u8]) -> bool
    ensures { result ≡ is_some (records_at count octets.now) }
{
    match behind(count, octets) {
        Some(rest) => rest.is_empty(),
        None => false,
    }
}

/// What follows so many records; `None` where there are fewer.
#[tactic(auto, using(crate::proofs::PacketLemmas::one_behind, crate::proofs::PacketLemmas::none_behind))]
fn behind(count: u8, octets: &[u8]) -> Option<&[u8]>
    ensures { lent result ≡ behind count octets.now }
{
    let mut rest = octets;
    let mut left = count;
    while left > 0 {
        let (_, later) = first_record(rest)?;
        left -= 1;
        rest = later;
    }
    Some(rest)
}

/// The record at the front, behind its length in two octets, and what follows it.
fn first_record(octets: &[u8]) -> Option<(&[u8], &[u8])>
    ensures parts { option_map lent_parts result ≡ record_at octets.now }
    ensures short { IfSome result (λ parts. length parts.0.now < 65536) }
{
    let &[high, low, ref rest @ ..] = octets else {
        return None;
    };
    let length = usize::from(BigEndian::read_u16(&[high, low]));
    if rest.len() < length {
        return None;
    }
    Some(rest.split_at(length))
}

/// The k-th of the records that stand one after the other, counted from 0.
#[tactic(auto, using(crate::proofs::PacketLemmas::nth_behind_k))]
pub fn nth_record(k: u8, octets: &[u8]) -> Option<&[u8]>
    ensures part { lent result ≡ nth_record k octets.now }
    ensures short { IfSome result (λ part. length part.now < 65536) }
{
    let (record, _) = first_record(behind(k, octets)?)?;
    Some(record)
}
