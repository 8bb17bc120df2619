//! Kinds of records, numbers of requests, and values of BER.
//!
//! - `kind FORMAT VERSION`: what the header of a CDR says of a record of this format and these two octets of a version.
//! - `near TOP WIRE`: the number that 16 bits mean where TOP, or `none`, is the greatest.
//! - `ber OCTETS`, `identifier OCTETS`: the outer tag of the one value, or identifier, that the octets are.

ghost use Rattle.std.specs.Prelude.{◌≡◌, ◌<◌, ◌^◌, IfOk, IfSome, None, Some};
ghost use Rattle.gw_base.specs.CdrKind.{kind_of};
ghost use Rattle.gw_base.specs.Nearest.{nearest};

use crate::words::octets;
use gw_base::{cdr_kind, nearest_number};
use run_lines::{bad, first_word, number};
use std::io;

/// The definition gives these kinds.
fn kinds_by_definition()
    ensures release_6 { kind_of 1 0x0600 ≡ record { release = 3; version = 0; format = 1; extension = 0 } }
    ensures greatest_digit { kind_of 1 0x0FFF ≡ record { release = 7; version = 31; format = 1; extension = 5 } }
    ensures low_digit_alone { kind_of 1 0xF61F ≡ record { release = 3; version = 31; format = 1; extension = 0 } }
    ensures greatest_format { kind_of 255 0x06FF ≡ record { release = 3; version = 31; format = 7; extension = 0 } }
    ensures all_zero { kind_of 0 0 ≡ record { release = 0; version = 0; format = 0; extension = 0 } }
{}

/// The definition gives these numbers.
fn numbers_by_definition()
    ensures first { nearest None 0xFFFE ≡ 131_070 }
    ensures lowest { nearest (Some 98_304) 0 ≡ 65_536 }
    ensures zero { nearest (Some 32_768) 0 ≡ 0 }
    ensures highest { nearest (Some 98_304) 0xFFFF ≡ 131_071 }
{}

pub(crate) fn kind(rt: &HostRuntime, words: &str) -> io::Result<()> {
    kinds_by_definition();
    let (format, version) = first_word(words);
    let format = number(format, 255)? as u8;
    let version = octets(rt.alloc(), version)?;
    let &[high, low] = version.as_slice() else {
        return Err(bad());
    };
    let version = u16::from(high) * 256 + u16::from(low);
    print!(rt; "{:?}", cdr_kind(format, version))
}

/// The greatest number, or none.
fn top_of(word: &str) -> io::Result<Option<u64>>
    ensures { IfOk result (λ top. IfSome top (λ number. number < 2 ^ 63)) }
{
    if word == "none" {
        return Ok(None);
    }
    let top = number(word, 9_223_372_036_854_775_807)?;
    Ok(Some(top))
}

pub(crate) fn near(rt: &HostRuntime, words: &str) -> io::Result<()> {
    numbers_by_definition();
    let (top, wire) = first_word(words);
    let top = top_of(top)?;
    let wire = number(wire, 65_535)? as u16;
    print!(rt; "{}", nearest_number(top, wire))
}

pub(crate) fn ber(rt: &HostRuntime, words: &str) -> io::Result<()> {
    let octets = octets(rt.alloc(), words)?;
    print!(rt; "{:?}", ber_frame::check(&octets))
}

pub(crate) fn identifier(rt: &HostRuntime, words: &str) -> io::Result<()> {
    let octets = octets(rt.alloc(), words)?;
    print!(rt; "{:?}", ber_frame::identifier(&octets))
}
