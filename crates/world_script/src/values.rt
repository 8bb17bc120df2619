ghost use Rattle.std.specs.Prelude.{◌≡◌, ◌<◌, ◌≤◌, map, IfOk, IfSome};
ghost use Rattle.world_script.specs.Values.{address_of, ip_of, mode_of, number_between, number_of, offset_of, records_of, signed, two_digits, version_of};

use crate::mode::Mode;
use crate::records::Records;
use gw_base::{Addr, NoMemory, Octets};
use route_filter::{cut, decoded, number};
use std::alloc::Global;

/// The number that a word says in decimal, where it is from `least` to `most`.
pub fn number_between(least: u64, most: u64, word: &[u8]) -> Option<u64>
    ensures value { result ≡ number_between least most word.now }
    ensures within { IfSome result (λ number. (least ≤ number) × (number ≤ most)) }
{
    let number = number(word, most)?;
    if least <= number { Some(number) } else { None }
}

/// The number that a word says in decimal, where 64 bits hold it.
pub fn any_number(word: &[u8]) -> Option<u64>
    ensures { result ≡ number_of word.now }
{
    number(word, u64::MAX)
}

/// The IPv4 address and port that a word says.
pub fn address(word: &[u8]) -> Option<Addr>
    ensures { result ≡ address_of word.now }
{
    let (ip, port) = cut(word, b':')?;
    let ip = ipv4(ip)?;
    let port = number(port, 65_535)? as u16;
    Some(Addr { ip, port })
}

/// The IPv4 address that a word says.
pub fn ipv4(text: &[u8]) -> Option<u32>
    ensures { result ≡ ip_of text.now }
{
    let (first, rest) = cut(text, b'.')?;
    let (second, rest) = cut(rest, b'.')?;
    let (third, fourth) = cut(rest, b'.')?;
    let a = number(first, 255)?;
    let b = number(second, 255)?;
    let c = number(third, 255)?;
    let d = number(fourth, 255)?;
    Some((16_777_216 * a + 65_536 * b + 256 * c + d) as u32)
}

/// The offset from UTC in minutes that a word says: `+HH:MM` or `-HH:MM`, at most 15:59.
pub fn offset(word: &[u8]) -> Option<i16>
    ensures { result ≡ offset_of word.now }
{
    let &[sign, a, b, colon, c, d] = word else {
        return None;
    };
    if colon != b':' {
        return None;
    }
    let hours = two_digits(15, a, b)?;
    let minutes = two_digits(59, c, d)?;
    signed(sign, hours * 60 + minutes)
}

/// The number that two digits say, where it is at most `most`.
fn two_digits(most: u16, tens: u8, ones: u8) -> Option<u16>
    ensures value { result ≡ two_digits most tens ones }
    ensures within { IfSome result (λ number. number ≤ most) }
{
    if !tens.is_ascii_digit() || !ones.is_ascii_digit() {
        return None;
    }
    let number = u16::from(tens - b'0') * 10 + u16::from(ones - b'0');
    if number <= most { Some(number) } else { None }
}

/// A number after a plus or a minus.
fn signed(sign: u8, number: u16) -> Option<i16>
    requires { number < 1000 }
    ensures { result ≡ signed sign number }
{
    let number = number as i16;
    match sign {
        b'+' => Some(number),
        b'-' => Some(-number),
        _ => None,
    }
}

/// The format version that a word says: two octets in hexadecimal.
pub fn version(alloc: Global, word: &[u8]) -> Result<Option<u16>, NoMemory>
    ensures { IfOk result (λ version. version ≡ version_of word.now) }
{
    let Some(octets) = decoded(alloc, word)? else {
        return Ok(None);
    };
    match octets.as_slice() {
        [high, low] => Ok(Some(u16::from(*high) * 256 + u16::from(*low))),
        _ => Ok(None),
    }
}

/// The records that words say in hexadecimal, one in each; `None` where a word isn't whole octets.
#[tactic(auto, using(crate::proofs::ArityLemmas::records_step, crate::proofs::ArityLemmas::records_none))]
pub fn records(alloc: Global, words: &[&[u8]]) -> Result<Option<Records>, NoMemory>
    ensures { IfOk result (λ records. records ≡ records_of (map (λ word. word.now) words.now)) }
{
    let mut records = Vec::new(alloc);
    for word in words {
        match decoded(alloc, word)? {
            Some(octets) => records.push(Octets::from_vec(octets))?,
            None => return Ok(None),
        }
    }
    Ok(Some(Records::from_vec(records)))
}

/// The mode that a word says.
pub fn mode(word: &[u8]) -> Option<Mode>
    ensures { result ≡ mode_of word.now }
{
    if word == b"old".as_slice() {
        Some(Mode::Old)
    } else if word == b"new".as_slice() {
        Some(Mode::New)
    } else if word == b"rot".as_slice() {
        Some(Mode::Rot)
    } else {
        None
    }
}
