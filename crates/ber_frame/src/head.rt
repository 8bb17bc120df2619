//! The identifier and the length of a value (ITU-T X.690, clauses 8.1.2 and 8.1.3).

ghost use Rattle.std.specs.Prelude.{◌≡◌, ◌<◌, ◌≤◌, ◌+◌, length, IfOk, IfSome};
ghost use Rattle.std.specs.Option.{option_map};
ghost use Rattle.ber_frame.specs.Head.{tag_of};
ghost use Rattle.ber_frame.specs.Reading.{Gives, groups_at, identifier_at, octets_number, length_at, long_length, head_at};

use crate::fault::BerKind;
use gw_base::Tag;

/// No tag number and no length is as big.
const LIMIT: u64 = 4_294_967_296;

/// The tag number in base 128, at most `LIMIT`, and the octets after it.
#[tactic(auto, unfolding(crate::specs::Reading::groups_at))]
fn groups(octets: &[u8]) -> Option<(u64, &[u8])>
    ensures value { option_map (λ x. (x.0, x.1.now)) result ≡ groups_at 0 octets.now }
    ensures shorter { IfSome result (λ x. length x.1.now < length octets.now) }
{
    let mut number: u64 = 0;
    for (i, octet) in octets.iter().enumerate() {
        number = (number * 128 + u64::from(*octet % 128)).min(LIMIT);
        if *octet < 128 {
            return Some((number, octets.split_at(i + 1).1));
        }
    }
    None
}

/// The tag with the class and the form that the leading octet has.
fn tag(leading: u8, number: u32) -> Tag
    ensures { result ≡ tag_of leading number }
{
    Tag {
        class: leading / 64,
        constructed: leading / 32 % 2 == 1,
        number,
    }
}

/// The identifier in front, and the octets after it.
#[tactic(auto, unfolding(crate::specs::Reading::identifier_at))]
pub(crate) fn identifier_at(octets: &[u8]) -> Result<(Tag, &[u8]), BerKind>
    ensures value { Gives (λ x. (x.0, x.1.now)) result (identifier_at octets.now) }
    ensures shorter { IfOk result (λ x. length x.1.now < length octets.now) }
{
    let [leading, rest @ ..] = octets else {
        return Err(BerKind::Cut);
    };
    if *leading % 32 < 31 {
        return Ok((tag(*leading, u32::from(*leading % 32)), rest));
    }
    let Some((number, rest)) = groups(rest) else {
        return Err(BerKind::Cut);
    };
    if number >= LIMIT {
        return Err(BerKind::TagTooBig);
    }
    Ok((tag(*leading, number as u32), rest))
}

/// The number in these octets, the highest first, at most `LIMIT`.
#[tactic(auto, unfolding(crate::specs::Reading::octets_number))]
fn octets_number(octets: &[u8]) -> u64
    ensures { result ≡ octets_number octets.now }
{
    let mut number: u64 = 0;
    for octet in octets {
        number = (number * 256 + u64::from(*octet)).min(LIMIT);
    }
    number
}

/// The length in this many octets, and the octets after them.
#[tactic(auto, unfolding(crate::specs::Reading::long_length))]
fn long_length(count: usize, octets: &[u8]) -> Result<(Option<usize>, &[u8]), BerKind>
    ensures value { Gives (λ x. (x.0, x.1.now)) result (long_length count octets.now) }
    ensures shorter { IfOk result (λ x. length x.1.now ≤ length octets.now) }
{
    if octets.len() < count {
        return Err(BerKind::Cut);
    }
    let (front, rest) = octets.split_at(count);
    let size = octets_number(front);
    if size >= LIMIT {
        return Err(BerKind::LengthTooBig);
    }
    Ok((Some(size as usize), rest))
}

/// The length in front, none where it is indefinite, and the octets after it.
#[tactic(auto, unfolding(crate::specs::Reading::length_at))]
fn length_at(octets: &[u8]) -> Result<(Option<usize>, &[u8]), BerKind>
    ensures value { Gives (λ x. (x.0, x.1.now)) result (length_at octets.now) }
    ensures shorter { IfOk result (λ x. length x.1.now < length octets.now) }
{
    let [first, rest @ ..] = octets else {
        return Err(BerKind::Cut);
    };
    if *first < 128 {
        return Ok((Some(usize::from(*first)), rest));
    }
    if *first == 128 {
        return Ok((None, rest));
    }
    if *first < 255 {
        return long_length(usize::from(*first) - 128, rest);
    }
    Err(BerKind::LengthTooBig)
}

/// The identifier and the length in front, and the octets after them.
#[tactic(auto, unfolding(crate::specs::Reading::head_at))]
pub(crate) fn head(octets: &[u8]) -> Result<(Tag, Option<usize>, &[u8]), BerKind>
    ensures value { Gives (λ x. (x.0, x.1, x.2.now)) result (head_at octets.now) }
    ensures shorter { IfOk result (λ x. length x.2.now + 2 ≤ length octets.now) }
{
    let (tag, rest) = identifier_at(octets)?;
    let (size, rest) = length_at(rest)?;
    if size.is_none() && !tag.constructed {
        return Err(BerKind::Indefinite);
    }
    Ok((tag, size, rest))
}
