ghost use Rattle.std.specs.Prelude.{◌≡◌, ◌↔◌, ◌<◌, Ok, Err, IfSome, length};
ghost use Rattle.std.specs.Option.{option_map};
ghost use Rattle.gw_base.specs.declared.tag.Tag.{Tag};
ghost use Rattle.ber_frame.specs.declared.fault.BerFault.{BerFault};
ghost use Rattle.ber_frame.specs.Head.{IsIdentifier};
ghost use Rattle.ber_frame.specs.Value.{BerValue};
ghost use Rattle.ber_frame.specs.Faults.{IdentifierRefused, BerFails};
ghost use Rattle.ber_frame.specs.Reading.{behind_primitive, are_primitive, flat, front_tag, whole_identifier};
ghost use Rattle.ber_frame.specs.Checked.{checked};
ghost use Rattle.ber_frame.specs.Walk.{Walks};

use crate::fault::{BerFault, BerKind};
use crate::head::{head, identifier_at};
use crate::walk::Walk;
use gw_base::Tag;

/// The tag of octets that are exactly one BER value (ITU-T X.690, clause 8.1), in which values lie
/// at most 32 deep, the outer one counted; else the first fault: outside before inside, left to
/// right. It takes no memory.
pub fn check(octets: &[u8]) -> Result<Tag, BerFault>
    ensures accepts { (tag : Tag) → (result ≡ Ok tag) ↔ BerValue 32 octets.now tag }
    ensures fails { (fault : BerFault) → (result ≡ Err fault) ↔ BerFails octets.now fault }
    ensures reads { result ≡ checked octets.now }
{
    walk_through(octets)
}

/// The octets behind the first value, where it is primitive.
#[tactic(auto, unfolding(crate::specs::Reading::behind_primitive))]
fn behind_primitive(octets: &[u8]) -> Option<&[u8]>
    ensures value { option_map (λ rest. rest.now) result ≡ behind_primitive octets.now }
    ensures shorter { IfSome result (λ rest. length rest.now < length octets.now) }
{
    let Ok((tag, size, rest)) = head(octets) else {
        return None;
    };
    let size = size?;
    if tag.constructed || rest.len() < size {
        return None;
    }
    Some(rest.split_at(size).1)
}

/// Whether the octets are primitive values, one after the other.
fn are_primitive(octets: &[u8]) -> bool
    ensures { result ≡ are_primitive octets.now }
{
    let mut rest = octets;
    while !rest.is_empty() {
        let Some(behind) = behind_primitive(rest) else {
            return false;
        };
        rest = behind;
    }
    true
}

/// The tag of octets that are exactly one value, which is primitive or has primitive inner values alone, where they are
/// that.
#[tactic(auto, unfolding(crate::specs::Reading::flat))]
fn flat(octets: &[u8]) -> Option<Tag>
    ensures { result ≡ flat octets.now }
{
    let Ok((tag, size, rest)) = head(octets) else {
        return None;
    };
    let size = size?;
    if size != rest.len() {
        return None;
    }
    if tag.constructed && !are_primitive(rest) {
        return None;
    }
    Some(tag)
}

/// Enters the outer value, goes on until it is over, and looks whether octets follow. A value in which none but primitive
/// ones lie takes no walk, whose levels would all be made first.
fn walk_through(octets: &[u8]) -> Result<Tag, BerFault>
    ensures { Walks octets.now result }
{
    if let Some(tag) = flat(octets) {
        return Ok(tag);
    }
    let mut walk = Walk::new(octets);
    let tag = walk.enter()?;
    while walk.is_inside() {
        walk.step()?;
    }
    if walk.window().is_empty() {
        return Ok(tag);
    }
    Err(BerFault {
        at: walk.at(),
        kind: BerKind::Trailing,
    })
}

/// The tag that the identifier in front spells (ITU-T X.690, clause 8.1.2), whatever follows it: that of a value, where
/// the octets are one. None where the identifier is cut, or its number is 2^32 or above. It takes no memory.
pub fn front_tag(octets: &[u8]) -> Option<Tag>
    ensures { result ≡ front_tag octets.now }
{
    match identifier_at(octets) {
        Ok((tag, _)) => Some(tag),
        Err(_) => None,
    }
}

/// The tag of octets that are exactly one identifier (ITU-T X.690, clause 8.1.2). It takes no
/// memory.
pub fn identifier(octets: &[u8]) -> Result<Tag, BerFault>
    ensures accepts { (tag : Tag) → (result ≡ Ok tag) ↔ IsIdentifier octets.now tag }
    ensures fails { (fault : BerFault) → (result ≡ Err fault) ↔ IdentifierRefused octets.now fault }
    ensures reads { result ≡ whole_identifier octets.now }
{
    whole_identifier(octets)
}

/// Reads the identifier in front, and looks whether octets follow.
fn whole_identifier(octets: &[u8]) -> Result<Tag, BerFault>
    ensures { result ≡ whole_identifier octets.now }
{
    let (tag, rest) = match identifier_at(octets) {
        Ok(found) => found,
        Err(kind) => return Err(BerFault { at: 0, kind }),
    };
    if rest.is_empty() {
        return Ok(tag);
    }
    Err(BerFault {
        at: octets.len() - rest.len(),
        kind: BerKind::Trailing,
    })
}
