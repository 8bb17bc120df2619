ghost use Rattle.std.specs.Prelude.{◌≡◌, ◌<◌, length, IfOk};
ghost use Rattle.gtpp_elements.specs.Elements.{is_fixed};
ghost use Rattle.gtpp_elements.specs.Reading.{element_at, fixed_at, sized_at};
ghost use Rattle.gtpp_elements.specs.Parsed.{parsed};

use crate::fault::ElementFault;
use crate::table::is_known_fixed;
use byteorder::{BigEndian, ByteOrder};

/// An element at the front of octets, and what follows it.
#[derive(Clone, Copy)]
pub struct Parsed<'a> {
    pub kind: u8,
    pub value: &'a [u8],
    pub rest: &'a [u8],
}

/// Whether bit 8 of an element's type is clear, so that the element states no length.
pub fn is_fixed(kind: u8) -> bool
    ensures { result ≡ is_fixed kind }
{
    kind < 0x80
}

/// The element at the front of the octets.
pub fn element_at(at: usize, octets: &[u8]) -> Result<Parsed<'_>, ElementFault>
    ensures reading { parsed result ≡ element_at at octets.now }
    ensures shorter { IfOk result (λ found. length found.rest.now < length octets.now) }
{
    let Some((&kind, behind)) = octets.split_first() else {
        return Err(ElementFault::Overrun { at });
    };
    if !is_fixed(kind) {
        return sized_at(at, kind, behind);
    }
    if is_known_fixed(kind) {
        return fixed_at(at, kind, behind);
    }
    Err(ElementFault::UnknownFixed { kind, at })
}

/// A value of one octet, behind the type.
fn fixed_at(at: usize, kind: u8, octets: &[u8]) -> Result<Parsed<'_>, ElementFault>
    ensures reading { parsed result ≡ fixed_at at kind octets.now }
    ensures shorter { IfOk result (λ found. length found.rest.now < length octets.now) }
{
    if octets.is_empty() {
        return Err(ElementFault::Overrun { at });
    }
    let (value, rest) = octets.split_at(1);
    Ok(Parsed { kind, value, rest })
}

/// A length and a value, behind the type.
fn sized_at(at: usize, kind: u8, octets: &[u8]) -> Result<Parsed<'_>, ElementFault>
    ensures reading { parsed result ≡ sized_at at kind octets.now }
    ensures shorter { IfOk result (λ found. length found.rest.now < length octets.now) }
{
    let &[high, low, ref behind @ ..] = octets else {
        return Err(ElementFault::Overrun { at });
    };
    let length = usize::from(BigEndian::read_u16(&[high, low]));
    if behind.len() < length {
        return Err(ElementFault::Overrun { at });
    }
    let (value, rest) = behind.split_at(length);
    Ok(Parsed { kind, value, rest })
}
