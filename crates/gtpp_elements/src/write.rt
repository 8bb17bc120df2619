ghost use Rattle.std.specs.Prelude.{◌≡◌, ◌<◌, ◌+◌, ◌++◌, ◌↔◌, ℕ, length, OnOk, OnErr};
ghost use Rattle.gtpp_elements.specs.Elements.{IsValue, element_octets};

use crate::element::is_fixed;
use byteorder::{BigEndian, ByteOrder};
use gw_base::{Buffer, Full};

/// Appends an element, with the length of the value where bit 8 of the type is set.
pub fn put(kind: u8, value: &[u8], into: &mut Buffer) -> Result<(), Full>
    requires { IsValue kind value.now }
    ensures written { OnOk result (into.new ≡
        record { octets = into.old.octets ++ element_octets kind value.now; capacity = into.old.capacity }) }
    ensures unchanged { OnErr result (into.new ≡ into.old) }
    ensures full { (free : ℕ) → (result ≡ Err (record { free = free })) ↔
        ((free + length into.old.octets ≡ into.old.capacity) × (free < length (element_octets kind value.now))) }
{
    let free = into.free();
    if is_fixed(kind) {
        if free < 1 + value.len() {
            return Err(Full { free });
        }
        into.append(&[kind]);
    } else {
        if free < 3 + value.len() {
            return Err(Full { free });
        }
        let mut head = [kind, 0, 0];
        BigEndian::write_u16(&mut head[1..], value.len() as u16);
        into.append(&head);
    }
    into.append(value);
    Ok(())
}
