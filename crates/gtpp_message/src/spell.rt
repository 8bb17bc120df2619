ghost use Rattle.std.specs.Prelude.{◌≡◌, ◌<◌, ◌≤◌, ◌+◌, ◌++◌, ◌↔◌, ℕ, length, OnOk, OnErr};
ghost use Rattle.gtpp_header.specs.Header.{spelled};
ghost use Rattle.gtpp_message.specs.Parts.{head_octets, octet_octets, tail_octets};
ghost use Rattle.gtpp_message.specs.Values.{message_value};
ghost use Rattle.gtpp_message.specs.Writing.{body_octets, written};

use crate::message::Message;
use crate::parts::{LentElement, OctetElement, Parts, sent_parts};
use byteorder::{BigEndian, ByteOrder};
use gtpp_header::{HEADER_OCTETS, Header};
use gw_base::{Buffer, Full, Short};

/// Appends a message in the one spelling in which it is sent. Where there isn't room for all of
/// it, the buffer stays as it was.
pub fn write(number: u16, message: &Message<'_>, into: &mut Buffer) -> Result<(), Full>
    requires { length (body_octets (message_value message.now)) ≤ 65535 }
    ensures written { OnOk result (into.new ≡
        record {
          octets = into.old.octets ++ written number (message_value message.now);
          capacity = into.old.capacity;
        }) }
    ensures unchanged { OnErr result (into.new ≡ into.old) }
    ensures full { (free : ℕ) → (result ≡ Err (record { free = free })) ↔
        ((free + length into.old.octets ≡ into.old.capacity)
        × (free < length (written number (message_value message.now)))) }
{
    let parts = sent_parts(message);
    let length = parts.length();
    let free = into.free();
    if free < HEADER_OCTETS + length {
        return Err(Full { free });
    }
    let header = Header {
        kind: message.kind(),
        length: length as u16,
        number,
    };
    into.append(front(header, &parts).octets());
    into.append(parts.tail());
    Ok(())
}

/// A message in the one spelling in which it is sent, where that has at most 64 octets, as that of
/// each response has. It takes no memory.
pub fn write_short(number: u16, message: &Message<'_>) -> Short
    requires { length (written number (message_value message.now)) ≤ Short.CAPACITY }
    ensures { result ≡ written number (message_value message.now) }
{
    let parts = sent_parts(message);
    let header = Header {
        kind: message.kind(),
        length: parts.length() as u16,
        number,
    };
    let mut octets = front(header, &parts);
    octets.append(parts.tail());
    octets
}

/// What stands before the octets that a message lends.
fn front(header: Header, parts: &Parts<'_>) -> Short
    requires { length (tail_octets parts.now.value) ≤ 65535 }
    ensures { result ≡ spelled header ++ (octet_octets parts.now.octet ++ head_octets parts.now.value) }
{
    let mut front = Short::new();
    front.append(&gtpp_header::write(header));
    append_octet(&mut front, parts.octet);
    append_head(&mut front, parts.value);
    front
}

/// Appends an element of one octet, where there is one.
fn append_octet(front: &mut Short, element: Option<OctetElement>)
    requires { length front.old + 2 ≤ Short.CAPACITY }
    ensures { front.new ≡ front.old ++ octet_octets element }
{
    if let Some(OctetElement { kind, octet }) = element {
        front.append(&[kind, octet]);
    }
}

/// Appends what stands before the value of an element, where there is one: its type and the
/// length of its value.
fn append_head(front: &mut Short, element: Option<LentElement<'_>>)
    requires room { length front.old + 3 ≤ Short.CAPACITY }
    requires short { length (tail_octets element) ≤ 65535 }
    ensures { front.new ≡ front.old ++ head_octets element.entry }
{
    if let Some(LentElement { kind, value }) = element {
        let mut head = [kind, 0, 0];
        BigEndian::write_u16(&mut head[1..], value.len() as u16);
        front.append(&head);
    }
}
