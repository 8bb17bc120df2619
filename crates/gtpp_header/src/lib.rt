//! The header of GTP', the protocol that carries charging data records to a charging gateway (3GPP
//! TS 32.295, clause 6.1). Six octets stand before the payload of each message.
//!
//! The model is `Header`, three numbers; `specs/Header.antt` says which octets spell it, and
//! `specs/Reading.antt` in which order they are tested. The contract of `read` is that the first
//! test that fails decides, and that what it reads the octets spell.
//!
//!     let header = read(datagram)?;
//!     let payload = &datagram[HEADER_OCTETS..HEADER_OCTETS + usize::from(header.length)];
#![tactic(auto)]

ghost use Rattle.std.specs.Prelude.{◌≡◌, ℕ, ◌+◌, ◌≤◌, ◌↔◌, IsTrue, IfOk, length};
ghost use Rattle.gtpp_header.specs.Header.{SpellsHeader, spelled, version_of, protocol_type_of};
ghost use Rattle.gtpp_header.specs.Reading.{IsShort, IsNotPrime, IsOtherVersion, IsCut, header_reading};
ghost use Rattle.gtpp_header.specs.declared.Header.{Header};

use byteorder::{BigEndian, ByteOrder};
pub use fault::HeadFault;

mod fault;
pub mod laws;

/// The number of octets in a header.
pub const HEADER_OCTETS: usize = 6;

/// The version of GTP' that is spoken here.
const VERSION: u8 = 2;

/// Octet 1 as it is sent: version 2, protocol type 0, the three spare bits set and bit 1 clear.
const SENT_FLAGS: u8 = 0x4E;

/// What a header says of the message behind it.
#[derive(Clone, Copy, Debug)]
pub struct Header {
    /// The message type.
    pub kind: u8,
    /// The number of octets of the payload, which follows the header.
    pub length: u16,
    /// The sequence number, which a response repeats.
    pub number: u16,
}

/// The version of GTP' that octet 1 names, at most 7. A stream tests it before the rest has come.
pub fn version(flags: u8) -> u8
    ensures { result ≡ version_of flags }
{
    flags >> 5
}

/// Whether octet 1 has the protocol type of GTP, and not of GTP'.
pub fn is_gtp(flags: u8) -> bool
    ensures { IsTrue result ↔ (protocol_type_of flags ≡ 1) }
{
    (flags >> 4) & 1 == 1
}

/// Reads the header at the front of a message.
///
/// The four refusals are tested in the order in which [`HeadFault`] lists them, and the first
/// that holds is answered. Bits 4 to 1 of octet 1 and the octets past the length are not looked
/// at.
pub fn read(octets: &[u8]) -> Result<Header, HeadFault>
    ensures reading { result ≡ header_reading octets.now }
    ensures payload { IfOk result (λ header. HEADER_OCTETS + header.length ≤ length octets.now) }
    ensures header { (header : Header) → (result ≡ Ok header) ↔ SpellsHeader header octets.now }
    ensures short { (result ≡ Err HeadFault.Short) ↔ IsShort octets.now }
    ensures not_prime { (result ≡ Err HeadFault.NotPrime) ↔ IsNotPrime octets.now }
    ensures version { (version kind number : ℕ) →
        (result ≡ Err (HeadFault.Version version kind number)) ↔ IsOtherVersion version kind number octets.now }
    ensures cut { (stated : ℕ) → (result ≡ Err (HeadFault.Cut stated)) ↔ IsCut stated octets.now }
{
    let &[
        flags,
        kind,
        length_high,
        length_low,
        number_high,
        number_low,
        ref payload @ ..,
    ] = octets
    else {
        return Err(HeadFault::Short);
    };
    let length = BigEndian::read_u16(&[length_high, length_low]);
    let number = BigEndian::read_u16(&[number_high, number_low]);
    if is_gtp(flags) {
        return Err(HeadFault::NotPrime);
    }
    let version = version(flags);
    if version != VERSION {
        return Err(HeadFault::Version {
            version,
            kind,
            number,
        });
    }
    if payload.len() < usize::from(length) {
        return Err(HeadFault::Cut { length });
    }
    Ok(Header {
        kind,
        length,
        number,
    })
}

/// Writes the header as it is sent.
pub fn write(header: Header) -> [u8; HEADER_OCTETS]
    ensures { result ≡ spelled header }
{
    let mut octets = [SENT_FLAGS, header.kind, 0, 0, 0, 0];
    BigEndian::write_u16(&mut octets[2..4], header.length);
    BigEndian::write_u16(&mut octets[4..6], header.number);
    octets
}
