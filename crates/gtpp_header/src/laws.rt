//! Laws of the definitions that [`read`](crate::read) and [`write`](crate::write) cite. Each holds
//! for every list of octets, and stands on a function that does nothing.

ghost use Rattle.std.specs.Prelude.{◌≡◌, ℕ, ◌≤◌, ◌↔◌, List, ◌∷◌, ◌++◌, length};
ghost use Rattle.gtpp_header.specs.Header.{IsWholeMessage, SpellsHeader, spelled, version_of, protocol_type_of};
ghost use Rattle.gtpp_header.specs.Reading.{IsFinal, header_reading};
ghost use Rattle.gtpp_header.specs.declared.Header.{Header};

/// A header is read exactly where the octets spell it.
pub fn what_is_read_is_spelled()
    ensures { (header : Header) (octets : List ℕ) →
        (header_reading octets ≡ Ok header) ↔ SpellsHeader header octets }
{}

/// What is written is read back, whatever payload of at least its length follows.
pub fn written_is_read_back()
    ensures { (header : Header) (payload : List ℕ) → header.length ≤ length payload →
        header_reading (spelled header ++ payload) ≡ Ok header }
{}

/// A header before a payload of just its length is one message.
pub fn written_is_a_whole_message()
    ensures { (header : Header) (payload : List ℕ) → header.length ≡ length payload →
        IsWholeMessage (spelled header ++ payload) }
{}

/// Only where too few octets have come yet can further ones change the answer.
pub fn further_octets_are_ignored()
    ensures { (octets more : List ℕ) → IsFinal (header_reading octets) →
        header_reading (octets ++ more) ≡ header_reading octets }
{}

/// Of octet 1 only the version and the protocol type are looked at.
pub fn spare_bits_are_ignored()
    ensures { (flags other : ℕ) (rest : List ℕ) →
        version_of flags ≡ version_of other → protocol_type_of flags ≡ protocol_type_of other →
        header_reading (flags ∷ rest) ≡ header_reading (other ∷ rest) }
{}
