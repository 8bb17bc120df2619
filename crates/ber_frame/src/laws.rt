//! Laws of the definitions that [`check`](crate::check) cites, for all octets.

ghost use Rattle.std.specs.Prelude.{◌≡◌, ◌↔◌, ◌<◌, ℕ, List, All, Ok, Err, Some, true};
ghost use Rattle.gw_base.specs.declared.tag.Tag.{Tag};
ghost use Rattle.ber_frame.specs.Checked.{checked, is_one_value};
ghost use Rattle.ber_frame.specs.Faults.{BerFails};
ghost use Rattle.ber_frame.specs.Reading.{front_tag};
ghost use Rattle.ber_frame.specs.Value.{BerValue, IsOneValue};
ghost use Rattle.ber_frame.specs.declared.fault.BerFault.{BerFault};

/// Octets are read as one value with a tag exactly where they are one.
#[tactic(auto, using(crate::proofs::Checks::checked_is, crate::proofs::Octets::all_octets))]
pub fn what_is_checked_is_a_value()
    ensures { (octets : List ℕ) (tag : Tag) → All (λ octet. octet < 256) octets →
        (checked octets ≡ Ok tag) ↔ BerValue 32 octets tag }
{}

/// A fault is told exactly where it is the first one.
pub fn what_fails_is_told()
    ensures { (octets : List ℕ) (fault : BerFault) → All (λ octet. octet < 256) octets →
        (checked octets ≡ Err fault) ↔ BerFails octets fault }
{}

/// The test of octets answers whether they are one value.
#[tactic(auto, using(crate::proofs::Checks::one_value, crate::proofs::Octets::all_octets))]
pub fn one_value_is_told()
    ensures { (octets : List ℕ) → All (λ octet. octet < 256) octets →
        (is_one_value octets ≡ true) ↔ IsOneValue 32 octets }
{}

/// The tag in front of one value is the value's.
#[tactic(auto, using(crate::proofs::Identifiers::front_of_value))]
pub fn front_tag_is_of_the_value()
    ensures { (octets : List ℕ) (tag : Tag) → BerValue 32 octets tag → front_tag octets ≡ Some tag }
{}
