//! Laws of the definitions that the calls here cite. Each holds for every list, and stands on a
//! function that does nothing.

ghost use Rattle.std.specs.Prelude.{◌≡◌, ◌↔◌, ◌*◌, ℕ, List, length};
ghost use Rattle.gtpp_elements.specs.Elements.{AreSendable, Element, SpellElements, octets_of};
ghost use Rattle.gtpp_elements.specs.Numbers.{number_octets, numbers_in};
ghost use Rattle.gtpp_elements.specs.Reading.{elements_in};

/// Elements are read exactly where the octets spell them, one after the other.
pub fn what_is_read_is_spelled()
    ensures { (elements : List Element) (body : List ℕ) →
        (elements_in body ≡ Ok elements) ↔ SpellElements elements body }
{}

/// Elements that are put one after the other are read back.
pub fn what_is_put_is_read_back()
    ensures { (elements : List Element) → AreSendable elements →
        elements_in (octets_of elements) ≡ Ok elements }
{}

/// Numbers are read back from their octets, two for each.
pub fn numbers_are_read_back()
    ensures again { (numbers : List ℕ) → numbers_in (number_octets numbers) ≡ numbers }
    ensures length { (numbers : List ℕ) → length (number_octets numbers) ≡ 2 * length numbers }
{}
