ghost use Rattle.std.specs.Prelude.{◌≡◌, ◌<◌, ◌*◌, ◌%◌, ◌↔◌, length, slice_index, IfOk, IsErr};
ghost use Rattle.gtpp_elements.specs.Numbers.{numbers_in, number_octets};

use crate::fault::OddLength;
use byteorder::{BigEndian, ByteOrder};
use std::marker::Model;

/// A list of sequence numbers, which lends their octets.
#[derive(Debug, Drop)]
pub struct Numbers<'a> {
    octets: &'a [u8],
}

impl<'a> Model for Numbers<'a> {
    ghost use Rattle.std.specs.Prelude.{◌≡◌, List, ℕ};
    ghost use Rattle.gtpp_elements.specs.Numbers.{numbers_in, number_octets};

    ghost Value = { List ℕ };

    ghost view = { λ n. numbers_in n.octets.now };

    ghost invariant = { λ n. number_octets (numbers_in n.octets.now) ≡ n.octets.now };
}

impl<'a> Numbers<'a> {
    /// The numbers that the octets spell, two octets each.
    pub fn of(value: &'a [u8]) -> Result<Numbers<'a>, OddLength>
        ensures numbers { IfOk result (λ numbers. numbers ≡ numbers_in value.now) }
        ensures octets { IfOk result (λ numbers. number_octets numbers ≡ value.now) }
        ensures odd { IsErr result ↔ (length value.now % 2 ≡ 1) }
    {
        if value.len() % 2 == 1 {
            return Err(OddLength);
        }
        Ok(Numbers { octets: value })
    }

    /// How many numbers there are.
    pub fn count(&self) -> usize
        ensures { result ≡ length self.now }
    {
        self.octets.len() / 2
    }

    /// The k-th number, counted from 0.
    pub fn at(&self, k: usize) -> u16
        requires { k < length self.now }
        ensures { result ≡ slice_index self.now k }
    {
        let octets = self.octets;
        BigEndian::read_u16(&[octets[2 * k], octets[2 * k + 1]])
    }

    /// The octets that spell the numbers.
    pub fn octets(&self) -> &'a [u8]
        ensures { result.now ≡ number_octets self.now }
    {
        self.octets
    }
}
