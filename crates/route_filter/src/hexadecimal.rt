//! Octets that words spell in hexadecimal.

ghost use Rattle.std.specs.Prelude.{◌≡◌, ◌*◌, ◌++◌, ℕ, [], Some, None, false, length, map, option_map, is_some, unwrap_or, IfOk, IsTrue, OnOk};
ghost use Rattle.std.specs.Result.{result_ok};
ghost use Rattle.hex.specs.Hex.{hex_digit_value, pair_value};
ghost use Rattle.route_filter.specs.Words.{octets_in, octets_of};

use gw_base::NoMemory;
use std::alloc::Global;

// What each octet says as a digit, in upper or lower case; 16 where it is none. Comparisons in its place take longer: a
// processor can't guess how they end.
static DIGITS: [u8; 256] = [
    16, 16, 16, 16, 16, 16, 16, 16, 16, 16, 16, 16, 16, 16, 16, 16, 16, 16, 16, 16, 16, 16, 16, 16,
    16, 16, 16, 16, 16, 16, 16, 16, 16, 16, 16, 16, 16, 16, 16, 16, 16, 16, 16, 16, 16, 16, 16, 16,
    0, 1, 2, 3, 4, 5, 6, 7, 8, 9, 16, 16, 16, 16, 16, 16, 16, 10, 11, 12, 13, 14, 15, 16, 16, 16,
    16, 16, 16, 16, 16, 16, 16, 16, 16, 16, 16, 16, 16, 16, 16, 16, 16, 16, 16, 16, 16, 16, 16, 10,
    11, 12, 13, 14, 15, 16, 16, 16, 16, 16, 16, 16, 16, 16, 16, 16, 16, 16, 16, 16, 16, 16, 16, 16,
    16, 16, 16, 16, 16, 16, 16, 16, 16, 16, 16, 16, 16, 16, 16, 16, 16, 16, 16, 16, 16, 16, 16, 16,
    16, 16, 16, 16, 16, 16, 16, 16, 16, 16, 16, 16, 16, 16, 16, 16, 16, 16, 16, 16, 16, 16, 16, 16,
    16, 16, 16, 16, 16, 16, 16, 16, 16, 16, 16, 16, 16, 16, 16, 16, 16, 16, 16, 16, 16, 16, 16, 16,
    16, 16, 16, 16, 16, 16, 16, 16, 16, 16, 16, 16, 16, 16, 16, 16, 16, 16, 16, 16, 16, 16, 16, 16,
    16, 16, 16, 16, 16, 16, 16, 16, 16, 16, 16, 16, 16, 16, 16, 16, 16, 16, 16, 16, 16, 16, 16, 16,
    16, 16, 16, 16, 16, 16, 16, 16, 16, 16, 16, 16, 16, 16,
];

/// The octets that words spell in hexadecimal, joined; `None` where a word isn't whole octets.
#[tactic(auto, using(crate::proofs::HexadecimalLemmas::one_word, crate::proofs::HexadecimalLemmas::octets_step, crate::proofs::HexadecimalLemmas::octets_none))]
pub fn octets(alloc: Global, words: &[&[u8]]) -> Result<Option<Vec<u8>>, NoMemory>
    ensures { IfOk result (λ octets.
        option_map (λ found. found.items) octets ≡ octets_of (map (λ word. word.now) words.now)) }
{
    if let &[word] = words {
        return decoded(alloc, word);
    }
    let mut octets = Vec::new(alloc);
    for word in words {
        if !append_decoded(alloc, &mut octets, word)? {
            return Ok(None);
        }
    }
    Ok(Some(octets))
}

/// Appends the octets that a word spells in hexadecimal, and says whether it spells any.
fn append_decoded(alloc: Global, octets: &mut Vec<u8>, word: &[u8]) -> Result<bool, NoMemory>
    ensures whole { IfOk result (λ whole. whole ≡ is_some (octets_in word.now)) }
    ensures appended { OnOk result (octets.new.items ≡ octets.old.items ++ unwrap_or (octets_in word.now) []) }
{
    match decoded(alloc, word)? {
        Some(more) => {
            octets.extend_from_slice(&more)?;
            Ok(true)
        }
        None => Ok(false),
    }
}

/// The octets that a word spells in hexadecimal; `None` where it isn't whole octets.
#[tactic(auto, using(crate::proofs::HexadecimalLemmas::odd))]
pub fn decoded(alloc: Global, word: &[u8]) -> Result<Option<Vec<u8>>, NoMemory>
    ensures { IfOk result (λ octets. option_map (λ found. found.items) octets ≡ octets_in word.now) }
{
    if word.len() % 2 != 0 {
        return Ok(None);
    }
    let mut octets = vec![in alloc; 0u8; word.len() / 2]?;
    if spell(word, octets.as_mut_slice()) {
        Ok(Some(octets))
    } else {
        Ok(None)
    }
}

/// Writes the octets that pairs of digits spell, and says whether all of them are digits.
fn spell(digits: &[u8], octets: &mut [u8]) -> bool
    requires { length digits.now ≡ 2 * length octets.old }
    ensures spelt { IsTrue result → octets_in digits.now ≡ Some octets.new }
    ensures refused { result ≡ false → octets_in digits.now ≡ None }
{
    'octets: for k in 0..octets.len() {
        match pair(digits[2 * k], digits[2 * k + 1]) {
            Some(octet) => octets[k] = octet,
            None => return false,
        }
    }
    true
}

/// The octet that two digits spell.
fn pair(high: u8, low: u8) -> Option<u8>
    ensures { (place : ℕ) → result ≡ result_ok (pair_value high low place) }
{
    let high = digit(high);
    let low = digit(low);
    if high < 16 && low < 16 {
        Some(16 * high + low)
    } else {
        None
    }
}

/// The number that a digit says, in upper or lower case; 16 where it is none.
fn digit(octet: u8) -> u8
    ensures { result ≡ unwrap_or (hex_digit_value octet) 16 }
{
    DIGITS[octet as usize]
}
