ghost use Rattle.std.specs.Prelude.{◌≡◌, ◌+◌, ◌++◌, [], length, map, option_map, IfOk, IfSome, OnOk, true};
ghost use Rattle.route_filter.specs.Words.{cut_at, cut_parts, has_decimal_form, number_up_to, with_digit, with_word, words_of};

use gw_base::NoMemory;
use memchr::memchr;
use std::alloc::Global;

/// What stands before the first octet that is the separator, and what follows it. It is made for long texts, too.
pub fn cut(octets: &[u8], separator: u8) -> Option<(&[u8], &[u8])>
    ensures parts { option_map cut_parts result ≡ cut_at separator octets.now }
    ensures whole { IfSome result (λ parts. length parts.0.now + 1 + length parts.1.now ≡ length octets.now) }
{
    let Some(place) = memchr(separator, octets) else {
        return None;
    };
    let (before, _) = octets.split_at(place);
    let (_, after) = octets.split_at(place + 1);
    Some((before, after))
}

/// The words of a line, which spaces separate.
pub fn words(alloc: Global, line: &[u8]) -> Result<Vec<&[u8]>, NoMemory>
    ensures { IfOk result (λ words. map (λ word. word.now) words.items ≡ words_of line.now) }
{
    let mut words = Vec::new(alloc);
    split_words(&mut words, line)?;
    Ok(words)
}

/// Puts the words of a line, which spaces separate, in the place of those before.
#[tactic(auto, using(crate::proofs::Cuts::step_words, crate::proofs::Cuts::words_none))]
pub fn split_words<'a>(words: &mut Vec<&'a [u8]>, line: &'a [u8]) -> Result<(), NoMemory>
    ensures { OnOk result (map (λ word. word.now) words.new.items ≡ words_of line.now) }
{
    words.clear();
    let mut rest = line;
    while let Some((word, later)) = cut(rest, b' ') {
        push_word(words, word)?;
        rest = later;
    }
    push_word(words, rest)
}

/// Appends a word, if it isn't empty.
fn push_word<'a>(words: &mut Vec<&'a [u8]>, word: &'a [u8]) -> Result<(), NoMemory>
    ensures { OnOk result (map (λ w. w.now) words.new.items
        ≡ map (λ w. w.now) words.old.items ++ with_word word.now []) }
{
    if !word.is_empty() {
        words.push(word)?;
    }
    Ok(())
}

/// The number that a word says in decimal, where it is at most `most`: digits alone, and no zero before another digit.
#[tactic(auto, using(crate::proofs::Digits::from_form, crate::proofs::Digits::no_form))]
pub fn number(word: &[u8], most: u64) -> Option<u64>
    ensures { result ≡ number_up_to most word.now }
{
    if !has_decimal_form(word) {
        return None;
    }
    let mut value = 0;
    for octet in word {
        let Some(more) = with_digit(value, *octet) else {
            return None;
        };
        value = more;
    }
    if value <= most { Some(value) } else { None }
}

/// Whether there is a digit, and no zero before another one.
fn has_decimal_form(word: &[u8]) -> bool
    ensures { result ≡ has_decimal_form word.now }
{
    match word {
        [] => false,
        [_] => true,
        [first, ..] => *first != b'0',
    }
}

/// The number that a digit makes behind others, where 64 bits hold it.
fn with_digit(value: u64, octet: u8) -> Option<u64>
    ensures { result ≡ with_digit value octet }
{
    if !octet.is_ascii_digit() {
        return None;
    }
    value.checked_mul(10)?.checked_add(u64::from(octet - b'0'))
}
