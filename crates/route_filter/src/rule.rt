ghost use Rattle.std.specs.Prelude.{◌≡◌, map, Some, IfOk, IfSome, ◌≤◌};
ghost use Rattle.route_filter.specs.Rules.{any_or, format_in, last_stream, matches, matches_format, matches_tag, rule_by, rule_of, same_tag, tag_in};

use crate::hexadecimal::decoded;
use crate::text::{number, words};
use ber_frame::identifier;
use gw_base::{NoMemory, Tag};
use std::alloc::Global;

/// What a rule's tag or format is where it is any.
const ANY: &[u8] = b"*";

/// The least format that the header of a CDR doesn't tell from greater ones.
const LAST_FORMAT: u64 = 7;

/// The greatest number of a stream.
const LAST_STREAM: u64 = 15;

/// Which records belong to a stream.
#[derive(Clone, Copy)]
pub struct Rule {
    /// The outer tag of its records, where it isn't any.
    pub tag: Option<Tag>,
    /// The data record format of their packets, at most 7, where it isn't any.
    pub format: Option<u8>,
    /// The stream, from 0 to 15.
    pub stream: u8,
}

impl Rule {
    /// The rule that a line says.
    pub fn read(alloc: Global, line: &[u8]) -> Result<Option<Rule>, NoMemory>
        ensures said { IfOk result (λ rule. rule ≡ rule_of line.now) }
        ensures stream { IfOk result (λ rule. IfSome rule (λ found. found.stream ≤ last_stream)) }
    {
        let words = words(alloc, line)?;
        let Some((first, rest)) = words.split_first() else {
            return Ok(None);
        };
        if *first != b"rule".as_slice() {
            return Ok(None);
        }
        said(alloc, rest)
    }

    /// Whether it matches a record with this tag of a packet of this format.
    pub fn matches(&self, tag: Option<Tag>, format: u8) -> bool
        ensures { result ≡ matches self.now tag format }
    {
        matches_tag(self.tag, tag, format) && matches_format(self.format, format)
    }
}

/// The rule that the words after the first say.
#[tactic(auto, using(crate::proofs::RuleWords::fewer, crate::proofs::RuleWords::more))]
fn said(alloc: Global, words: &[&[u8]]) -> Result<Option<Rule>, NoMemory>
    ensures said { IfOk result (λ rule. rule ≡ rule_by (map (λ word. word.now) words.now)) }
    ensures stream { IfOk result (λ rule. IfSome rule (λ found. found.stream ≤ last_stream)) }
{
    let &[tag, format, stream] = words else {
        return Ok(None);
    };
    let Some(tag) = tag_or_any(alloc, tag)? else {
        return Ok(None);
    };
    let Some(format) = format_or_any(format) else {
        return Ok(None);
    };
    let Some(stream) = number(stream, LAST_STREAM) else {
        return Ok(None);
    };
    let stream = stream as u8;
    Ok(Some(Rule {
        tag,
        format,
        stream,
    }))
}

/// Any tag, or the one that a word spells.
fn tag_or_any(alloc: Global, word: &[u8]) -> Result<Option<Option<Tag>>, NoMemory>
    ensures { IfOk result (λ tag. tag ≡ any_or tag_in word.now) }
{
    if *word == *ANY {
        return Ok(Some(None));
    }
    Ok(tag(alloc, word)?.map(Some))
}

/// The tag that a word spells.
fn tag(alloc: Global, word: &[u8]) -> Result<Option<Tag>, NoMemory>
    ensures { IfOk result (λ tag. tag ≡ tag_in word.now) }
{
    let Some(octets) = decoded(alloc, word)? else {
        return Ok(None);
    };
    Ok(identifier(&octets).ok())
}

/// Any format, or the one that a word says.
fn format_or_any(word: &[u8]) -> Option<Option<u8>>
    ensures { result ≡ any_or format_in word.now }
{
    if *word == *ANY {
        return Some(None);
    }
    let format = number(word, 255)?;
    Some(Some(format.min(LAST_FORMAT) as u8))
}

/// Whether a record with this tag of a packet of this format has the tag that is wanted.
fn matches_tag(wanted: Option<Tag>, tag: Option<Tag>, format: u8) -> bool
    ensures { result ≡ matches_tag wanted tag format }
{
    match (wanted, tag) {
        (None, _) => true,
        (Some(_), None) => false,
        (Some(wanted), Some(tag)) => format == 1 && is_same_tag(wanted, tag),
    }
}

fn is_same_tag(a: Tag, b: Tag) -> bool
    ensures { result ≡ same_tag a b }
{
    a.class == b.class && a.constructed == b.constructed && a.number == b.number
}

/// Whether a packet of this format has the format that is wanted.
fn matches_format(wanted: Option<u8>, format: u8) -> bool
    ensures { result ≡ matches_format wanted format }
{
    match wanted {
        None => true,
        Some(wanted) => wanted == format.min(LAST_FORMAT as u8),
    }
}
