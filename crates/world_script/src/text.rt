ghost use Rattle.std.specs.Prelude.{◌≡◌, ◌+◌, ◌<◌, [], ◌∷◌, length, MatchOption};
ghost use Rattle.std.specs.Int.{is_in_range};
ghost use Rattle.world_script.specs.Text.{is_blank, is_printable, lent_line, line_size, raw_lines, without_return};

use route_filter::cut;

const LINE_FEED: u8 = b'\n';

const CARRIAGE_RETURN: u8 = b'\r';

/// A line of a text, without the line feed.
#[derive(Clone, Copy)]
pub struct TextLine<'a> {
    pub octets: &'a [u8],
    /// Whether a line feed ends it: the last line of a text may lack it.
    pub ended: bool,
}

impl<'a> TextLine<'a> {
    ghost use Rattle.std.specs.Prelude.{◌+◌};
    ghost use Rattle.world_script.specs.Text.{line_content, line_size, lent_line};

    /// How many octets of the text it has, its line feed included.
    pub fn size(&self) -> usize
        ensures { result ≡ line_size (lent_line self.now) }
    {
        self.octets.len() + usize::from(self.ended)
    }

    /// What it says, without a carriage return before the line feed.
    pub fn content(&self) -> &'a [u8]
        ensures { result.now ≡ line_content (lent_line self.now) }
    {
        if self.ended {
            without_return(self.octets)
        } else {
            self.octets
        }
    }
}

/// The first line of a text, and what follows it.
#[tactic(auto, using(crate::proofs::WordLemmas::lines_some, crate::proofs::WordLemmas::lines_none))]
pub fn first_line(text: &[u8]) -> Option<(TextLine<'_>, &[u8])>
    ensures { MatchOption result (raw_lines text.now ≡ []) (λ parts.
        (raw_lines text.now ≡ lent_line parts.0 ∷ raw_lines parts.1.now)
        × (line_size (lent_line parts.0) + length parts.1.now ≡ length text.now)
        × (length parts.1.now < length text.now)) }
{
    if text.is_empty() {
        return None;
    }
    match cut(text, LINE_FEED) {
        Some((octets, later)) => Some((
            TextLine {
                octets,
                ended: true,
            },
            later,
        )),
        None => Some((
            TextLine {
                octets: text,
                ended: false,
            },
            &[],
        )),
    }
}

fn without_return(octets: &[u8]) -> &[u8]
    ensures { result.now ≡ without_return octets.now }
{
    match octets.last() {
        Some(last) if *last == CARRIAGE_RETURN => &octets[..octets.len() - 1],
        _ => octets,
    }
}

/// Whether a line does nothing: it is empty, or begins with a number sign.
pub fn is_blank(content: &[u8]) -> bool
    ensures { result ≡ is_blank content.now }
{
    match content.first() {
        None => true,
        Some(first) => *first == b'#',
    }
}

/// Whether all octets are printable ones of ASCII.
#[tactic(auto, using(crate::proofs::WordLemmas::printable_more, crate::proofs::WordLemmas::printable_all))]
pub fn is_printable(content: &[u8]) -> bool
    ensures { result ≡ is_printable content.now }
{
    let mut printable = true;
    for octet in content {
        printable &= is_glyph(*octet);
    }
    printable
}

fn is_glyph(octet: u8) -> bool
    ensures { result ≡ is_in_range 32 126 octet }
{
    (b' '..=b'~').contains(&octet)
}
