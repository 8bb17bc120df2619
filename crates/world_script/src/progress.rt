ghost use Rattle.std.specs.Prelude.{◌≡◌, ◌+◌, ◌<◌, ◌^◌, [], map, option_map, IfOk};
ghost use Rattle.route_filter.specs.Words.{cut_parts};
ghost use Rattle.world_script.specs.Outcome.{Says, progress_after};
ghost use Rattle.world_script.specs.Saying.{behind_in, one_datagram};
ghost use Rattle.world_script.specs.Script.{formed, is_action_line, is_end_line, is_rule_line, is_setting_line, progress_of, reading_of};
ghost use Rattle.world_script.specs.Text.{lent_line, line_size};

use crate::fault::{InputKind, LineFault};
use crate::keyword::Keyword;
use crate::kind::ScriptKind;
use crate::line::Line;
use crate::saying::said_by;
use crate::text::{TextLine, is_blank, is_printable};
use crate::values::address;
use gw_base::{NoMemory, Octets};
use route_filter::{cut, decoded, split_words};
use std::alloc::Global;

/// The most octets that the text of a script may have.
const MOST_TEXT: usize = 16_777_216;

/// What of the lines before one decides what it may say.
#[derive(Clone, Copy)]
pub struct Progress {
    /// The kind of the script.
    pub kind: ScriptKind,
    /// How many octets they have.
    pub size: usize,
    /// The number of the next line, from 1.
    pub place: u64,
    /// Whether an `end` stands among them.
    pub has_end: bool,
    /// Whether another line than a setting does, empty lines and comments aside.
    pub has_action: bool,
    /// How many rules stand among them.
    pub rules: usize,
}

impl Progress {
    /// Before the first line.
    pub fn begin(kind: ScriptKind) -> Progress
        ensures { result ≡ progress_of kind 0 [] }
    {
        Progress {
            kind,
            size: 0,
            place: 1,
            has_end: false,
            has_action: false,
            rules: 0,
        }
    }

    /// After one more line, of so many octets.
    pub fn after(self, line: &Line, size: usize) -> Progress
        requires size { self.size + size < 2 ^ 64 }
        requires place { self.place + 1 < 2 ^ 64 }
        requires rules { self.rules + 1 < 2 ^ 64 }
        ensures { result ≡ progress_after self line.now size }
    {
        Progress {
            kind: self.kind,
            size: self.size + size,
            place: self.place + 1,
            has_end: self.has_end || is_end(line),
            has_action: self.has_action || is_action(line),
            rules: self.rules + usize::from(is_rule(line)),
        }
    }

    /// What the next line says. Its words may be put in the place of those before.
    pub fn read<'a>(
        self,
        alloc: Global,
        line: &TextLine<'a>,
        words: &mut Vec<&'a [u8]>,
    ) -> Result<Line, LineFault>
        requires { self.size + line_size (lent_line line.now) < 2 ^ 64 }
        ensures { Says (reading_of self (lent_line line.now)) result }
    {
        if self.size + line.size() > MOST_TEXT {
            return Err(LineFault::Refused(InputKind::TooLong));
        }
        let content = line.content();
        // Most lines of a feed are of this form.
        if self.kind == ScriptKind::Feed && !self.has_end {
            if let Some(line) = one_datagram(alloc, content)? {
                return Ok(line);
            }
        }
        if is_blank(content) {
            return Ok(Line::Blank);
        }
        if !is_printable(content) {
            return Err(LineFault::Refused(InputKind::Word));
        }
        split_words(words, content)?;
        let Some((first, rest)) = words.split_first() else {
            return Err(LineFault::Refused(InputKind::Word));
        };
        match Keyword::of(self.kind, first) {
            Ok(form) => self.formed(alloc, form, content, rest),
            Err(kind) => Err(LineFault::Refused(kind)),
        }
    }

    /// What a line of this form says, by its words after the first.
    fn formed(
        self,
        alloc: Global,
        form: Keyword,
        content: &[u8],
        words: &[&[u8]],
    ) -> Result<Line, LineFault>
        ensures { Says (formed self form content.now (map (λ word. word.now) words.now)) result }
    {
        if self.has_end {
            return Err(LineFault::Refused(InputKind::After));
        }
        if form.is_setting() && self.has_action {
            return Err(LineFault::Refused(InputKind::Late));
        }
        said_by(alloc, self.kind, form, self.rules, content, words)
    }
}

/// The datagram of a line `in IP:PORT HEX`, where one space stands before each of its last two words.
fn one_datagram(alloc: Global, content: &[u8]) -> Result<Option<Line>, NoMemory>
    ensures { IfOk result (λ said. said ≡ one_datagram content.now) }
{
    let Some((from, word)) = behind_in(content) else {
        return Ok(None);
    };
    if word.is_empty() {
        return Ok(None);
    }
    let Some(from) = address(from) else {
        return Ok(None);
    };
    let Some(octets) = decoded(alloc, word)? else {
        return Ok(None);
    };
    let octets = Octets::from_vec(octets);
    Ok(Some(Line::Datagram { from, octets }))
}

/// What stands before the first space behind `in ` at the beginning of a line, and what follows it.
fn behind_in(line: &[u8]) -> Option<(&[u8], &[u8])>
    ensures { option_map cut_parts result ≡ behind_in line.now }
{
    let [i, n, space, rest @ ..] = line else {
        return None;
    };
    if *i != b'i' || *n != b'n' || *space != b' ' {
        return None;
    }
    cut(rest, b' ')
}

fn is_end(line: &Line) -> bool
    ensures { result ≡ is_end_line line.now }
{
    matches!(line, Line::End)
}

fn is_rule(line: &Line) -> bool
    ensures { result ≡ is_rule_line line.now }
{
    matches!(line, Line::Rule { .. })
}

fn is_setting(line: &Line) -> bool
    ensures { result ≡ is_setting_line line.now }
{
    matches!(
        line,
        Line::Reserve { .. }
            | Line::LimitRecords { .. }
            | Line::LimitSize { .. }
            | Line::LimitOpen { .. }
            | Line::Offset { .. }
            | Line::Profile { .. }
            | Line::Rule { .. }
            | Line::Gateways { .. }
            | Line::Nodes { .. }
    )
}

/// Whether it is another line than a setting, empty lines and comments aside.
fn is_action(line: &Line) -> bool
    ensures { result ≡ is_action_line line.now }
{
    !(is_setting(line) || matches!(line, Line::Blank))
}
