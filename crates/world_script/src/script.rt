ghost use Rattle.std.specs.Prelude.{◌≡◌, ℕ, ◌<◌, IfOk, Ok, Err, slice_get};
ghost use Rattle.std.specs.Option.{option_copied};
ghost use Rattle.world_script.specs.Outcome.{fault_at};
ghost use Rattle.world_script.specs.Printing.{ReadsBack};
ghost use Rattle.world_script.specs.Script.{script_in, script_of};
ghost use Rattle.world_script.specs.declared.fault.InputKind.{InputKind};

use crate::fault::{InputFault, InputKind, LineFault};
use crate::kind::ScriptKind;
use crate::line::Line;
use crate::progress::Progress;
use crate::text::first_line;
use std::alloc::Global;
use std::marker::Model;

/// A script: its kind, and its lines in order. Its text, as [`print`](crate::print) gives it, is a script of that kind
/// with these lines.
#[derive(Drop)]
pub struct Script {
    kind: ScriptKind,
    lines: Vec<Line>,
}

impl Model for Script {
    ghost use Rattle.world_script.specs.Printing.{ReadsBack};
    ghost use Rattle.world_script.specs.Script.{ScriptValue};

    ghost Value = { ScriptValue };

    ghost view = { λ s. record { kind = s.kind; lines = s.lines.items } };

    ghost invariant = { λ s. ReadsBack s.kind s.lines.items };
}

impl Script {
    /// Reads the text of a feed script, as [`read`] does.
    pub fn read(alloc: Global, text: &[u8]) -> Result<Script, InputFault>
        ensures read { IfOk result (λ script.
            (script.kind ≡ ScriptKind.Feed) × (script_of text.now ≡ Ok script.lines)) }
        ensures refused { (place : ℕ) (kind : InputKind) → result ≡ Err (InputFault.Bad place kind) →
            script_of text.now ≡ Err (record { place = place; kind = kind }) }
    {
        read(alloc, text, ScriptKind::Feed)
    }

    /// A script of these lines.
    pub(crate) fn from_lines(kind: ScriptKind, lines: Vec<Line>) -> Script
        requires { ReadsBack kind lines.items }
        ensures { result ≡ record { kind = kind; lines = lines.items } }
    {
        Script { kind, lines }
    }

    /// Its kind.
    pub fn kind(&self) -> ScriptKind
        ensures kind { result ≡ self.now.kind }
        ensures reads { ReadsBack self.now.kind self.now.lines }
    {
        self.kind
    }

    /// All lines, in order.
    pub fn lines(&self) -> &[Line]
        ensures { result.now ≡ self.now.lines }
    {
        &self.lines
    }

    /// The line at this place of the text, counted from 0; `None` exactly where there are no more.
    pub fn line(&self, k: usize) -> Option<&Line>
        ensures { option_copied result ≡ slice_get self.now.lines k }
    {
        self.lines.get(k)
    }
}

/// Reads the text of a script of this kind: all its lines, or the first that the grammar refuses.
/// Lines end with a line feed, which the last may lack, and a carriage return before it is dropped.
#[tactic(auto, using(crate::proofs::ScriptLemmas::step_follows, crate::proofs::ScriptLemmas::line_read, crate::proofs::ScriptLemmas::line_refused, crate::proofs::ScriptLemmas::script_read, crate::proofs::ScriptLemmas::no_end, crate::proofs::PrintedLemmas::reads_back))]
pub fn read(alloc: Global, text: &[u8], kind: ScriptKind) -> Result<Script, InputFault>
    ensures read { IfOk result (λ script. (script.kind ≡ kind) × (script_in kind text.now ≡ Ok script.lines)) }
    ensures refused { (place : ℕ) (why : InputKind) → result ≡ Err (InputFault.Bad place why) →
        script_in kind text.now ≡ Err (record { place = place; kind = why }) }
{
    let mut lines = Vec::new(alloc);
    let mut progress = Progress::begin(kind);
    let mut words = Vec::new(alloc);
    let mut rest = text;
    while let Some((raw, later)) = first_line(rest) {
        let line = match progress.read(alloc, &raw, &mut words) {
            Ok(line) => line,
            Err(fault) => return Err(at(progress.place, fault)),
        };
        progress = progress.after(&line, raw.size());
        if lines.push(line).is_err() {
            return Err(InputFault::NoMemory);
        }
        rest = later;
    }
    if progress.has_end {
        Ok(Script::from_lines(kind, lines))
    } else {
        Err(InputFault::Bad {
            place: progress.place,
            kind: InputKind::NoEnd,
        })
    }
}

/// The fault of the line with this number.
fn at(place: u64, fault: LineFault) -> InputFault
    ensures { result ≡ fault_at place fault }
{
    match fault {
        LineFault::Refused(kind) => InputFault::Bad { place, kind },
        LineFault::NoMemory => InputFault::NoMemory,
    }
}
