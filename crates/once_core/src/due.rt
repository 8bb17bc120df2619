// Answers that wait for the entries that they rest on: which are due.
ghost use Rattle.std.specs.Prelude.{◌≡◌, [], ◌∷◌, ◌++◌, IfOk, OnOk, filter, if◌then◌else◌, map, nat_le, not};

use crate::message::{Message, Waiting};
use gw_base::NoMemory;
use std::alloc::Global;

/// The messages of these answers that rest on no more entries than are firm, `firm` of them, in their order, and the
/// other answers. After `NoMemory` all are lost.
pub fn parted(
    alloc: Global,
    firm: u64,
    waiting: Vec<Waiting>,
) -> Result<(Vec<Message>, Vec<Waiting>), NoMemory>
    ensures due { IfOk result (λ parts. parts.0.items ≡
        map (λ w. w.message) (filter (λ w. nat_le w.front firm) waiting.items)) }
    ensures later { IfOk result (λ parts. parts.1.items ≡ filter (λ w. not (nat_le w.front firm)) waiting.items) }
{
    let mut due = Vec::new(alloc);
    let mut later = Vec::new(alloc);
    for w in waiting {
        part(firm, w, &mut due, &mut later)?;
    }
    Ok((due, later))
}

/// An answer is due, or waits on.
fn part(
    firm: u64,
    w: Waiting,
    due: &mut Vec<Message>,
    later: &mut Vec<Waiting>,
) -> Result<(), NoMemory>
    ensures due { OnOk result (due.new.items ≡
        due.old.items ++ (if nat_le w.front firm then w.message ∷ [] else [])) }
    ensures later { OnOk result (later.new.items ≡
        later.old.items ++ (if not (nat_le w.front firm) then w ∷ [] else [])) }
{
    if w.front <= firm {
        due.push(w.message)?;
        return Ok(());
    }
    later.push(w)?;
    Ok(())
}

/// Messages, and others behind them. After `NoMemory` all are lost.
pub fn joined(first: Vec<Message>, later: Vec<Message>) -> Result<Vec<Message>, NoMemory>
    ensures { IfOk result (λ all. all.items ≡ first.items ++ later.items) }
{
    let mut all = first;
    for message in later {
        all.push(message)?;
    }
    Ok(all)
}
