ghost use Rattle.std.specs.Prelude.{◌≡◌, IfOk};
ghost use Rattle.std.specs.Option.{option_map};
ghost use Rattle.gw_base.specs.Entry.{act_view};
ghost use Rattle.gateway_answer.specs.Answer.{decided};
ghost use Rattle.gateway_answer.specs.Answered.{answer, room_for};
ghost use Rattle.gateway_answer.specs.Decisions.{decision_view};
ghost use Rattle.gateway_answer.specs.Plain.{IsBounded, answer_view};

use crate::answering::answer_by;
use crate::decision::Decision;
use crate::listed::Listed;
use crate::listing::Scratch;
use crate::observe::Observe;
use crate::preparing::Prepared;
use gtpp_message::Why;
use gw_base::{Act, Addr, HistoryAct, HistoryEntry, NoMemory, Short};
use std::alloc::Global;

/// What a gateway answers to a datagram.
#[derive(Drop)]
pub enum OwnedAnswer {
    /// It isn't answered.
    Drop(Why),
    /// These octets go back to the sender.
    Reply {
        reply: Short,
        /// What is recorded with the answer.
        act: Option<HistoryAct>,
    },
}

/// What a gateway with these entries, whose journal lies on an area of `size` octets, answers to a
/// datagram of this sender. It scans all entries for each question, and keeps nothing.
///
/// The greatest number that a node has in its present epoch is below 2^63, as it is in each history of
/// fit entries. `NoMemory`: there was no memory for what it notes of the entries, or for the answer.
pub fn answer(
    alloc: Global,
    history: &[HistoryEntry],
    from: Addr,
    datagram: &Prepared<'_>,
    size: u64,
) -> Result<OwnedAnswer, NoMemory>
    requires { IsBounded history.now }
    ensures { IfOk result (λ found. answer_view found ≡ decided (answer history.now from datagram.now size)) }
{
    let seen = Listed::of(alloc, history, size)?;
    let mut scratch = Scratch::new(alloc)?;
    let decision = answer_by(&seen, from, datagram.case(), &mut scratch);
    owned(alloc, decision)
}

/// Whether a gateway with these entries, whose journal lies on an area of `size` octets, has room for
/// an act.
///
/// The greatest number that a node has in its present epoch is below 2^63, as it is in each history of
/// fit entries. `NoMemory`: there was no memory for what it notes of the entries.
pub fn has_room(
    alloc: Global,
    history: &[HistoryEntry],
    act: &Act<'_>,
    size: u64,
) -> Result<bool, NoMemory>
    requires { IsBounded history.now }
    ensures { IfOk result (λ has. has ≡ room_for history.now size (act_view act.now)) }
{
    let seen = Listed::of(alloc, history, size)?;
    Ok(seen.has_room(act))
}

/// The same decision, which owns what it says.
fn owned(alloc: Global, decision: Decision<'_>) -> Result<OwnedAnswer, NoMemory>
    ensures { IfOk result (λ found. answer_view found ≡ decision_view decision.entry) }
{
    match decision {
        Decision::Drop(why) => Ok(OwnedAnswer::Drop(why)),
        Decision::Reply { reply, act } => {
            let act = owned_act(alloc, act)?;
            Ok(OwnedAnswer::Reply { reply, act })
        }
    }
}

fn owned_act(alloc: Global, act: Option<Act<'_>>) -> Result<Option<HistoryAct>, NoMemory>
    ensures { IfOk result (λ found. found ≡ option_map act_view act.entry) }
{
    match act {
        Some(act) => Ok(Some(act.to_owned(alloc)?)),
        None => Ok(None),
    }
}
