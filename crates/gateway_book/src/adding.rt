// What an answer adds.
ghost use Rattle.std.specs.Prelude.{◌≡◌, ◌≤◌, ◌+◌, true, false, Some, None, Option, List, ℕ, IfSome};
ghost use Rattle.entry_codec.specs.Spelling.{entry_length};
ghost use Rattle.gate_journal.specs.Format.{longest_batch};
ghost use Rattle.entry_codec.specs.Room.{has_room};
ghost use Rattle.gate_journal.specs.Moments.{Told};
ghost use Rattle.cgf_journal.specs.Trail.{area_of, entries, has_room_of, is_closed, waiting_octets};
ghost use Rattle.gw_base.specs.Entry.{act_view, entry_view};
ghost use Rattle.gw_base.specs.declared.history.HistoryAct.{HistoryAct};
ghost use Rattle.gtpp_message.specs.declared.reading.Why.{Why};
ghost use Rattle.gateway_book.specs.Adding.{AddsIf, IsAdded, IsSame, MayAdd, given_by, room_in, room_told};
ghost use Rattle.gateway_answer.specs.Answer.{Says, Silent, decided};
ghost use Rattle.gateway_answer.specs.Answered.{act_decided, act_given};
ghost use Rattle.gateway_answer.specs.Cases.{case_value};
ghost use Rattle.gateway_answer.specs.Decisions.{decision_view};
ghost use Rattle.gateway_index.specs.Index.{MayCome};
ghost use Rattle.gateway_answer.specs.Preparing.{IsShort, IsWhole};
ghost use Rattle.gateway_answer.specs.Value.{most_for_one};

use crate::seen::Seen;
use area_disk::Area;
use cgf_journal::Trail;
use gateway_answer::{Case, Decision, Scratch, answer_by};
use gateway_index::Index;
use gtpp_message::Why;
use gw_base::{Addr, Caller, Entry, Moment, Short};

/// Adds an entry behind the others, where it waits for a commit. It takes no memory.
pub(crate) fn record<A: Area>(trail: &mut Trail<A>, index: &mut Index, entry: &Entry<'_>)
    requires open { is_closed trail.old ≡ false }
    requires room { has_room_of trail.old (entry_view entry.now) ≡ true }
    requires may_come { MayCome (act_view entry.now.act) index.old }
    requires free { waiting_octets trail.old + entry_length (entry_view entry.now) ≤ longest_batch }
    ensures { IsAdded trail.old trail.new index.old index.new (entry_view entry.now) }
{
    match trail.push(entry) {
        Ok(()) => index.note(entry),
        Err(_) => unreachable!(),
    }
}

/// What is done with a datagram.
#[derive(Drop)]
pub(crate) enum Done {
    /// It isn't answered.
    Silent(Why),
    /// These octets go back, and what the answer records was added.
    Said(Short),
}

/// Answers a datagram by an index, as if there were room for no act.
fn answer_without_room(index: &Index, scratch: &mut Scratch, from: Addr, case: &Case<'_>) -> Done
    requires { IsShort (case_value case.now) }
    ensures silent { (why : Why) → result ≡ Done.Silent why →
        decided (given_by index.now from (case_value case.now) (λ act. false)) ≡ Silent why }
    ensures said { (reply : List ℕ) → result ≡ Done.Said reply → (act : Option HistoryAct)
        × (decided (given_by index.now from (case_value case.now) (λ act. false)) ≡ Says reply act) }
{
    let seen = Seen {
        index,
        has_room: false,
    };
    match answer_by(&seen, from, case, scratch) {
        Decision::Drop(why) => Done::Silent(why),
        Decision::Reply { reply, act: _ } => Done::Said(reply),
    }
}

/// Adds the entry of an answer, where there is room for it, and else answers none.
fn add<A: Area>(
    trail: &mut Trail<A>,
    index: &mut Index,
    reply: Short,
    entry: &Entry<'_>,
) -> Option<Done>
    requires open { is_closed trail.old ≡ false }
    requires may_come { MayCome (act_view entry.now.act) index.old }
    requires free { waiting_octets trail.old + entry_length (entry_view entry.now) ≤ longest_batch }
    ensures said { (octets : List ℕ) → result ≡ Some (Done.Said octets) → (octets ≡ reply)
        × (has_room_of trail.old (entry_view entry.now) ≡ true)
        × IsAdded trail.old trail.new index.old index.new (entry_view entry.now) }
    ensures never_silent { (why : Why) → ¬ (result ≡ Some (Done.Silent why)) }
    ensures no_room { result ≡ None → (has_room_of trail.old (entry_view entry.now) ≡ false)
        × IsSame trail.old trail.new index.old index.new }
    ensures told { Told A.Area → has_room_of trail.old (entry_view entry.now) ≡
        has_room (entries trail.old) (entry_view entry.now) (A.size (area_of trail.old)) }
{
    if !trail.room(entry) {
        return None;
    }
    record(trail, index, entry);
    Some(Done::Said(reply))
}

/// The answer to a datagram by an index, as if there were room for any act.
fn propose<'a, 'p: 'a>(
    index: &Index,
    scratch: &'a mut Scratch,
    from: Addr,
    case: &Case<'p>,
) -> Decision<'a>
    requires { IsShort (case_value case.now) }
    ensures { decision_view result ≡ decided (given_by index.now from (case_value case.now) (λ act. true)) }
{
    let seen = Seen {
        index,
        has_room: true,
    };
    answer_by(&seen, from, case, scratch)
}

/// Adds what an answer records, where there is room for it, and else answers none.
fn conclude<A: Area>(
    trail: &mut Trail<A>,
    index: &mut Index,
    decision: Decision<'_>,
    moment: Moment,
    who: Caller,
) -> Option<Done>
    requires open { is_closed trail.old ≡ false }
    requires may_come { MayAdd (act_decided (decision_view decision)) trail.old index.old moment who }
    ensures silent { (why : Why) → result ≡ Some (Done.Silent why) → (decision_view decision.entry ≡ Silent why)
        × IsSame trail.old trail.new index.old index.new }
    ensures said { (reply : List ℕ) → result ≡ Some (Done.Said reply) → (act : Option HistoryAct)
        × (decision_view decision.entry ≡ Says reply act)
        × IfSome act (λ a. room_in trail.old moment who a ≡ true)
        × AddsIf trail.old trail.new index.old index.new moment who act }
    ensures no_room { result ≡ None → (reply : List ℕ) × (act : HistoryAct) × (decision_view decision.entry ≡
        Says reply (Some act))
        × (room_in trail.old moment who act ≡ false) × IsSame trail.old trail.new index.old index.new }
    ensures told { (a : HistoryAct) → act_decided (decision_view decision.entry) ≡ Some a → Told A.Area →
        room_in trail.old moment who a ≡ room_told trail.old moment who a }
{
    match decision {
        Decision::Drop(why) => Some(Done::Silent(why)),
        Decision::Reply { reply, act } => match act {
            None => Some(Done::Said(reply)),
            Some(act) => {
                let entry = Entry {
                    moment,
                    caller: who,
                    act,
                };
                add(trail, index, reply, &entry)
            }
        },
    }
}

/// Answers a datagram by an open trail and its index, and adds what the answer records, or answers none where there
/// is no room for that.
fn answer_with_room<A: Area>(
    trail: &mut Trail<A>,
    index: &mut Index,
    scratch: &mut Scratch,
    from: Addr,
    case: &Case<'_>,
    moment: Moment,
    who: Caller,
) -> Option<Done>
    requires open { is_closed trail.old ≡ false }
    requires free { waiting_octets trail.old + most_for_one ≤ longest_batch }
    requires prepared { IsWhole (case_value case.now) × IsShort (case_value case.now) }
    ensures silent { (why : Why) → result ≡ Some (Done.Silent why) →
        (decided (given_by index.old from (case_value case.now) (λ act. true)) ≡ Silent why)
        × IsSame trail.old trail.new index.old index.new }
    ensures said { (reply : List ℕ) → result ≡ Some (Done.Said reply) → (act : Option HistoryAct)
        × (decided (given_by index.old from (case_value case.now) (λ act. true)) ≡ Says reply act)
        × IfSome act (λ a. room_in trail.old moment who a ≡ true)
        × AddsIf trail.old trail.new index.old index.new moment who act }
    ensures no_room { result ≡ None → (reply : List ℕ) × (act : HistoryAct)
        × (decided (given_by index.old from (case_value case.now) (λ act. true)) ≡ Says reply (Some act))
        × (room_in trail.old moment who act ≡ false) × IsSame trail.old trail.new index.old index.new }
    ensures told { (a : HistoryAct) → act_given (given_by index.old from (case_value case.now) (λ act. true)) ≡
        Some a → Told A.Area → room_in trail.old moment who a ≡ room_told trail.old moment who a }
{
    let decision = propose(index, scratch, from, case);
    conclude(trail, index, decision, moment, who)
}

/// Answers a datagram by an open trail and its index, and adds what the answer records.
pub(crate) fn answer<A: Area>(
    trail: &mut Trail<A>,
    index: &mut Index,
    scratch: &mut Scratch,
    from: Addr,
    case: &Case<'_>,
    moment: Moment,
    who: Caller,
) -> Done
    requires open { is_closed trail.old ≡ false }
    requires free { waiting_octets trail.old + most_for_one ≤ longest_batch }
    requires prepared { IsWhole (case_value case.now) × IsShort (case_value case.now) }
    ensures silent { (why : Why) → result ≡ Done.Silent why →
        (decided (given_by index.old from (case_value case.now) (room_in trail.old moment who)) ≡ Silent why)
        × IsSame trail.old trail.new index.old index.new }
    ensures said { (reply : List ℕ) → result ≡ Done.Said reply → (act : Option HistoryAct)
        × (decided (given_by index.old from (case_value case.now) (room_in trail.old moment who)) ≡ Says reply act)
        × AddsIf trail.old trail.new index.old index.new moment who act }
    ensures told { Told A.Area →
        decided (given_by index.old from (case_value case.now) (room_in trail.old moment who))
        ≡ decided (given_by index.old from (case_value case.now) (room_told trail.old moment who)) }
{
    match answer_with_room(trail, index, scratch, from, case, moment, who) {
        Some(done) => done,
        None => answer_without_room(index, scratch, from, case),
    }
}
