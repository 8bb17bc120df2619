// What a gateway answers to a datagram.
ghost use Rattle.std.specs.Prelude.{◌≡◌, ◌≤◌, ◌+◌, Option, false};
ghost use Rattle.gate_journal.specs.Format.{longest_batch};
ghost use Rattle.gate_journal.specs.Moments.{Told};
ghost use Rattle.cgf_journal.specs.Trail.{is_closed, waiting_octets};
ghost use Rattle.gw_base.specs.History.{moment_after};
ghost use Rattle.gw_base.specs.declared.history.HistoryAct.{HistoryAct};
ghost use Rattle.gateway_answer.specs.Answer.{Says, decided, failure_answer};
ghost use Rattle.gateway_answer.specs.Answered.{answer_to};
ghost use Rattle.gateway_book.specs.Caller.{HasStorage, IsAnswered, IsCounted, IsFailure, IsTold, receipt_of};
ghost use Rattle.gateway_book.specs.Calls.{cause_in, left_by, outcome_at, taken};
ghost use Rattle.gateway_answer.specs.Cases.{case_value};
ghost use Rattle.gateway_book.specs.Comes.{asked_to_ready};
ghost use Rattle.gateway_answer.specs.Fit.{latest_moment};
ghost use Rattle.gateway_book.specs.Followed.{all_entries};
ghost use Rattle.gateway_book.specs.Marking.{OnlyAdds};
ghost use Rattle.gateway_answer.specs.Preparing.{IsShort, IsWhole, prepared_of};
ghost use Rattle.gateway_book.specs.Taking.{IsDone, IsDoneBy};
ghost use Rattle.gateway_answer.specs.Value.{history_of, most_for_one, readied};

use crate::adding::{Done, answer};
use crate::book::Book;
use crate::observed::an_index_is_enough;
use crate::{Outcome, Receipt};
use area_disk::Area;
use gateway_answer::laws::what_is_held_can_be_released;
use gateway_answer::{Case, Decision, Prepared, failure_answer};
use gateway_index::laws::an_index_tells_its_history;
use gtpp_message::message_types::TRANSFER_RESPONSE;
use gw_base::{Addr, Caller, Moment, Short};

/// The cause in a reply that is a Data Record Transfer Response.
fn cause_in(reply: &[u8]) -> Option<u8>
    ensures { result ≡ cause_in reply.now }
{
    match reply.get(1) {
        Some(&TRANSFER_RESPONSE) => reply.get(7).copied(),
        _ => None,
    }
}

impl<A: Area> Book<A> {
    ghost use Rattle.gateway_book.specs.Book.{CrashLeaves, HasCause, IsLeft, Stays, fortune_of, size_of, value_of};
    ghost use Rattle.gateway_book.specs.Comes.{AsPlanned};

    /// Takes a datagram of this sender. A broken book is opened again first, with one call of the device; one of whose
    /// batch fewer than 270,000 octets are free commits first, with four. Then it answers, and adds what the answer
    /// records, at the moment and by the caller: the entry waits for a commit. It takes no memory.
    ///
    /// Where the device fails a request is answered by the cause system failure, all else is dropped, and the book is
    /// broken.
    pub fn take(&mut self, from: Addr, request: &Prepared<'_>, now: Moment, who: Caller) -> Outcome
        ensures taken { Told A.Area → IsLeft self.old self.new
            (taken (fortune_of self.old self.new) from (prepared_of request.now) (size_of self.old) now who
            (value_of self.old)) result }
        // A crash at any moment of the call leaves the firm entries, or these with those behind them.
        ensures any_moment { CrashLeaves self.old self.new }
        ensures stays { Stays self.old self.new }
        ensures cause { HasCause self.old self.new }
        ensures planned { AsPlanned self.old self.new (asked_to_ready (value_of self.old)) }
        // Over every area, also one that tells nothing.
        ensures everywhere { IsTold self.new from (prepared_of request.now) result }
        // Where the device doesn't fail, no request is refused for want of resources that has room, and no release or
        // cancel is.
        ensures storage { Told A.Area → is_closed self.new.trail ≡ false →
            HasStorage (history_of (readied (fortune_of self.old self.new) (value_of self.old))) from
            (prepared_of request.now) (size_of self.old) result }
    {
        what_is_held_can_be_released();
        let case = request.case();
        match self.ready() {
            Ok(()) => self.respond(from, case, now, who),
            Err(_) => self.fail(case),
        }
    }

    // The octets that go back, and when they may.
    fn receipt(&self, reply: Short) -> Outcome
        ensures answered { Told A.Area → (act : Option HistoryAct) →
            result ≡ outcome_at (value_of self.now) (Says reply act) }
        ensures said { result ≡ receipt_of self.now reply }
    {
        let cause = cause_in(reply.octets());
        Outcome::Answer(Receipt {
            reply,
            cause,
            front: self.trail.length(),
            faults: self.cuts,
        })
    }

    // What is answered where the device failed.
    fn fail(&self, case: &Case<'_>) -> Outcome
        ensures answered { Told A.Area →
            result ≡ outcome_at (value_of self.now) (decided (failure_answer (case_value case.now))) }
        ensures counted { IsCounted self.now result }
        ensures failed { IsFailure (case_value case.now) result }
    {
        match failure_answer(case) {
            Decision::Drop(why) => Outcome::Drop(why),
            Decision::Reply { reply, act: _ } => self.receipt(reply),
        }
    }

    /// The moment that an entry made now bears.
    pub(crate) fn moment_after(&self, now: Moment) -> Moment
        ensures after { Told A.Area → result ≡ moment_after (all_entries self.now.trail) now }
        ensures within { now ≤ latest_moment }
    {
        an_index_tells_its_history();
        let _seconds = now.seconds();
        now.max(self.index.totals(false).moment)
    }

    // Adds what the answer to a datagram records, where the book is ready.
    fn add_answer(&mut self, from: Addr, case: &Case<'_>, now: Moment, who: Caller) -> Done
        requires open { is_closed self.old.trail ≡ false }
        requires free { waiting_octets self.old.trail + most_for_one ≤ longest_batch }
        requires prepared { IsWhole (case_value case.now) × IsShort (case_value case.now) }
        ensures moved { Told A.Area → IsDone result (value_of self.old) (value_of self.new) now who
            (decided (answer_to (history_of (value_of self.old)) from (case_value case.now) (size_of self.old))) }
        ensures decided { IsDoneBy from (case_value case.now) result }
        ensures adds { OnlyAdds self.old self.new }
        ensures stays { Stays self.old self.new }
    {
        an_index_is_enough();
        let moment = self.moment_after(now);
        let (trail, index, scratch) = (&mut self.trail, &mut self.index, &mut self.scratch);
        answer(trail, index, scratch, from, case, moment, who)
    }

    // Answers a datagram where the book is ready.
    fn respond(&mut self, from: Addr, case: &Case<'_>, now: Moment, who: Caller) -> Outcome
        requires open { is_closed self.old.trail ≡ false }
        requires free { waiting_octets self.old.trail + most_for_one ≤ longest_batch }
        requires prepared { IsWhole (case_value case.now) × IsShort (case_value case.now) }
        ensures left { Told A.Area → IsLeft self.old self.new
            (left_by (value_of self.old) now who (decided
            (answer_to (history_of (value_of self.old)) from (case_value case.now) (size_of self.old)))) result }
        ensures everywhere { IsAnswered from (case_value case.now) result × IsCounted self.new result }
        ensures adds { OnlyAdds self.old self.new }
        ensures stays { Stays self.old self.new }
    {
        match self.add_answer(from, case, now, who) {
            Done::Silent(why) => Outcome::Drop(why),
            Done::Said(reply) => self.receipt(reply),
        }
    }
}
