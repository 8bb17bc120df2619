//! How a book's history is made firm, what has become of its answers, and how it ends.
ghost use Rattle.std.specs.Prelude.{◌≡◌, ◌≤◌, ◌++◌, IsTrue, OnOk, is_err};
ghost use Rattle.area_disk.specs.declared.plan.Outcome3.{Outcome3};
ghost use Rattle.gate_journal.specs.Format.{fewest_octets, most_octets};
ghost use Rattle.gate_journal.specs.Moments.{Told};
ghost use Rattle.cgf_journal.specs.Format.{StandsFor};
ghost use Rattle.cgf_journal.specs.Trail.{IsAtRest, firm_length, is_closed, left_by_stop, waiting_octets};
ghost use Rattle.gateway_book.specs.Caller.{IsCommitTold};
ghost use Rattle.gateway_book.specs.Calls.{commit_left, counts_of, is_above, settled_by, settled_of};
ghost use Rattle.gateway_book.specs.Comes.{asked_to_commit};
ghost use Rattle.gateway_answer.specs.FitHistory.{AllFit};
ghost use Rattle.gateway_answer.specs.Value.{after_commit};

use crate::book::Book;
use crate::{Broken, Counts, Settled};
use area_disk::Area;
use cgf_journal::Device;
use gateway_index::laws::an_index_tells_its_history;
use gw_base::scan::held_keys_are_as_many_as_held_copies;

impl<A: Area> Book<A> {
    ghost use Rattle.gateway_book.specs.Book.{CrashLeaves, HasCause, IsFirm, IsLeft, Stays, area_of, fortune_of, header_of, size_of, value_of};
    ghost use Rattle.gateway_book.specs.Comes.{AsPlanned, LeavesFit};
    ghost use Rattle.gateway_book.specs.Counted.{AreCounted};

    /// Makes the whole history firm, and answers its length. A broken book opens its journal again, with one call of
    /// the device; else it makes four calls where an entry waits, and none where none does.
    ///
    /// After `Broken` the book is broken: its history is the firm part, and the entries behind it are torn.
    pub fn commit(&mut self) -> Result<u64, Broken>
        ensures left { Told A.Area → IsLeft self.old self.new (commit_left (fortune_of self.old self.new)
            (value_of self.old)) result }
        ensures broken { is_closed self.new.trail ≡ is_err result }
        // The history is firm then, as each crash leaves it.
        ensures firm { OnOk result (IsFirm self.new) }
        // A crash at any moment of the call leaves the firm entries, or these with those behind them.
        ensures any_moment { CrashLeaves self.old self.new }
        ensures stays { Stays self.old self.new }
        ensures cause { HasCause self.old self.new }
        ensures planned { AsPlanned self.old self.new (asked_to_commit (value_of self.old)) }
        // Over every area, also one that tells nothing.
        ensures everywhere { IsCommitTold self.new result }
    {
        match self.firm_up() {
            Ok(()) => {
                // The clauses of these two say that where no entry waits, all are firm, and what a crash leaves.
                let _waiting = self.trail.waiting();
                let _broken = self.is_broken();
                Ok(self.trail.firm())
            }
            Err(Device) => Err(Broken { faults: self.cuts }),
        }
    }

    // Makes the whole history firm, or opens the journal of a broken book again.
    fn firm_up(&mut self) -> Result<(), Device>
        ensures moved { Told A.Area → value_of self.new ≡
            after_commit (fortune_of self.old self.new) (value_of self.old) }
        ensures closed { is_closed self.new.trail ≡ is_err result }
        ensures emptied { OnOk result (waiting_octets self.new.trail ≡ 0) }
        ensures any_moment { CrashLeaves self.old self.new }
        ensures stays { Stays self.old self.new }
        ensures cause { HasCause self.old self.new }
        ensures planned { AsPlanned self.old self.new (asked_to_commit (value_of self.old)) }
    {
        if self.trail.is_closed() {
            return self.open_again();
        }
        if self.trail.waiting().octets.is_empty() {
            return Ok(());
        }
        self.make_firm()
    }

    /// What has become of an answer with this front, given when so many commits and openings again had failed: both
    /// numbers are those of its `Receipt`, or of the mark that was made.
    ///
    /// The count of those that failed stands still at 2^64 - 1, which counts as above any: from then on each answer is
    /// told to be lost.
    pub fn settled(&self, front: u64, faults: u64) -> Settled
        ensures told { Told A.Area → result ≡ settled_of (value_of self.now) front faults }
        ensures counted { result ≡ settled_by self.now.cuts (firm_length self.now.trail) front faults }
    {
        let firm = self.trail.firm();
        if is_above(self.cuts, faults) {
            return Settled::Lost { faults: self.cuts };
        }
        if firm < front {
            return Settled::NotYet { firm };
        }
        Settled::Firm
    }

    /// How much the book has recorded and holds. Of a broken book the firm part counts. It reads nothing.
    pub fn counts(&self) -> Counts
        ensures told { Told A.Area → result ≡ counts_of (value_of self.now) (A.size (area_of self.now)) }
        ensures counted { AreCounted self.now result }
        // Each entry is fit, so that what they cost and promise is within the capacity.
        ensures fit { Told A.Area → AllFit (size_of self.now) ((value_of self.now).firm ++ (value_of self.now).rest) }
    {
        an_index_tells_its_history();
        held_keys_are_as_many_as_held_copies();
        let of_firm_side = self.trail.is_closed();
        Counts {
            entries: self.trail.length(),
            firm: self.trail.firm(),
            held: self.index.held(of_firm_side),
            stranded: self.index.totals(of_firm_side).stranded,
            free: self.trail.free(),
        }
    }

    /// Hands the area back as it is. It takes no memory.
    pub fn into_area(self) -> A
        ensures area { result ≡ area_of self }
        ensures long { fewest_octets ≤ A.size result }
        ensures short { A.size result ≤ most_octets }
        // At rest the area stands for the firm entries, or these with those behind them.
        ensures rests { IsAtRest self.trail }
        ensures stop { IsTrue A.tells_fate → Told A.Area → (outcome : Outcome3) →
            StandsFor (header_of self) ((A.fate (area_of self)).leaves outcome) (left_by_stop outcome self.trail) }
        ensures leaves { LeavesFit self }
    {
        let _broken = self.is_broken();
        let Book {
            trail,
            index: _,
            scratch: _,
            open_time: _,
            cuts: _,
            kept: _,
            cursor: _,
        } = self;
        trail.into_area()
    }
}

// Whether a count is above another. One that stands at its last value counts as above any.
fn is_above(count: u64, other: u64) -> bool
    ensures { result ≡ is_above count other }
{
    count == u64::MAX || count > other
}
