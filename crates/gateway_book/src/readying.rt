// What comes before a datagram is answered or a mark is made.
ghost use Rattle.std.specs.Prelude.{◌≡◌, ◌≢◌, ◌≤◌, ◌+◌, IsTrue, true, false, if◌then◌else◌, OnOk, is_err};
ghost use Rattle.area_disk.specs.Disk.{counted};
ghost use Rattle.area_disk.specs.declared.plan.Outcome3.TheVariants.{New};
ghost use Rattle.gate_journal.specs.Moments.{Told};
ghost use Rattle.gate_journal.specs.Format.{longest_batch};
ghost use Rattle.cgf_journal.specs.Trail.{is_closed, stop_stands, torn_stands, waiting_octets};
ghost use Rattle.gateway_book.specs.Calls.{length_at};
ghost use Rattle.gateway_book.specs.Comes.{asked_to_ready};
ghost use Rattle.gateway_answer.specs.Value.{committed, faulted, is_batch_full, most_for_one, readied, reopened};

use crate::book::Book;
use area_disk::Area;
use cgf_journal::Device;
use gate_journal::LONGEST_BATCH;

/// The octets of a batch that the answer to one more datagram may need.
const MOST_FOR_ONE: usize = 270_000;

/// The length that never falls, by the count of failures, the firm length, and that of the first failure.
pub(crate) fn length_at(cuts: u64, firm: u64, kept: u64) -> u64
    ensures { result ≡ length_at cuts firm kept }
{
    if cuts == 0 { firm } else { kept }
}

/// A count after one more. It stands still at its last value.
fn one_more(count: u64) -> u64
    ensures value { result ≡ counted 1 count }
    ensures more { count ≤ result }
{
    count.saturating_add(1)
}

impl<A: Area> Book<A> {
    ghost use Rattle.gateway_book.specs.Book.{CrashLeaves, HasCause, Stays, fortune_of, reopening_of, value_of};
    ghost use Rattle.gateway_book.specs.Comes.{AsPlanned, CommitsAsPlanned, ReopensAsPlanned};

    /// Opens the journal of a broken book again: it makes one call of the device, and writes nothing. After `Device`
    /// the book is broken as before.
    pub(crate) fn open_again(&mut self) -> Result<(), Device>
        requires { is_closed self.old.trail ≡ true }

        ensures moved { Told A.Area → value_of self.new ≡
            reopened (value_of self.old) (reopening_of (is_err result) (torn_stands self.old.trail)) }
        ensures closed { is_closed self.new.trail ≡ is_err result }
        ensures emptied { OnOk result (waiting_octets self.new.trail ≡ 0) }
        ensures any_moment { CrashLeaves self.old self.new }
        ensures stays { Stays self.old self.new }
        ensures cause { HasCause self.old self.new }
        ensures planned { (IsTrue A.tells_fate → torn_stands self.old.trail ≡ stop_stands New self.old.trail) →
            ReopensAsPlanned self.old self.new }
    {
        match self.trail.reopen() {
            Ok(stands) => {
                self.index.keep(!stands);
                Ok(())
            }
            Err(fault) => {
                self.kept = length_at(self.cuts, self.trail.firm(), self.kept);
                self.cuts = one_more(self.cuts);
                Err(fault)
            }
        }
    }

    /// Makes all entries firm: it makes four calls of the device where some wait, and none else. After `Device` the
    /// book is broken, and the entries that waited are torn.
    pub(crate) fn make_firm(&mut self) -> Result<(), Device>
        requires { is_closed self.old.trail ≡ false }

        ensures moved { Told A.Area → value_of self.new ≡
            (if is_err result then faulted (value_of self.old) else committed (value_of self.old)) }
        ensures closed { is_closed self.new.trail ≡ is_err result }
        ensures emptied { OnOk result (waiting_octets self.new.trail ≡ 0) }
        ensures any_moment { CrashLeaves self.old self.new }
        ensures stays { Stays self.old self.new }
        ensures cause { HasCause self.old self.new }
        ensures planned { waiting_octets self.old.trail ≢ 0 → CommitsAsPlanned self.old self.new }
    {
        let _firm = self.trail.firm();
        match self.trail.commit() {
            Ok(_) => {
                self.index.keep(false);
                Ok(())
            }
            Err(fault) => {
                self.kept = length_at(self.cuts, self.trail.firm(), self.kept);
                self.cuts = one_more(self.cuts);
                Err(fault)
            }
        }
    }

    /// Whether fewer octets of the batch are free than the answer to one more datagram may need.
    fn is_batch_full(&self) -> bool
        ensures full { result ≡ is_batch_full (value_of self.now) }
        ensures free { result ≡ false → waiting_octets self.now.trail + most_for_one ≤ longest_batch }
        ensures some { result ≡ true → waiting_octets self.now.trail ≢ 0 }
    {
        LONGEST_BATCH - self.trail.waiting().octets.len() < MOST_FOR_ONE
    }

    /// Opens a broken book again, and commits where the batch is nearly full. After `Device` the book is broken.
    pub(crate) fn ready(&mut self) -> Result<(), Device>
        ensures moved { Told A.Area → value_of self.new ≡ readied (fortune_of self.old self.new) (value_of self.old) }
        ensures closed { is_closed self.new.trail ≡ is_err result }
        ensures free { OnOk result (waiting_octets self.new.trail + most_for_one ≤ longest_batch) }
        ensures any_moment { CrashLeaves self.old self.new }
        ensures stays { Stays self.old self.new }
        ensures cause { HasCause self.old self.new }
        ensures planned { AsPlanned self.old self.new (asked_to_ready (value_of self.old)) }
    {
        if self.trail.is_closed() {
            return self.open_again();
        }
        if self.is_batch_full() {
            return self.make_firm();
        }
        Ok(())
    }
}
