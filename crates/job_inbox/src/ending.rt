// How an inbox is ended.
ghost use Rattle.std.specs.Prelude.{◌≡◌, ◌<◌, ◌≤◌, ◌++◌, IfErr, OnErr, OnOk, length, vec_len};
ghost use Rattle.crossbeam_queue.specs.Passes.{view};
ghost use Rattle.job_inbox.specs.Hands.{AreSettled, TookWhatWasPushed};
ghost use Rattle.job_inbox.specs.Inbox.{ArePassesOf, Has, known_by, made_by};

use crate::hand::{Gather, Whole};
use crate::inbox::{Inbox, InboxPass, Seat};
use turn_cell::Missing;

// Takes all passes into the seat of one.
fn gather(inbox: &Inbox, seat: &mut Seat, mut passes: Vec<InboxPass>)
    requires seat { Has inbox.now seat.old (view seat.old).hands }
    requires passes { ArePassesOf inbox.now passes.items }
    ensures all { Has inbox.now seat.new (known_by passes.items ++ (view seat.old).hands) }
{
    while let Some(pass) = passes.pop() {
        let InboxPass { seat: other } = pass;
        inbox.queue.absorb::<Gather>(seat, other);
    }
}

// One seat, which has all these passes.
fn whole(inbox: &Inbox, mut passes: Vec<InboxPass>) -> Seat
    requires passes { ArePassesOf inbox.now passes.items }
    requires some { 0 < vec_len passes }
    ensures all { Has inbox.now result (known_by passes.items) }
{
    let Some(last) = passes.pop() else {
        unreachable!()
    };
    let InboxPass { mut seat } = last;
    gather(inbox, &mut seat, passes);
    seat
}

// What a seat learns that has as many passes as were made.
fn settle(inbox: &Inbox, mut seat: Seat)
    requires seat { Has inbox.now seat (view seat).hands }
    requires all { inbox.now.made ≤ length (view seat).hands }
    ensures count { length (view seat).hands ≡ inbox.now.made }
    ensures settled { AreSettled (view seat).hands }
    ensures pushed { TookWhatWasPushed (view seat).hands }
{
    inbox.queue.learn_as::<Whole>(&mut seat);
}

impl Inbox {
    /// Ends the inbox, where all its passes are given, and drops the jobs that it holds. Else inbox and passes come
    /// back as they were. It takes no memory.
    pub fn finish(self, passes: Vec<InboxPass>) -> Result<(), (Missing, Inbox, Vec<InboxPass>)>
        requires own { ArePassesOf self passes.items }
        ensures all { OnOk result (made_by self ≡ vec_len passes) }
        ensures settled { OnOk result (AreSettled (known_by passes.items)) }
        ensures pushed { OnOk result (TookWhatWasPushed (known_by passes.items)) }
        ensures fewer { OnErr result (vec_len passes < made_by self) }
        ensures missing { IfErr result (λ back. (back.0.wanted ≡ made_by self) × (back.0.given ≡ vec_len passes)) }
        ensures back { IfErr result (λ back. (back.1 ≡ self) × (back.2 ≡ passes)) }
    {
        if passes.len() < self.made as usize {
            let missing = Missing {
                wanted: self.made,
                given: passes.len() as u32,
            };
            return Err((missing, self, passes));
        }
        let seat = whole(&self, passes);
        settle(&self, seat);
        Ok(())
    }
}
