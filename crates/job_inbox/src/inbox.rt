// An inbox, and how its passes push and pop.
ghost use Rattle.std.specs.Prelude.{◌≡◌, ◌<◌, IfErr, IfNone, IfSome, OnErr, OnOk};
ghost use Rattle.crossbeam_queue.specs.Fifo.{Held};
ghost use Rattle.job_inbox.specs.Rule.{with_put, with_taken};

use crate::hand::{Hands, InOrder, Push, Take};
use crate::job::Job;
use crossbeam_queue::{Pass, RuledArrayQueue};
use std::sync::Wait;

pub(crate) type Queue = RuledArrayQueue<Job, Hands, InOrder>;

pub(crate) type Seat = Pass<Job, Hands>;

/// A pass to an inbox: who has it can push and pop. It takes no memory.
#[derive(Drop)]
pub struct InboxPass {
    pub(crate) seat: Seat,
}

/// A queue of jobs that has room for so many, with passes for those who push and pop.
#[derive(Drop)]
pub struct Inbox {
    pub(crate) queue: Queue,
    pub(crate) made: u32,
    ghost some: { 0 < made },
}

impl Inbox {
    ghost use Rattle.job_inbox.specs.Hands.{Shows, ShowsFirst};
    ghost use Rattle.job_inbox.specs.Inbox.{IsPassOf, capacity_of, knowledge, made_by};

    /// Pushes a job behind those that the inbox holds. It hands the job back only if the inbox was full at a moment of
    /// the call.
    pub fn push<R: Wait>(&self, rt: &R, pass: InboxPass, job: Job) -> (Result<(), Job>, InboxPass)
        requires own { IsPassOf self.now pass }
        ensures own { IsPassOf self.now result.1 }
        ensures ok { OnOk result.0 (knowledge result.1 ≡ with_put job (knowledge pass)) }
        ensures back { IfErr result.0 (λ back. (back ≡ job) × (knowledge result.1 ≡ knowledge pass)) }
        ensures full { OnErr result.0 (Held (capacity_of self.now) (Shows (made_by self.now) (knowledge pass))) }
    {
        let InboxPass { mut seat } = pass;
        match self.queue.push_as::<Push, R>(rt, &mut seat, job) {
            Ok(()) => (Ok(()), InboxPass { seat }),
            Err(job) => (Err(job), InboxPass { seat }),
        }
    }

    /// Takes the first of the jobs that the inbox holds. `None` comes only if it was empty at a moment of the call.
    pub fn pop<R: Wait>(&self, rt: &R, pass: InboxPass) -> (Option<Job>, InboxPass)
        requires own { IsPassOf self.now pass }
        ensures own { IsPassOf self.now result.1 }
        ensures some { IfSome result.0 (λ job. knowledge result.1 ≡ with_taken job (knowledge pass)) }
        ensures first { IfSome result.0 (ShowsFirst (made_by self.now) (knowledge pass)) }
        ensures none { IfNone result.0 (knowledge result.1 ≡ knowledge pass) }
        ensures empty { IfNone result.0 (Held 0 (Shows (made_by self.now) (knowledge pass))) }
    {
        let InboxPass { mut seat } = pass;
        match self.queue.pop_as::<Take, R>(rt, &mut seat) {
            Some(job) => (Some(job), InboxPass { seat }),
            None => (None, InboxPass { seat }),
        }
    }
}
