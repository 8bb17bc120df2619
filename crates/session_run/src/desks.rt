// How two sessions serve the jobs of their inboxes on one thread.
ghost use Rattle.std.specs.Prelude.{◌≡◌, ◌++◌, List, []};
ghost use Rattle.gateway_book.specs.Turning.{tells_lists};
ghost use Rattle.job_inbox.specs.Inbox.{IsPassOf, knowledge};
ghost use Rattle.job_inbox.specs.declared.job.Job.{Job};
ghost use Rattle.node_session.specs.Batches.{jobs_of, outcomes_of};
ghost use Rattle.node_session.specs.Passes.{IsWorkerOf};
ghost use Rattle.session_run.specs.Desks.{IsDeskOf, with_all_taken};
ghost use Rattle.session_run.specs.Latest.{later_of, latest};
ghost use Rattle.session_run.specs.Taking.{HasTaken, IsTaken};
ghost use Rattle.session_run.specs.Team.{ArePairOf, PairWorksOn, WorksOn};
ghost use Rattle.session_run.specs.declared.desk.Desk.{Desk};

use crate::desk::{Desk, first_stop, later};
use crate::gathering::Gathering;
use crate::signals::Signals;
use area_disk::Area;
use gateway_book::Book;
use gw_base::Moment;
use job_inbox::{Inbox, InboxPass};
use net_link::Link;
use node_session::JobBatch;
use node_session::laws::what_served_jobs_tell;
use std::sync::Wait;
use std::thread;
use std::time::{Clock, Duration};
use turn_cell::TurnCell;

/// For how many milliseconds an idle thread sleeps.
const IDLE_MILLISECONDS: u64 = 1;

/// How often a thread that served a job looks at its empty inboxes again before it sleeps.
const LOOKS: u32 = 32;

/// How often it then sleeps until it is called, and finds nothing, before it sleeps so many milliseconds at a time. A
/// call wakes all threads that sleep so, and a datagram is for one of them.
const CALLS: u32 = 8;

/// Lets a thread sleep that has nothing to do.
pub(crate) fn idle<R: Clock>(rt: &R) {
    thread::sleep(rt, Duration::from_millis(IDLE_MILLISECONDS));
}

// Lets a thread wait that has looked so often at empty inboxes, and counts one look more. First it looks again soon,
// then it sleeps until it is called once more than so often, and at last for a while.
fn wait<R: Wait + Clock>(rt: &R, signals: &Signals, calls: u64, looks: u32) -> u32 {
    if looks >= LOOKS + CALLS {
        idle(rt);
        return looks;
    }
    if looks >= LOOKS {
        signals.sleep(rt, calls);
        return looks + 1;
    }
    thread::yield_now();
    looks + 1
}

/// Two sessions serve the jobs of their inboxes in turn, until both were empty after the last was pushed, or all is to
/// end.
pub(crate) fn work<A: Area, L: Link, R: Wait + Clock>(
    rt: &R,
    cell: &TurnCell<Book<A>>,
    one: &Inbox,
    two: &Inbox,
    signals: &Signals,
    desks: (Desk<L>, Desk<L>),
) -> (Desk<L>, Desk<L>)
    requires own { ArePairOf cell.now one.now two.now desks }
    ensures own { ArePairOf cell.now one.now two.now result }
    ensures worked { PairWorksOn L.Link (tells_lists A.Area) desks result }
{
    let mut desks = desks;
    let mut looks = LOOKS + CALLS;
    let mut works = false;
    for _ in rt.forever() {
        let calls = signals.calls();
        let is_last = signals.has_received();
        if signals.is_stopped() {
            break;
        }
        let (served, now) = serve_next(rt, cell, one, two, signals, works, desks);
        desks = now;
        works = served;
        let stop = desks.0.stop.or(desks.1.stop);
        if stop.is_some() {
            signals.stop();
        } else if served {
            looks = 0;
        } else if is_last {
            break;
        } else {
            looks = wait(rt, signals, calls, looks);
        }
    }
    signals.end_sessions(2);
    desks
}

// Takes the jobs that wait in an inbox into a batch, behind those in it, as many as it has room for. The latest moment is
// told.
fn fill<R: Wait>(
    rt: &R,
    inbox: &Inbox,
    pass: InboxPass,
    batch: &mut JobBatch,
    last: Option<Moment>,
) -> (Option<Moment>, InboxPass)
    requires own { IsPassOf inbox.now pass }
    ensures own { IsPassOf inbox.now result.1 }
    ensures taken { (more : List Job) × (jobs_of batch.new ≡ jobs_of batch.old ++ more)
        × (knowledge result.1 ≡ with_all_taken more (knowledge pass)) × (result.0 ≡ later_of last (latest more)) }
    ensures same { outcomes_of batch.new ≡ outcomes_of batch.old }
{
    let mut pass = pass;
    let mut last = last;
    for _ in rt.forever() {
        if batch.is_full() {
            break;
        }
        let (job, now) = inbox.pop(rt, pass);
        pass = now;
        let Some(job) = job else {
            break;
        };
        last = later(last, Some(job.moment));
        batch.add(job);
    }
    (last, pass)
}

// Takes the datagrams of the jobs that wait in an inbox, behind those in the batch of its desk, as many as that has
// room for. The thread works from the first one on. Whether there were any is told.
fn take_next<A: Area, L: Link, R: Wait>(
    rt: &R,
    cell: &TurnCell<Book<A>>,
    inbox: &Inbox,
    signals: &Signals,
    works: bool,
    desk: Desk<L>,
) -> (bool, Desk<L>)
    requires own { IsDeskOf cell.now inbox.now desk }
    requires taken { IsTaken (tells_lists A.Area) desk }
    ensures own { IsDeskOf cell.now inbox.now result.1 }
    ensures taken { IsTaken (tells_lists A.Area) result.1 }
    ensures takes { (first : Desk L) → HasTaken A.Area first desk → HasTaken A.Area first result.1 }
{
    let Desk {
        mut worker,
        pass,
        link,
        last,
        stop,
        mut batch,
    } = desk;
    let (last, pass) = fill(rt, inbox, pass, &mut batch, last);
    let has_come = !batch.are_all_taken();
    if has_come {
        if !works {
            signals.begin_work();
        }
        worker.take(rt, cell, &mut batch);
    }
    let desk = Desk {
        worker,
        pass,
        link,
        last,
        stop,
        batch,
    };
    (has_come, desk)
}

// A desk whose batch has no job.
fn clear<L: Link>(desk: Desk<L>) -> Desk<L>
    ensures rest { result ≡ record desk { batch = result.batch } }
    ensures none { (jobs_of result.batch ≡ []) × (outcomes_of result.batch ≡ []) }
{
    let mut desk = desk;
    desk.batch.clear();
    desk
}

// Takes the datagrams of the jobs that wait in two inboxes, and of those that come meanwhile, as many as the batches
// have room for. Whether the thread works then is told.
fn take_all<A: Area, L: Link, R: Wait>(
    rt: &R,
    cell: &TurnCell<Book<A>>,
    one: &Inbox,
    two: &Inbox,
    signals: &Signals,
    works: bool,
    desks: (Desk<L>, Desk<L>),
) -> (bool, (Desk<L>, Desk<L>))
    requires own { ArePairOf cell.now one.now two.now desks }
    ensures own { ArePairOf cell.now one.now two.now result.1 }
    ensures taken { IsTaken (tells_lists A.Area) result.1.0 × IsTaken (tells_lists A.Area) result.1.1 }
    ensures takes { HasTaken A.Area desks.0 result.1.0 × HasTaken A.Area desks.1 result.1.1 }
{
    let mut works = works;
    let mut a = clear(desks.0);
    let mut b = clear(desks.1);
    for _ in rt.forever() {
        let (first, now) = take_next(rt, cell, one, signals, works, a);
        a = now;
        works = works || first;
        let (second, now) = take_next(rt, cell, two, signals, works, b);
        b = now;
        works = works || second;
        if !first && !second {
            break;
        }
    }
    (works, (a, b))
}

// Goes on with the jobs of a desk's batch, whose datagrams were all taken.
fn go_on<A: Area, L: Link, R: Wait>(
    rt: &R,
    cell: &TurnCell<Book<A>>,
    gate: &Gathering<'_>,
    desk: Desk<L>,
) -> Desk<L>
    requires own { IsWorkerOf cell.now desk.worker }
    requires taken { IsTaken (tells_lists A.Area) desk }
    ensures own { IsWorkerOf cell.now result.worker × (result.pass ≡ desk.pass) }
    ensures worked { (first : Desk L) → HasTaken A.Area first desk →
        WorksOn L.Link (tells_lists A.Area) first result }
{
    what_served_jobs_tell::<A, Gathering<'_>>(gate);
    let Desk {
        mut worker,
        pass,
        mut link,
        last,
        stop,
        mut batch,
    } = desk;
    worker.go_on(rt, cell, &mut batch, gate, &mut link);
    let stop = stop.or(first_stop(batch.served()));
    Desk {
        worker,
        pass,
        link,
        last,
        stop,
        batch,
    }
}

// Serves the jobs that wait in two inboxes together, and tells whether there were any. The thread works until there are
// none.
fn serve_next<A: Area, L: Link, R: Wait>(
    rt: &R,
    cell: &TurnCell<Book<A>>,
    one: &Inbox,
    two: &Inbox,
    signals: &Signals,
    works: bool,
    desks: (Desk<L>, Desk<L>),
) -> (bool, (Desk<L>, Desk<L>))
    requires own { ArePairOf cell.now one.now two.now desks }
    ensures own { ArePairOf cell.now one.now two.now result.1 }
    ensures worked { PairWorksOn L.Link (tells_lists A.Area) desks result.1 }
{
    let (works, (a, b)) = take_all(rt, cell, one, two, signals, works, desks);
    let jobs = a.batch.jobs().len().saturating_add(b.batch.jobs().len());
    let gate = Gathering::new(signals, works, jobs);
    let a = go_on(rt, cell, &gate, a);
    let b = go_on(rt, cell, &gate, b);
    gate.leave();
    (jobs > 0, (a, b))
}
