//! What one session answers, job after job.
ghost use Rattle.std.specs.Prelude.{◌≡◌};
ghost use Rattle.net_link.specs.Memory.{told_of};
ghost use Rattle.node_session.specs.Passes.{IsWorkerOf};

use crate::desk::{
    Cell, Desk, answer, desks, ended, finished, job, net, opened, replied, request, were_sent,
};
use gtpp_message::Why;
use job_inbox::Job;
use node_session::{Gate, Go, JobBatch, Served, Worker};
use std::alloc::Global;
use std::process::Abort;
use std::sync::Wait;

// A gate that lets every job go on.
struct Open;

impl Gate for Open {
    ghost use Rattle.std.specs.Prelude.{◌≡◌};
    ghost use Rattle.node_session.specs.declared.gate.Go.TheVariants.{On};

    ghost may = { λ gate session serial go. go ≡ On };

    fn enter(&self, _session: u32, _serial: u64) -> Go {
        Go::On
    }
}

// What became of five jobs at the desk of session 1.
fn five<R: Abort + Wait>(rt: &R, alloc: Global, cell: &Cell, desk: Desk) -> ([Served; 5], Desk)
    requires own { IsWorkerOf cell.now desk.worker }
    ensures own { IsWorkerOf cell.now result.1.worker }
    ensures address { (told_of result.1.link).address ≡ (told_of desk.link).address }
{
    let stray = [0x0F, 3, 0, 0, 0, 5];
    let (new, desk) = answer(rt, cell, &Open, desk, job(rt, alloc, 1, 1, &request(0)));
    let (again, desk) = answer(rt, cell, &Open, desk, job(rt, alloc, 1, 2, &request(0)));
    let (dropped, desk) = answer(rt, cell, &Open, desk, job(rt, alloc, 1, 3, &stray));
    let (failed, desk) = answer(rt, cell, &Open, desk, job(rt, alloc, 1, 4, &request(1)));
    let (apart, desk) = answer(rt, cell, &Open, desk, job(rt, alloc, 0, 5, &request(0)));
    ([new, again, dropped, failed, apart], desk)
}

// What became of five jobs of one session, whose link fails at its third call, and whether three responses were sent.
fn five_jobs<R: Abort + Wait>(rt: &R, alloc: Global) -> ([Served; 5], bool) {
    let links = net(rt, alloc, &[3]);
    let (cell, links, other, desk) = desks(rt, alloc, opened(rt, alloc), links);
    let (told, desk) = five(rt, alloc, &cell, desk);
    let (_calls, links) = finished(rt, alloc, cell, links, other, desk);
    (told, were_sent(&links, &[(0, 128), (0, 253), (0, 128)]))
}

#[test]
fn a_session_tells_what_became_of_each_job(rt: HostRuntime) {
    let wanted = [
        replied(128, 2),
        replied(253, 2),
        Served::Dropped(Why::Stray),
        Served::Link,
        replied(128, 4),
    ];
    assert!(rt; five_jobs(&rt, rt.alloc()) == (wanted, true));
}

// Puts a job into a batch.
fn put(rt: &impl Abort, batch: &mut JobBatch, job: Job) {
    if batch.is_full() {
        panic!(rt; "no room in a batch")
    }
    batch.add(job);
}

// A batch of two requests of session 1, and the first one's repeat.
fn three_jobs(rt: &impl Abort, alloc: Global) -> JobBatch {
    let Ok(mut batch) = JobBatch::new(alloc, 3) else {
        panic!(rt; "no memory for a batch")
    };
    put(rt, &mut batch, job(rt, alloc, 1, 1, &request(0)));
    put(rt, &mut batch, job(rt, alloc, 1, 2, &request(1)));
    put(rt, &mut batch, job(rt, alloc, 1, 3, &request(0)));
    batch
}

// Serves the jobs of a batch at a desk.
fn together<R: Wait>(rt: &R, cell: &Cell, desk: Desk, batch: &mut JobBatch) -> Worker
    requires own { IsWorkerOf cell.now desk.worker }
    ensures own { IsWorkerOf cell.now result }
{
    let Desk {
        mut worker,
        mut link,
    } = desk;
    worker.serve_batch(rt, cell, batch, &Open, &mut link);
    worker
}

// How often the area was written or synced for a batch of jobs.
fn served<R: Abort + Wait>(rt: &R, alloc: Global, batch: &mut JobBatch) -> u64 {
    let (cell, _links, other, desk) = desks(rt, alloc, opened(rt, alloc), net(rt, alloc, &[]));
    let worker = together(rt, &cell, desk, batch);
    ended(rt, alloc, cell, other.worker, worker)
}

#[test]
fn one_commit_makes_the_answers_of_a_batch_firm(rt: HostRuntime) {
    let mut batch = three_jobs(&rt, rt.alloc());
    let calls = served(&rt, rt.alloc(), &mut batch);
    let wanted = [replied(128, 2), replied(128, 3), replied(253, 3)];
    assert!(rt; batch.served() == wanted.as_slice());
    assert_eq!(rt; calls, 4);
}
