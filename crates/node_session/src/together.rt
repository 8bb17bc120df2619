// How a session serves several jobs together.
ghost use Rattle.std.specs.Prelude.{◌≡◌, ◌≤◌, ◌+◌, ◌++◌, List, [], length, vec_capacity};
ghost use Rattle.gateway_book.specs.Turning.{tells_lists};
ghost use Rattle.job_inbox.specs.declared.job.Job.{Job};
ghost use Rattle.turn_cell.specs.Cell.{IsPassOf, knowledge};
ghost use Rattle.turn_cell.specs.declared.knowing.Knowledge.{Knowledge};
ghost use Rattle.node_session.specs.Together.{AreTaken, GoOn, HaveTurnsFor};

use crate::gate::Gate;
use crate::served::Served;
use crate::serving::go_on;
use crate::taking::TakingEach;
use area_disk::Area;
use gateway_book::{Book, Outcome};
use job_inbox::Job;
use net_link::Link;
use std::sync::Wait;
use turn_cell::{Pass, TurnCell};

/// Takes the datagrams of jobs, each in a turn of its own, in order, with their outcomes behind those of the jobs whose
/// datagrams were taken before. It waits once for all these turns. It takes no memory.
pub(crate) fn take_each<A: Area, R: Wait>(
    rt: &R,
    cell: &TurnCell<Book<A>>,
    pass: Pass,
    session: u32,
    jobs: &[Job],
    outcomes: &mut Vec<Outcome>,
) -> Pass
    requires own { IsPassOf cell.now pass }
    requires session { session ≡ (knowledge pass).number }
    requires room { length outcomes.old.items + length jobs.now ≤ vec_capacity outcomes.old }
    ensures own { IsPassOf cell.now result × ((knowledge result).number ≡ (knowledge pass).number) }
    ensures taken { (earlier : List Job) (before : Knowledge) →
        AreTaken A.Area session earlier outcomes.old.items before (knowledge pass) →
        AreTaken A.Area session (earlier ++ jobs.now) outcomes.new.items before (knowledge result) }
    ensures turns { HaveTurnsFor (tells_lists A.Area) outcomes.old.items (knowledge pass) →
        HaveTurnsFor (tells_lists A.Area) outcomes.new.items (knowledge result) }
    ensures each { length outcomes.new.items ≡ length outcomes.old.items + length jobs.now }
    ensures capacity { vec_capacity outcomes.new ≡ vec_capacity outcomes.old }
{
    cell.with_each(rt, pass, &TakingEach { session }, jobs, outcomes)
}

/// Goes on with jobs whose datagrams were taken with these outcomes, in order. Where the first one's answer isn't firm
/// yet its second turn commits, and those of the others are firm then.
pub(crate) fn go_on_each<A: Area, G: Gate, L: Link, R: Wait>(
    rt: &R,
    cell: &TurnCell<Book<A>>,
    pass: Pass,
    gate: &G,
    session: u32,
    link: &mut L,
    jobs: &[Job],
    outcomes: &[Outcome],
    served: &mut Vec<Served>,
) -> Pass
    requires own { IsPassOf cell.now pass }
    requires turns { HaveTurnsFor (tells_lists A.Area) outcomes.now (knowledge pass) }
    requires each { length outcomes.now ≡ length jobs.now }
    requires room { (served.old.items ≡ []) × (length jobs.now ≤ vec_capacity served.old) }
    ensures own { IsPassOf cell.now result }
    ensures go_on { GoOn A.Area (G.may gate.now) session jobs.now outcomes.now served.new.items (knowledge pass)
        (knowledge result) (L.state link.old) (L.state link.new) }
    ensures capacity { vec_capacity served.new ≡ vec_capacity served.old }
{
    let mut pass = pass;
    for k in 0..jobs.len() {
        let (answer, now) = go_on(rt, cell, pass, gate, session, link, &jobs[k], &outcomes[k]);
        served.push_reserved(answer);
        pass = now;
    }
    pass
}
