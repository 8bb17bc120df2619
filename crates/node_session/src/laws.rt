//! Laws of the definitions that sessions cite. Each stands on a function that does nothing.
ghost use Rattle.std.specs.Prelude.{◌≡◌, ◌++◌, All, List, ℕ};
ghost use Rattle.gateway_book.specs.Turning.{tells_lists};
ghost use Rattle.gw_base.specs.Facts.{Facts, WhereTold};
ghost use Rattle.job_inbox.specs.declared.job.Job.{Job};
ghost use Rattle.net_link.specs.Datagrams.{LinkState};
ghost use Rattle.node_session.specs.Answering.{AddsAnswers, AreAnswers};
ghost use Rattle.node_session.specs.Together.{AreServed, EachMayHave, KeepsTurnsOf, TellTogether};
ghost use Rattle.node_session.specs.declared.served.Served.{Served};
ghost use Rattle.turn_cell.specs.Passes.{AreOwned};
ghost use Rattle.turn_cell.specs.declared.knowing.Knowledge.{Knowledge};

use crate::gate::Gate;
use area_disk::Area;

/// Where each pass to a cell added answers to jobs of its session alone, as `serve_one` and `step` keep it, each entry
/// past those that the cell was made with is the answer to such a job, at the entries in front of it.
pub fn each_entry_is_an_answer()
    ensures { (size : ℕ) (jobs : ℕ → List Job) (start now : Facts) (passes : List Knowledge) →
        All (λ k. (k.size ≡ size) × AddsAnswers (jobs k.number) k) passes → (owned : AreOwned start now passes) →
        AreAnswers size jobs owned.stood owned.tail }
{}

/// What is told of jobs that a session served together at this gate, as `take` and `go_on` serve them: the turns that its
/// pass keeps, what was sent for each, and what the gate may have answered. Where a pass keeps such turns of its session,
/// all that it added are answers to its jobs.
pub fn what_served_jobs_tell<A: Area, G: Gate>(gate: &G)
    ensures turns { (session : ℕ) (jobs : List Job) (old new : LinkState) (results : List Served)
        (before after : Knowledge) →
        AreServed A.Area (G.may gate.now) session jobs old new results before after →
        KeepsTurnsOf (tells_lists A.Area) session jobs before after }
    ensures tells { (session : ℕ) (jobs : List Job) (old new : LinkState) (results : List Served)
        (before after : Knowledge) →
        AreServed A.Area (G.may gate.now) session jobs old new results before after →
        TellTogether (tells_lists A.Area) session jobs results before after old new }
    ensures gate { (session : ℕ) (jobs : List Job) (old new : LinkState) (results : List Served)
        (before after : Knowledge) →
        AreServed A.Area (G.may gate.now) session jobs old new results before after →
        EachMayHave (G.may gate.now) session jobs results }
    ensures answers { WhereTold (tells_lists A.Area) ((session : ℕ) (jobs earlier : List Job)
        (before after : Knowledge) → KeepsTurnsOf (tells_lists A.Area) session jobs before after →
        session ≡ after.number → AddsAnswers earlier before → AddsAnswers (earlier ++ jobs) after) }
{
    let _ = gate;
}
