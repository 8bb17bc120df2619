// A session.
ghost use Rattle.std.specs.Prelude.{◌≡◌, IfSome, IsSome, Some};
ghost use Rattle.std.proofs.Props.{props};
ghost use Rattle.turn_cell.specs.Cell.{knowledge};

use crate::gate::Gate;
use crate::job_batch::JobBatch;
use crate::served::Served;
use crate::serving::serve;
use crate::together::{go_on_each, take_each};
use area_disk::Area;
use gateway_book::Book;
use job_inbox::Job;
use net_link::Link;
use std::sync::Wait;
use turn_cell::{Pass, TurnCell};

/// A session: it serves jobs with a pass, whose number the entries bear that it adds.
#[derive(Drop)]
pub struct Worker {
    pub(crate) session: u32,
    pub(crate) pass: Option<Pass>,
    ghost has: { IsSome pass },
    ghost own: { IfSome pass (λ p. session ≡ (knowledge p).number) } by { Prim.hlevel props },
}

impl Worker {
    ghost use Rattle.node_session.specs.Passes.{pass_of, session_of};

    /// The session that has this pass.
    pub fn new(session: u32, pass: Pass) -> Worker
        requires { session ≡ (knowledge pass).number }
        ensures session { session_of result ≡ session }
        ensures pass { pass_of result ≡ Some pass }
    {
        Worker {
            session,
            pass: Some(pass),
        }
    }

    /// Its pass.
    pub fn into_pass(self) -> Pass
        ensures { pass_of self ≡ Some result }
    {
        let Worker { session: _, pass } = self;
        let Some(pass) = pass else {
            unreachable!();
        };
        pass
    }
}

impl Worker {
    ghost use Rattle.std.specs.Prelude.{List, ◌∷◌, ◌++◌, []};
    ghost use Rattle.gateway_book.specs.Turning.{tells_lists};
    ghost use Rattle.gw_base.specs.Facts.{WhereTold};
    ghost use Rattle.job_inbox.specs.declared.job.Job.{Job};
    ghost use Rattle.node_session.specs.Answering.{AddsAnswers, KeepsTurns, MayHave, Tells};
    ghost use Rattle.node_session.specs.Passes.{IsWorkerOf, knowledge_of, session_of};
    ghost use Rattle.node_session.specs.Serving.{IsServed};

    /// Serves a job on a link. It prepares the datagram without a turn, takes it in one turn, enters the gate, and
    /// looks at the length that never falls. Where that hasn't reached the front of its answer, it takes a second turn,
    /// which commits where the front isn't firm yet. A reply goes out once all that it rests on is firm.
    pub fn serve_one<A: Area, G: Gate, L: Link, R: Wait>(
        &mut self,
        rt: &R,
        cell: &TurnCell<Book<A>>,
        job: Job,
        gate: &G,
        link: &mut L,
    ) -> Served
        requires own { IsWorkerOf cell.now self.old }
        ensures own { IsWorkerOf cell.now self.new × (session_of self.new ≡ session_of self.old) }
        // What it did, step by step: it is dropped exactly where the turn dropped it, and lost exactly where the book
        // told so and no send failed.
        ensures served { IsServed A.Area (G.may gate.now) (session_of self.old) job (L.state link.old)
            (L.state link.new) result (knowledge_of self.old) (knowledge_of self.new) }
        // The turns that its pass keeps of the call, and which entry they added.
        ensures turns { KeepsTurns (tells_lists A.Area) (session_of self.old) job (knowledge_of self.old)
            (knowledge_of self.new) }
        // What was sent, and what stands: no reply goes before its front.
        ensures tells { Tells (tells_lists A.Area) (session_of self.old) job (knowledge_of self.old)
            (knowledge_of self.new) (L.state link.old) (L.state link.new) result }
        ensures gate { MayHave (G.may gate.now (session_of self.old) job.serial) result }
        // All that it added are answers to its jobs.
        ensures answers { WhereTold (tells_lists A.Area) ((jobs : List Job) → AddsAnswers jobs (knowledge_of self.old) →
            AddsAnswers (jobs ++ job ∷ []) (knowledge_of self.new)) }
    {
        let Some(pass) = self.pass.take() else {
            unreachable!();
        };
        let (served, pass) = serve(rt, cell, pass, self.session, &job, gate, link);
        self.pass = Some(pass);
        served
    }
}

impl Worker {
    ghost use Rattle.std.specs.Prelude.{List, ℕ, ◌++◌};
    ghost use Rattle.gateway_book.specs.Turning.{tells_lists};
    ghost use Rattle.gw_base.specs.Facts.{WhereTold};
    ghost use Rattle.job_inbox.specs.declared.job.Job.{Job};
    ghost use Rattle.node_session.specs.Answering.{AddsAnswers};
    ghost use Rattle.node_session.specs.Batches.{AreAllTaken, HasRoomFor, jobs_of, outcomes_of, served_of};
    ghost use Rattle.node_session.specs.Passes.{IsWorkerOf, knowledge_of, session_of};
    ghost use Rattle.node_session.specs.Together.{AreServed, AreTaken, EachMayHave, FirstAreTaken, GoOn, HaveTurnsFor, KeepsTurnsOf, TellTogether};
    ghost use Rattle.turn_cell.specs.declared.knowing.Knowledge.{Knowledge};

    /// Takes the datagrams of those jobs of a batch that have no outcome yet: it waits once, and takes each in a turn, as
    /// `serve_one` does. It takes no memory. The outcomes that the batch has are those of this session's turns since it
    /// was cleared: of others no clause tells what was taken.
    pub fn take<A: Area, R: Wait>(&mut self, rt: &R, cell: &TurnCell<Book<A>>, batch: &mut JobBatch)
        requires own { IsWorkerOf cell.now self.old }
        ensures own { IsWorkerOf cell.now self.new × (session_of self.new ≡ session_of self.old) }
        ensures jobs { jobs_of batch.new ≡ jobs_of batch.old }
        ensures room { (n : ℕ) → HasRoomFor batch.old n → HasRoomFor batch.new n }
        ensures all { AreAllTaken batch.new }
        // What it did, step by step, behind what was done before.
        ensures taken { (before : Knowledge) → FirstAreTaken A.Area (session_of self.old) (jobs_of batch.old)
            (outcomes_of batch.old) before (knowledge_of self.old) → AreTaken A.Area (session_of self.old)
            (jobs_of batch.new) (outcomes_of batch.new) before (knowledge_of self.new) }
        ensures turns { HaveTurnsFor (tells_lists A.Area) (outcomes_of batch.old) (knowledge_of self.old) →
            HaveTurnsFor (tells_lists A.Area) (outcomes_of batch.new) (knowledge_of self.new) }
    {
        let Some(pass) = self.pass.take() else {
            unreachable!();
        };
        let (_, jobs) = batch.jobs.as_slice().split_at(batch.outcomes.len());
        let pass = take_each(rt, cell, pass, self.session, jobs, &mut batch.outcomes);
        self.pass = Some(pass);
    }

    /// Goes on with the jobs of a batch, whose datagrams were all taken, as `serve_one` does with one, in order: a
    /// commit makes all their answers firm. What became of each is in the batch then, which is to be cleared before it
    /// is used again. It takes no memory, but where the link does.
    pub fn go_on<A: Area, G: Gate, L: Link, R: Wait>(
        &mut self,
        rt: &R,
        cell: &TurnCell<Book<A>>,
        batch: &mut JobBatch,
        gate: &G,
        link: &mut L,
    )
        requires own { IsWorkerOf cell.now self.old }
        requires all { AreAllTaken batch.old }
        requires turns { HaveTurnsFor (tells_lists A.Area) (outcomes_of batch.old) (knowledge_of self.old) }
        ensures own { IsWorkerOf cell.now self.new × (session_of self.new ≡ session_of self.old) }
        ensures number { session_of self.old ≡ (knowledge_of self.new).number }
        ensures jobs { jobs_of batch.new ≡ jobs_of batch.old }
        ensures room { (n : ℕ) → HasRoomFor batch.old n → HasRoomFor batch.new n }
        ensures goes { GoOn A.Area (G.may gate.now) (session_of self.old) (jobs_of batch.old) (outcomes_of batch.old)
            (served_of batch.new) (knowledge_of self.old) (knowledge_of self.new) (L.state link.old)
            (L.state link.new) }
    {
        let Some(pass) = self.pass.take() else {
            unreachable!();
        };
        batch.served.clear();
        let pass = go_on_each(
            rt,
            cell,
            pass,
            gate,
            self.session,
            link,
            batch.jobs.as_slice(),
            batch.outcomes.as_slice(),
            &mut batch.served,
        );
        self.pass = Some(pass);
    }

    /// Serves the jobs of a batch on a link, so that one commit makes all their answers firm: it waits once, takes each
    /// datagram in a turn, as `serve_one` does, and once all are taken it goes on with each as that does, in order. What
    /// became of each is in the batch then. It takes no memory, but where the link does.
    pub fn serve_batch<A: Area, G: Gate, L: Link, R: Wait>(
        &mut self,
        rt: &R,
        cell: &TurnCell<Book<A>>,
        batch: &mut JobBatch,
        gate: &G,
        link: &mut L,
    )
        requires own { IsWorkerOf cell.now self.old }
        ensures own { IsWorkerOf cell.now self.new × (session_of self.new ≡ session_of self.old) }
        ensures jobs { jobs_of batch.new ≡ jobs_of batch.old }
        ensures room { (n : ℕ) → HasRoomFor batch.old n → HasRoomFor batch.new n }
        // What it did, step by step: a job is dropped exactly where its turn dropped it, and lost exactly where the
        // book told so and no send failed.
        ensures served { AreServed A.Area (G.may gate.now) (session_of self.old) (jobs_of batch.old) (L.state link.old)
            (L.state link.new) (served_of batch.new) (knowledge_of self.old) (knowledge_of self.new) }
        // The turns that its pass keeps of the call, and which entries they added: at most one for each job.
        ensures turns { KeepsTurnsOf (tells_lists A.Area) (session_of self.old) (jobs_of batch.old)
            (knowledge_of self.old) (knowledge_of self.new) }
        // What was sent for each, and what stands: no reply goes before its front.
        ensures tells { TellTogether (tells_lists A.Area) (session_of self.old) (jobs_of batch.old)
            (served_of batch.new) (knowledge_of self.old) (knowledge_of self.new) (L.state link.old)
            (L.state link.new) }
        ensures gate { EachMayHave (G.may gate.now) (session_of self.old) (jobs_of batch.old) (served_of batch.new) }
        // All that it added are answers to its jobs.
        ensures answers { WhereTold (tells_lists A.Area) ((jobs : List Job) → AddsAnswers jobs (knowledge_of self.old) →
            AddsAnswers (jobs ++ jobs_of batch.old) (knowledge_of self.new)) }
    {
        batch.outcomes.clear();
        self.take(rt, cell, batch);
        self.go_on(rt, cell, batch, gate, link);
    }
}
