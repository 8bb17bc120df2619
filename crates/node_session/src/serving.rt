// How a session serves a job with its pass.
ghost use Rattle.std.specs.Prelude.{◌≡◌, ◌≢◌, ℕ, Some};
ghost use Rattle.std.specs.List.{Contains};
ghost use Rattle.turn_cell.specs.Cell.{IsPassOf, knowledge};
ghost use Rattle.turn_cell.specs.declared.knowing.KeptTurn.{KeptTurn};
ghost use Rattle.gateway_book.specs.Turning.{tells_lists};
ghost use Rattle.gateway_book.specs.declared.outcome.Settled.TheVariants.{NotYet};
ghost use Rattle.node_session.specs.Asking.{TakesIn};
ghost use Rattle.node_session.specs.Learning.{HasTurnFor, IsCountedBy};
ghost use Rattle.node_session.specs.Serving.{Concludes, GoesOn, IsServed, SendsFor, SendsTo, caller_of, once_stopped};

use crate::asking::ask;
use crate::gate::{Gate, Go};
use crate::served::Served;
use crate::taking::Taking;
use area_disk::Area;
use gateway_book::{Book, Outcome, Receipt, Settled, failure, prepare};
use gw_base::Caller;
use job_inbox::Job;
use net_link::{Link, LinkStop};
use std::sync::Wait;
use turn_cell::{Pass, TurnCell};

// What a call comes to whose link stopped.
fn stopped(stop: LinkStop) -> Served
    ensures { result ≡ once_stopped stop }
{
    match stop {
        LinkStop::Failed => Served::Link,
        LinkStop::NoMemory => Served::NoMemory,
    }
}

// Sends octets to the sender of a job, where the call would answer so.
fn send<L: Link>(link: &mut L, job: &Job, octets: &[u8], answer: Served) -> Served
    ensures { SendsTo job.now (L.state link.old) (L.state link.new) result (Some octets.now) answer }
{
    match link.send(job.from, octets) {
        Ok(()) => answer,
        Err(stop) => stopped(stop),
    }
}

// Sends what goes to the sender of a job, by what has become of its answer.
fn deliver<L: Link>(link: &mut L, job: &Job, receipt: &Receipt, settled: Settled) -> Served
    requires never { (n : ℕ) → settled ≢ NotYet n }
    ensures { SendsFor job.now (L.state link.old) (L.state link.new) result receipt.now settled }
{
    match settled {
        Settled::Firm => {
            let answer = Served::Replied {
                cause: receipt.cause,
                front: receipt.front,
            };
            send(link, job, receipt.reply.octets(), answer)
        }
        Settled::Lost { .. } => match failure(&prepare(job.octets.octets())) {
            Some(reply) => send(link, job, reply.octets(), Served::Lost),
            None => Served::Lost,
        },
        Settled::NotYet { .. } => unreachable!(),
    }
}

// Asks what has become of the answer to a job, and sends what goes to its sender.
fn conclude<A: Area, L: Link, R: Wait>(
    rt: &R,
    cell: &TurnCell<Book<A>>,
    pass: Pass,
    link: &mut L,
    job: &Job,
    receipt: &Receipt,
) -> (Served, Pass)
    requires own { IsPassOf cell.now pass }
    requires turn { (t : KeptTurn) × Contains (knowledge pass).turns t × IsCountedBy (tells_lists A.Area)
        receipt.now.front receipt.now.faults t }
    ensures own { IsPassOf cell.now result.1 }
    ensures concludes { Concludes A.Area job.now (L.state link.old) (L.state link.new) result.0 (knowledge pass)
        (knowledge result.1) receipt.now }
{
    let (settled, pass) = ask(rt, cell, pass, receipt.front, receipt.faults);
    (deliver(link, job, receipt, settled), pass)
}

/// Goes on with a job whose datagram was taken with this outcome.
pub(crate) fn go_on<A: Area, G: Gate, L: Link, R: Wait>(
    rt: &R,
    cell: &TurnCell<Book<A>>,
    pass: Pass,
    gate: &G,
    session: u32,
    link: &mut L,
    job: &Job,
    outcome: &Outcome,
) -> (Served, Pass)
    requires own { IsPassOf cell.now pass }
    requires turn { HasTurnFor (tells_lists A.Area) outcome.now (knowledge pass) }
    ensures own { IsPassOf cell.now result.1 }
    ensures goes { GoesOn A.Area (G.may gate.now) session job.now (L.state link.old) (L.state link.new) result.0
        (knowledge pass) (knowledge result.1) outcome.now }
{
    match outcome {
        Outcome::Drop(why) => (Served::Dropped(*why), pass),
        Outcome::Answer(receipt) => match gate.enter(session, job.serial) {
            Go::Over => (Served::Over, pass),
            Go::On => conclude(rt, cell, pass, link, job, receipt),
        },
    }
}

// Takes the datagram of a job in a turn, for which it is prepared before.
fn take<A: Area, R: Wait>(
    rt: &R,
    cell: &TurnCell<Book<A>>,
    pass: Pass,
    session: u32,
    job: &Job,
) -> (Outcome, Pass)
    requires own { IsPassOf cell.now pass }
    requires session { session ≡ (knowledge pass).number }
    ensures own { IsPassOf cell.now result.1 }
    ensures takes { TakesIn A.Area job.now.from job.now.octets job.now.moment (caller_of session job.now)
        (knowledge pass) result.0 (knowledge result.1) }
    ensures turn { HasTurnFor (tells_lists A.Area) result.0 (knowledge result.1) }
{
    let request = prepare(job.octets.octets());
    let who = Caller {
        session,
        serial: job.serial,
    };
    let turn = Taking {
        from: job.from,
        request: &request,
        now: job.moment,
        who,
    };
    cell.with(rt, pass, turn)
}

/// Serves a job: takes its datagram in one turn, enters the gate, asks whether the answer may be sent, and sends what
/// goes to its sender.
pub(crate) fn serve<A: Area, G: Gate, L: Link, R: Wait>(
    rt: &R,
    cell: &TurnCell<Book<A>>,
    pass: Pass,
    session: u32,
    job: &Job,
    gate: &G,
    link: &mut L,
) -> (Served, Pass)
    requires own { IsPassOf cell.now pass }
    requires session { session ≡ (knowledge pass).number }
    ensures own { IsPassOf cell.now result.1 }
    ensures served { IsServed A.Area (G.may gate.now) session job.now (L.state link.old) (L.state link.new) result.0
        (knowledge pass) (knowledge result.1) }
{
    let (outcome, pass) = take(rt, cell, pass, session, job);
    go_on(rt, cell, pass, gate, session, link, job, &outcome)
}
