// How long is received.
ghost use Rattle.std.specs.Prelude.{◌≡◌, ◌<◌, ◌≤◌, ℕ, None, length};
ghost use Rattle.gw_base.specs.declared.address.Addr.{Addr};
ghost use Rattle.node_session.specs.Receiving.{AreOfEach, passes_of};
ghost use Rattle.session_run.specs.Reception.{CountsTurns, HasDispatched, IfTurns, StaysCalm, TellsOfClock};

use crate::beside::Task;
use crate::pace::Pace;
use crate::reception::Reception;
use crate::signals::Signals;
use crate::until::Until;
use job_inbox::Inbox;
use net_link::Link;
use std::sync::Wait;
use std::sync::atomic::{AtomicU64, Ordering};
use std::time::Clock;

/// A reception that is to receive, with what it is lent.
#[derive(Drop)]
pub(crate) struct Receiving<'a, L: Link, C: gw_base::Clock, R: Wait + Clock> {
    pub rt: &'a R,
    pub inboxes: &'a [Inbox],
    pub signals: &'a Signals,
    pub until: &'a Until<'a>,
    pub reception: Reception<L>,
    pub clock: &'a mut C,
}

impl<'a, L: Link, C: gw_base::Clock, R: Wait + Clock> Task for Receiving<'a, L, C, R> {
    ghost use Rattle.std.specs.Prelude.{◌≡◌};
    ghost use Rattle.session_run.specs.Rounds.{CanReceive, HasReceived};

    type Output = (Reception<L>, &'a mut C);

    ghost can_run = { λ t. CanReceive t.inboxes.now t.reception };

    ghost gives = { λ t r. (r.1.ghost_name ≡ t.clock.ghost_name) × HasReceived L.Link t.inboxes.now t.until.now
        t.reception r.0 (C.faults t.clock.now) (C.faults r.1.now) };

    fn run(self) -> (Reception<L>, &'a mut C) {
        let Receiving {
            rt,
            inboxes,
            signals,
            until,
            reception,
            clock,
        } = self;
        let reception = receive(rt, inboxes, signals, until, reception, clock);
        (reception, clock)
    }
}

// Receives until it is to end, or a link or the clock fails, or there is no memory.
fn receive<L: Link, C: gw_base::Clock, R: Wait + Clock>(
    rt: &R,
    inboxes: &[Inbox],
    signals: &Signals,
    until: &Until<'_>,
    reception: Reception<L>,
    clock: &mut C,
) -> Reception<L>
    requires some { 0 < length inboxes.now }
    requires own { AreOfEach inboxes.now (passes_of reception.dispatcher) }
    requires runs { reception.stop ≡ None }
    ensures own { AreOfEach inboxes.now (passes_of result.dispatcher) }
    ensures dispatched { (at : Addr) → HasDispatched L.Link at reception → HasDispatched L.Link at result }
    ensures turns { IfTurns until.now (λ n. CountsTurns L.Link n reception → CountsTurns L.Link n result) }
    ensures clock { C.faults clock.old ≤ C.faults clock.new }
    ensures cause { TellsOfClock (C.faults clock.old) (C.faults clock.new) result.stop }
    ensures calm { StaysCalm L.Link reception result }
{
    let reception = match until {
        Until::Turns(_) => receive_turns(rt, inboxes, signals, reception, clock),
        Until::QuietAfter { count, all } => receive_until_quiet(
            rt, inboxes, signals, *count, *all, reception, clock,
        ),
    };
    if reception.stop.is_some() {
        signals.stop();
    }
    signals.end_reception();
    reception
}

// Takes the turns that are left. Where datagrams come fast it rests between them.
fn receive_turns<L: Link, C: gw_base::Clock, R: Wait + Clock>(
    rt: &R,
    inboxes: &[Inbox],
    signals: &Signals,
    reception: Reception<L>,
    clock: &mut C,
) -> Reception<L>
    requires some { 0 < length inboxes.now }
    requires own { AreOfEach inboxes.now (passes_of reception.dispatcher) }
    requires runs { reception.stop ≡ None }
    ensures own { AreOfEach inboxes.now (passes_of result.dispatcher) }
    ensures dispatched { (at : Addr) → HasDispatched L.Link at reception → HasDispatched L.Link at result }
    ensures turns { (n : ℕ) → CountsTurns L.Link n reception → CountsTurns L.Link n result }
    ensures clock { C.faults clock.old ≤ C.faults clock.new }
    ensures cause { TellsOfClock (C.faults clock.old) (C.faults clock.new) result.stop }
    ensures calm { StaysCalm L.Link reception result }
{
    let mut reception = reception;
    let mut pace = Pace::new();
    while reception.left > 0 && !signals.is_stopped() {
        reception.left -= 1;
        let is_quiet = reception.step(rt, inboxes, clock);
        signals.call_behind(is_quiet);
        if reception.stop.is_some() {
            return reception;
        }
        pace.count(rt, is_quiet);
    }
    reception.is_over = reception.left == 0;
    reception
}

// Takes turns up to the first quiet one that began once the count had reached a number.
fn receive_until_quiet<L: Link, C: gw_base::Clock, R: Wait>(
    rt: &R,
    inboxes: &[Inbox],
    signals: &Signals,
    count: &AtomicU64,
    all: u64,
    reception: Reception<L>,
    clock: &mut C,
) -> Reception<L>
    requires some { 0 < length inboxes.now }
    requires own { AreOfEach inboxes.now (passes_of reception.dispatcher) }
    requires runs { reception.stop ≡ None }
    ensures own { AreOfEach inboxes.now (passes_of result.dispatcher) }
    ensures dispatched { (at : Addr) → HasDispatched L.Link at reception → HasDispatched L.Link at result }
    ensures clock { C.faults clock.old ≤ C.faults clock.new }
    ensures cause { TellsOfClock (C.faults clock.old) (C.faults clock.new) result.stop }
    ensures calm { StaysCalm L.Link reception result }
{
    let mut reception = reception;
    for _ in rt.forever() {
        if signals.is_stopped() {
            break;
        }
        let is_last = count.load(Ordering::SeqCst) >= all;
        let is_quiet = reception.step(rt, inboxes, clock);
        signals.call_behind(is_quiet);
        if reception.stop.is_some() {
            break;
        }
        if is_quiet && is_last {
            reception.is_over = true;
            break;
        }
    }
    reception
}
