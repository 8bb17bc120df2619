// Who receives, with what it has of its own.
ghost use Rattle.std.specs.Prelude.{◌≡◌, ◌<◌, ◌≤◌, length};
ghost use Rattle.gw_base.specs.declared.address.Addr.{Addr};
ghost use Rattle.node_session.specs.Receiving.{AreOfEach, passes_of};
ghost use Rattle.session_run.specs.Reception.{HasDispatched, TakesTurn, TellsOfClock, stop_behind, was_quiet};

use crate::stop::Stop;
use job_inbox::Inbox;
use net_link::Link;
use node_session::{Dispatched, Dispatcher};
use std::sync::Wait;

/// Who receives: a dispatcher, its link, how many turns are left where they are counted, whether it has received all
/// that it is to, and why it stopped, if it did.
#[derive(Drop)]
pub(crate) struct Reception<L: Link> {
    pub dispatcher: Dispatcher,
    pub link: L,
    pub left: u64,
    pub is_over: bool,
    pub stop: Option<Stop>,
}

/// Why the reception stops behind a step, if it does.
fn stop_of(dispatched: Dispatched) -> Option<Stop>
    ensures { result ≡ stop_behind dispatched }
{
    match dispatched {
        Dispatched::Link => Some(Stop::Link),
        Dispatched::Clock => Some(Stop::Clock),
        Dispatched::NoMemory => Some(Stop::NoMemory),
        Dispatched::Pushed | Dispatched::Full | Dispatched::Quiet => None,
    }
}

/// Whether nothing came in a step.
fn was_quiet(dispatched: Dispatched) -> bool
    ensures { result ≡ was_quiet dispatched }
{
    matches!(dispatched, Dispatched::Quiet)
}

impl<L: Link> Reception<L> {
    /// Takes a turn of the link, and tells whether it was a quiet one.
    pub fn step<C: gw_base::Clock, R: Wait>(
        &mut self,
        rt: &R,
        inboxes: &[Inbox],
        clock: &mut C,
    ) -> bool
        requires some { 0 < length inboxes.now }
        requires own { AreOfEach inboxes.now (passes_of self.old.dispatcher) }
        ensures own { AreOfEach inboxes.now (passes_of self.new.dispatcher) }
        ensures dispatched { (at : Addr) → HasDispatched L.Link at self.old → HasDispatched L.Link at self.new }
        ensures turn { TakesTurn L.Link result self.old self.new }
        ensures rest { (self.new.left ≡ self.old.left) × (self.new.is_over ≡ self.old.is_over) }
        ensures clock { C.faults clock.old ≤ C.faults clock.new }
        ensures cause { TellsOfClock (C.faults clock.old) (C.faults clock.new) self.new.stop }
    {
        let dispatched = self.dispatcher.step(rt, &mut self.link, clock, inboxes);
        self.stop = stop_of(dispatched);
        was_quiet(dispatched)
    }
}
