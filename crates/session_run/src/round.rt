// The threads on which a gateway serves.
ghost use Rattle.std.specs.Prelude.{◌≡◌, ◌≤◌, ◌<◌, ℕ, None, false, length, true};
ghost use Rattle.gateway_book.specs.Turning.{tells_lists};
ghost use Rattle.gw_base.specs.declared.address.Addr.{Addr};
ghost use Rattle.node_session.specs.Receiving.{AreOfEach, passes_of};
ghost use Rattle.node_session.specs.Writing.{IsActorOf};
ghost use Rattle.session_run.specs.Reception.{CountsTurns, HasDispatched, IfTurns, StaysCalm, TellsOfClock};
ghost use Rattle.session_run.specs.Team.{AreDesksOf, ArePairOf, IsReady, IsTeamOf, PairWorksOn, TeamWorksOn, WritesOn, last_among, stop_among};

use crate::beside::{beside, take_back};
use crate::desk::{Desk, later};
use crate::desks::work;
use crate::filing::write_files;
use crate::receiving::Receiving;
use crate::reception::Reception;
use crate::signals::Signals;
use crate::stop::Stop;
use crate::until::Until;
use area_disk::Area;
use cdr_shelf::Shelf;
use gateway_book::Book;
use gw_base::Moment;
use job_inbox::Inbox;
use net_link::Link;
use node_session::FileActor;
use std::alloc::Global;
use std::sync::Wait;
use std::thread::{self, Threads};
use std::time::Clock;
use turn_cell::TurnCell;

/// Who answers and who writes: four sessions by two, and who takes items to the writer of files.
#[derive(Drop)]
pub(crate) struct Team<F: Shelf, L: Link> {
    pub first: (Desk<L>, Desk<L>),
    pub second: (Desk<L>, Desk<L>),
    pub actor: FileActor<F>,
}

impl<F: Shelf, L: Link> Team<F, L> {
    /// Why a session stopped, if one did.
    pub fn stop(&self) -> Option<Stop>
        ensures { result ≡ stop_among self.now }
    {
        self.first
            .0
            .stop
            .or(self.first.1.stop)
            .or(self.second.0.stop)
            .or(self.second.1.stop)
    }

    /// The latest moment of a job that was taken.
    pub fn last(&self) -> Option<Moment>
        ensures { result ≡ last_among self.now }
    {
        let first = later(self.first.0.last, self.first.1.last);
        let second = later(self.second.0.last, self.second.1.last);
        later(first, second)
    }
}

// Four sessions serve, two on a thread, where a second one can be made.
fn work_four<A: Area + Send, L: Link + Send, R: Threads + Wait + Clock + Sync>(
    rt: &R,
    cell: &TurnCell<Book<A>>,
    one: &Inbox,
    two: &Inbox,
    three: &Inbox,
    four: &Inbox,
    signals: &Signals,
    first: (Desk<L>, Desk<L>),
    second: (Desk<L>, Desk<L>),
) -> ((Desk<L>, Desk<L>), (Desk<L>, Desk<L>))
    requires own { ArePairOf cell.now one.now two.now first × ArePairOf cell.now three.now four.now second }
    ensures own { ArePairOf cell.now one.now two.now result.0 × ArePairOf cell.now three.now four.now result.1 }
    ensures first { PairWorksOn L.Link (tells_lists A.Area) first result.0 }
    ensures second { PairWorksOn L.Link (tells_lists A.Area) second result.1 }
{
    let (second, first) = thread::join(
        rt,
        move || -> (Desk<L>, Desk<L>)
            requires { ArePairOf cell.now three.now four.now second }
            ensures own { ArePairOf cell.entry.now three.entry.now four.entry.now result }
            ensures worked { PairWorksOn L.Link (tells_lists A.Area) second result }
        { work(rt, cell, three, four, signals, second) },
        move || -> (Desk<L>, Desk<L>)
            requires { ArePairOf cell.now one.now two.now first }
            ensures own { ArePairOf cell.entry.now one.entry.now two.entry.now result }
            ensures worked { PairWorksOn L.Link (tells_lists A.Area) first result }
        { work(rt, cell, one, two, signals, first) },
    );
    (first, second)
}

// Four sessions serve, with the inboxes of a list.
fn work_all<A: Area + Send, L: Link + Send, R: Threads + Wait + Clock + Sync>(
    rt: &R,
    cell: &TurnCell<Book<A>>,
    inboxes: &[Inbox],
    signals: &Signals,
    first: (Desk<L>, Desk<L>),
    second: (Desk<L>, Desk<L>),
) -> ((Desk<L>, Desk<L>), (Desk<L>, Desk<L>))
    requires own { AreDesksOf cell.now inboxes.now first second }
    ensures own { AreDesksOf cell.now inboxes.now result.0 result.1 }
    ensures first { PairWorksOn L.Link (tells_lists A.Area) first result.0 }
    ensures second { PairWorksOn L.Link (tells_lists A.Area) second result.1 }
{
    let [one, two, three, four] = inboxes else {
        unreachable!();
    };
    work_four(rt, cell, one, two, three, four, signals, first, second)
}

// The sessions serve, and the files are written.
fn work_and_write<
    A: Area + Send,
    F: Shelf + Send,
    L: Link + Send,
    R: Threads + Wait + Clock + Sync,
>(
    rt: &R,
    alloc: Global,
    cell: &TurnCell<Book<A>>,
    inboxes: &[Inbox],
    signals: &Signals,
    team: Team<F, L>,
) -> Team<F, L>
    requires own { IsTeamOf cell.now inboxes.now team }
    requires writer { IsReady (tells_lists A.Area) team.actor }
    ensures own { IsTeamOf cell.now inboxes.now result }
    ensures writer { IsReady (tells_lists A.Area) result.actor }
    ensures worked { TeamWorksOn F.Shelf L.Link (tells_lists A.Area) team result }
{
    let Team {
        first,
        second,
        actor,
    } = team;
    let (actor, (first, second)) = thread::join(
        rt,
        move || -> FileActor<F>
            requires { IsActorOf cell.now actor × IsReady (tells_lists A.Area) actor }
            ensures own { IsActorOf cell.entry.now result × IsReady (tells_lists A.Area) result }
            ensures written { WritesOn F.Shelf (tells_lists A.Area) actor result }
        { write_files(rt, alloc, cell, signals, actor) },
        move || -> ((Desk<L>, Desk<L>), (Desk<L>, Desk<L>))
            requires { AreDesksOf cell.now inboxes.now first second }
            ensures own { AreDesksOf cell.entry.now inboxes.entry.now result.0 result.1 }
            ensures first { PairWorksOn L.Link (tells_lists A.Area) first result.0 }
            ensures second { PairWorksOn L.Link (tells_lists A.Area) second result.1 }
        { work_all(rt, cell, inboxes, signals, first, second) },
    );
    Team {
        first,
        second,
        actor,
    }
}

// All serve until the reception ends.
fn serve_once<
    A: Area + Send,
    F: Shelf + Send,
    L: Link + Send,
    C: gw_base::Clock,
    R: Threads + Wait + Clock + Sync,
>(
    rt: &R,
    alloc: Global,
    cell: &TurnCell<Book<A>>,
    inboxes: &[Inbox],
    until: &Until<'_>,
    served: (Reception<L>, Team<F, L>),
    clock: &mut C,
) -> (Reception<L>, Team<F, L>)
    requires own { AreOfEach inboxes.now (passes_of served.0.dispatcher) × IsTeamOf cell.now inboxes.now served.1 }
    requires runs { served.0.stop ≡ None }
    requires writer { IsReady (tells_lists A.Area) served.1.actor }
    ensures own { AreOfEach inboxes.now (passes_of result.0.dispatcher) × IsTeamOf cell.now inboxes.now result.1 }
    ensures writer { IsReady (tells_lists A.Area) result.1.actor }
    ensures worked { TeamWorksOn F.Shelf L.Link (tells_lists A.Area) served.1 result.1 }
    ensures dispatched { (at : Addr) → HasDispatched L.Link at served.0 → HasDispatched L.Link at result.0 }
    ensures turns { IfTurns until.now (λ n. CountsTurns L.Link n served.0 → CountsTurns L.Link n result.0) }
    ensures clock { C.faults clock.old ≤ C.faults clock.new }
    ensures cause { TellsOfClock (C.faults clock.old) (C.faults clock.new) result.0.stop }
    ensures calm { StaysCalm L.Link served.0 result.0 }
{
    let signals = Signals::new();
    let told = &signals;
    let (reception, team) = served;
    let (team, (reception, clock)) = beside(
        rt,
        move || -> Team<F, L>
            requires own { IsTeamOf cell.now inboxes.now team }
            requires writer { IsReady (tells_lists A.Area) team.actor }
            ensures own { IsTeamOf cell.entry.now inboxes.entry.now result }
            ensures writer { IsReady (tells_lists A.Area) result.actor }
            ensures worked { TeamWorksOn F.Shelf L.Link (tells_lists A.Area) team result }
        { work_and_write(rt, alloc, cell, inboxes, told, team) },
        Receiving {
            rt,
            inboxes,
            signals: told,
            until,
            reception,
            clock,
        },
    );
    take_back(clock);
    (reception, team)
}

// Whether all have ended: something stopped one of them, or the reception is over.
fn have_ended<F: Shelf, L: Link>(served: &(Reception<L>, Team<F, L>)) -> bool
    ensures ended { result ≡ true → served.now.0.stop ≡ None → stop_among served.now.1 ≡ None →
        served.now.0.is_over ≡ true }
    ensures runs { result ≡ false → served.now.0.stop ≡ None }
{
    match served.0.stop {
        Some(_) => true,
        None => match served.1.stop() {
            Some(_) => true,
            None => served.0.is_over,
        },
    }
}

/// All serve until they are told to end, or something stops. A round that ended before is followed by another.
pub(crate) fn serve<
    A: Area + Send,
    F: Shelf + Send,
    L: Link + Send,
    C: gw_base::Clock,
    R: Threads + Wait + Clock + Sync,
>(
    rt: &R,
    alloc: Global,
    cell: &TurnCell<Book<A>>,
    inboxes: &[Inbox],
    until: &Until<'_>,
    served: (Reception<L>, Team<F, L>),
    clock: &mut C,
) -> (Reception<L>, Team<F, L>)
    requires own { AreOfEach inboxes.now (passes_of served.0.dispatcher) × IsTeamOf cell.now inboxes.now served.1 }
    requires runs { served.0.stop ≡ None }
    requires writer { IsReady (tells_lists A.Area) served.1.actor }
    ensures own { AreOfEach inboxes.now (passes_of result.0.dispatcher) × IsTeamOf cell.now inboxes.now result.1 }
    ensures worked { TeamWorksOn F.Shelf L.Link (tells_lists A.Area) served.1 result.1 }
    ensures dispatched { (at : Addr) → HasDispatched L.Link at served.0 → HasDispatched L.Link at result.0 }
    ensures turns { IfTurns until.now (λ n. CountsTurns L.Link n served.0 → CountsTurns L.Link n result.0) }
    ensures clock { C.faults clock.old ≤ C.faults clock.new }
    ensures cause { TellsOfClock (C.faults clock.old) (C.faults clock.new) result.0.stop }
    ensures calm { StaysCalm L.Link served.0 result.0 }
    ensures over { result.0.stop ≡ None → stop_among result.1 ≡ None → result.0.is_over ≡ true }
{
    let mut served = served;
    for _ in rt.forever() {
        served = serve_once(rt, alloc, cell, inboxes, until, served, clock);
        if have_ended(&served) {
            return served;
        }
    }
    unreachable!()
}
