// A gateway serves.
ghost use Rattle.std.specs.Prelude.{◌≡◌, ◌≤◌, ◌<◌, ◌∷◌, [], All, None, Some, false, length, vec_len};
ghost use Rattle.std.specs.Option.{option_or};
ghost use Rattle.gateway_book.specs.Book.{value_of};
ghost use Rattle.gateway_book.specs.Turning.{facts_of, tells_lists};
ghost use Rattle.gw_base.specs.Facts.{WhereTold};
ghost use Rattle.node_session.specs.Passes.{pass_of, session_of};
ghost use Rattle.node_session.specs.Receiving.{AreOfEach, hands_of, passes_of};
ghost use Rattle.node_session.specs.Writing.{IsWriterOf, writer_of};
ghost use Rattle.turn_cell.specs.Cell.{begun, made_by};
ghost use Rattle.turn_cell.specs.declared.cell.Pass.{Pass};
ghost use Rattle.session_run.specs.Ending.{AreAllSettled, AreNumbered, ArePassesFor, ArePopsOf, AreSettledWith, HasEnded, HasSome, IsFresh, IsLastNumber, IsSeated, TakesLast, links_of};
ghost use Rattle.session_run.specs.Filing.{KeepsWriter};
ghost use Rattle.session_run.specs.History.{GoesOnUntil};
ghost use Rattle.session_run.specs.Making.{HasRoomForTwo, HasTwo, pops_in};
ghost use Rattle.session_run.specs.Reception.{IfTurns};
ghost use Rattle.session_run.specs.Running.{AreFiveOf, AreNewAt, HasStopCause, HaveReplied, IsFew, StaysAs, TakesAtMost, heard_by};
ghost use Rattle.session_run.specs.Team.{IsTeamOf, last_among, stop_among};
ghost use Rattle.session_run.specs.declared.stop.Stop.TheVariants as stop;

use crate::desk::Desk;
use crate::ending::{finish_cell, leave};
use crate::gateway::{Gateway, Ran};
use crate::making::{Batches, Hall, Pops, make_hall};
use crate::reception::Reception;
use crate::round::{Team, serve};
use crate::stop::Stop;
use crate::until::Until;
use area_disk::Area;
use cdr_shelf::Shelf;
use file_writer::Writer;
use gateway_answer::laws::filed_records_stay;
use gateway_book::Book;
use gw_base::{Addr, Moment};
use job_inbox::{Inbox, InboxPass};
use net_link::Link;
use node_session::{Dispatcher, FileActor, JobBatch, Worker};
use std::alloc::Global;
use std::sync::Wait;
use std::thread::Threads;
use std::time::Clock;
use turn_cell::{Pass, TurnCell};

/// How many passes the cell has: one for each session, and one for who writes the files.
const PASSES: u32 = 5;

/// Lets a gateway serve until it is told to end. One thread receives, two answer for two sessions each, and one writes
/// the files. Who receives and each session has a link of its own. The first fault of a link or of the clock, or want
/// of memory, ends all soon, and all is handed back whatever comes: the book and the writer may be broken then, where a
/// device failed.
///
/// The links are five new ones of the gateway's address. Of turns there are fewer than 2^63.
pub fn run<
    A: Area + Send,
    F: Shelf + Send,
    L: Link + Send,
    C: gw_base::Clock,
    R: Threads + Wait + Clock + Sync,
>(rt: &R, alloc: Global, gateway: Gateway<A, F, L>, clock: &mut C, until: Until<'_>) -> Ran<A, F, L>
    requires links { AreNewAt L.Link gateway.address gateway.links.items }
    requires writer { IsWriterOf (tells_lists A.Area) (value_of gateway.book).firm gateway.writer }
    requires few { IsFew until }

    // The history goes on by answers to datagrams that the first link received, and nothing else: each is answered once
    // at most, and those of a session in their order. The latest moment of the jobs that were made of them is told.
    ensures history { WhereTold (tells_lists A.Area) (GoesOnUntil (heard_by L.Link result.gateway.links.items)
        (facts_of gateway.book) (facts_of result.gateway.book) result.last) }
    // What the links sent are replies to such datagrams, one to each at most, each of which rests on what is firm.
    ensures replies { WhereTold (tells_lists A.Area) (HaveReplied L.Link
        (heard_by L.Link result.gateway.links.items) (facts_of gateway.book) (facts_of result.gateway.book)
        result.gateway.links.items) }
    ensures book { StaysAs (facts_of gateway.book) (facts_of result.gateway.book) }
    ensures links { AreFiveOf L.Link gateway.address result.gateway.links.items }
    // Its first link took no more turns than these, and unless something stopped it all of them.
    ensures turns { IfTurns until.entry (TakesAtMost L.Link result.gateway.links.items result.stop) }
    ensures writer { KeepsWriter F.Shelf (tells_lists A.Area) (value_of result.gateway.book).firm gateway.writer
        result.gateway.writer }
    ensures clock { C.faults clock.old ≤ C.faults clock.new }
    // What stopped it is a fault of a link that is handed back, or of the clock, or want of memory. Where nothing did,
    // neither a link nor the clock failed.
    ensures cause { HasStopCause L.Link (C.faults clock.old) (C.faults clock.new) result.gateway.links.items
        result.stop }
{
    filed_records_stay();
    let Gateway {
        book,
        writer,
        address,
        links,
    } = gateway;
    let Ok(hall) = make_hall(alloc) else {
        return unserved(Gateway {
            book,
            writer,
            address,
            links,
        });
    };
    match TurnCell::new(alloc, book, PASSES) {
        Ok((cell, passes)) => {
            let Hall {
                inboxes,
                dispatcher,
                pops,
                batches,
                lists,
            } = hall;
            let turns = turns_in(&until);
            let seats = seat(passes, links, dispatcher, pops, batches, writer, turns);
            let Seats {
                reception,
                team,
                passes,
                links,
            } = seats;
            let served = serve(rt, alloc, &cell, &inboxes, &until, (reception, team), clock);
            end(cell, inboxes, lists, passes, links, address, served)
        }
        Err(book) => unserved(Gateway {
            book,
            writer,
            address,
            links,
        }),
    }
}

// A gateway that didn't serve for want of memory.
fn unserved<A: Area, F: Shelf, L: Link>(gateway: Gateway<A, F, L>) -> Ran<A, F, L>
    ensures gateway { result.gateway ≡ gateway }
    ensures last { result.last ≡ None }
    ensures stop { result.stop ≡ Some stop.NoMemory }
{
    Ran {
        gateway,
        last: None,
        stop: Some(Stop::NoMemory),
    }
}

// How many turns are to be taken, where they are counted.
fn turns_in(until: &Until<'_>) -> u64
    ensures { IfTurns until.now (λ n. result ≡ n) }
{
    match until {
        Until::Turns(turns) => *turns,
        Until::QuietAfter { .. } => 0,
    }
}

// All who serve, and the lists that their passes and links came in.
#[derive(Drop)]
struct Seats<F: Shelf, L: Link> {
    reception: Reception<L>,
    team: Team<F, L>,
    passes: Vec<Pass>,
    links: Vec<L>,
}

// Gives each who serves what it needs.
fn seat<F: Shelf, L: Link>(
    mut passes: Vec<Pass>,
    mut links: Vec<L>,
    dispatcher: Dispatcher,
    pops: Pops,
    batches: Batches,
    writer: Writer<F>,
    left: u64,
) -> Seats<F, L>
    requires passes { HasSome 5 passes × AreNumbered passes.items }
    requires links { HasSome 5 links }
    ensures seated { IsSeated passes.items links.items (pops_in pops) writer result }
    ensures reception { (result.reception.dispatcher ≡ dispatcher) × (result.reception.left ≡ left)
        × (result.reception.is_over ≡ false) × (result.reception.stop ≡ None) }
    ensures room { HasSome 0 result.passes × HasSome 0 result.links }
{
    let (first, second, third, fourth) = pops;
    let (a_batch, b_batch, c_batch, d_batch) = batches;
    let Some(pass) = passes.pop() else {
        unreachable!();
    };
    let actor = FileActor::new(pass, writer);
    let d = next_desk(3, fourth, d_batch, &mut passes, &mut links);
    let c = next_desk(2, third, c_batch, &mut passes, &mut links);
    let b = next_desk(1, second, b_batch, &mut passes, &mut links);
    let a = next_desk(0, first, a_batch, &mut passes, &mut links);
    let Some(link) = links.pop() else {
        unreachable!();
    };
    let reception = Reception {
        dispatcher,
        link,
        left,
        is_over: false,
        stop: None,
    };
    let team = Team {
        first: (a, b),
        second: (c, d),
        actor,
    };
    Seats {
        reception,
        team,
        passes,
        links,
    }
}

// The desk of a session, with the last pass to the cell and the last link.
fn next_desk<L: Link>(
    session: u32,
    pop: InboxPass,
    batch: JobBatch,
    passes: &mut Vec<Pass>,
    links: &mut Vec<L>,
) -> Desk<L>
    requires number { IsLastNumber session passes.old.items }
    requires some { (0 < vec_len passes.old) × (0 < vec_len links.old) }
    ensures pass { (pass : Pass) × (pass_of result.worker ≡ Some pass) × TakesLast passes.old passes.new pass }
    ensures link { TakesLast links.old links.new result.link }
    ensures rest { (session_of result.worker ≡ session) × (result.pass ≡ pop) }
    ensures fresh { IsFresh result }
{
    let Some(pass) = passes.pop() else {
        unreachable!();
    };
    let Some(link) = links.pop() else {
        unreachable!();
    };
    Desk {
        worker: Worker::new(session, pass),
        pass: pop,
        link,
        last: None,
        stop: None,
        batch,
    }
}

// Takes all who served apart.
fn end<A: Area, F: Shelf, L: Link>(
    cell: TurnCell<Book<A>>,
    inboxes: [Inbox; 4],
    lists: [Vec<InboxPass>; 4],
    passes: Vec<Pass>,
    links: Vec<L>,
    address: Addr,
    served: (Reception<L>, Team<F, L>),
) -> Ran<A, F, L>
    requires own { IsTeamOf cell inboxes served.1 }
    requires pushes { AreOfEach inboxes (passes_of served.0.dispatcher) }
    requires two { (length inboxes ≡ 4) × All HasTwo inboxes × (made_by cell ≡ 5) }
    requires lists { (length lists ≡ 4) × All HasRoomForTwo lists }
    requires room { HasSome 0 passes × HasSome 0 links }
    ensures ended { HasEnded (tells_lists A.Area) (facts_of (begun cell)) (facts_of result.gateway.book) served.1 }
    ensures settled { AreAllSettled (hands_of served.0.dispatcher) served.1 }
    ensures links { result.gateway.links.items ≡ links_of served.0 served.1 }
    ensures writer { (result.gateway.writer ≡ writer_of served.1.actor) × (result.gateway.address ≡ address) }
    ensures last { result.last ≡ last_among served.1 }
    ensures stop { result.stop ≡ option_or served.0.stop (stop_among served.1) }
{
    let (reception, team) = served;
    let stop = reception.stop.or(team.stop());
    let last = team.last();
    let Reception {
        dispatcher,
        link,
        left: _,
        is_over: _,
        stop: _,
    } = reception;
    let Team {
        first,
        second,
        actor,
    } = team;
    let pushes = pushes_of(dispatcher);
    let (sessions, links) = leave_all(inboxes, lists, pushes, link, links, first, second);
    let (pass, writer) = actor.into_parts();
    let book = finish_cell(cell, passes, sessions, pass);
    Ran {
        gateway: Gateway {
            book,
            writer,
            address,
            links,
        },
        last,
        stop,
    }
}

// Ends the inboxes of four sessions: their passes to the cell, and all links behind that of who received.
fn leave_all<L: Link>(
    inboxes: [Inbox; 4],
    lists: [Vec<InboxPass>; 4],
    pushes: (InboxPass, InboxPass, InboxPass, InboxPass),
    link: L,
    mut links: Vec<L>,
    first: (Desk<L>, Desk<L>),
    second: (Desk<L>, Desk<L>),
) -> ((Pass, Pass, Pass, Pass), Vec<L>)
    requires pops { ArePopsOf inboxes first second }
    requires pushes { AreOfEach inboxes (pushes.0 ∷ pushes.1 ∷ pushes.2 ∷ pushes.3 ∷ []) }
    requires two { (length inboxes ≡ 4) × All HasTwo inboxes }
    requires lists { (length lists ≡ 4) × All HasRoomForTwo lists }
    requires room { HasSome 0 links }
    ensures passes { ArePassesFor result.0 first second }
    ensures links { result.1.items ≡ link ∷ first.0.link ∷ first.1.link ∷ second.0.link ∷ second.1.link ∷ [] }
    ensures settled { AreSettledWith pushes first second }
{
    let [one, two, three, four] = inboxes;
    let [one_list, two_list, three_list, four_list] = lists;
    let (one_push, two_push, three_push, four_push) = pushes;
    let (a_pass, a_link) = leave(first.0, one, one_list, one_push);
    let (b_pass, b_link) = leave(first.1, two, two_list, two_push);
    let (c_pass, c_link) = leave(second.0, three, three_list, three_push);
    let (d_pass, d_link) = leave(second.1, four, four_list, four_push);
    links.push_reserved(link);
    links.push_reserved(a_link);
    links.push_reserved(b_link);
    links.push_reserved(c_link);
    links.push_reserved(d_link);
    ((a_pass, b_pass, c_pass, d_pass), links)
}

// The passes of a dispatcher to four inboxes.
fn pushes_of(dispatcher: Dispatcher) -> (InboxPass, InboxPass, InboxPass, InboxPass)
    requires { length (passes_of dispatcher) ≡ 4 }
    ensures { passes_of dispatcher ≡ result.0 ∷ result.1 ∷ result.2 ∷ result.3 ∷ [] }
{
    let mut passes = dispatcher.into_passes();
    let Some(fourth) = passes.pop() else {
        unreachable!();
    };
    let Some(third) = passes.pop() else {
        unreachable!();
    };
    let Some(second) = passes.pop() else {
        unreachable!();
    };
    let Some(first) = passes.pop() else {
        unreachable!();
    };
    (first, second, third, fourth)
}
