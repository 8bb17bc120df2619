//! A gateway that serves, from the opening of its journal to its settling.
ghost use Rattle.std.specs.Prelude.{◌≡◌, ◌≤◌, ◌<◌, ◌^◌, List, [], false, Err, IfErr, IfOk, None, OnOk, length, true};
ghost use Rattle.area_disk.specs.Disk.{Rose};
ghost use Rattle.cgf_journal.specs.Trail.{is_closed};
ghost use Rattle.file_writer.specs.Writer.{is_broken};
ghost use Rattle.gate_journal.specs.Format.{fewest_octets, most_octets};
ghost use Rattle.gate_journal.specs.Moments.{Told};
ghost use Rattle.gateway_answer.specs.Answered.{no_caller};
ghost use Rattle.gateway_book.specs.Book.{area_of, size_of, value_of};
ghost use Rattle.gateway_book.specs.Calls.{counts_of};
ghost use Rattle.gateway_answer.specs.Items.{items_of, part_count};
ghost use Rattle.gateway_book.specs.Read.{IsUnchanged};
ghost use Rattle.gateway_book.specs.Turning.{tells_lists};
ghost use Rattle.gw_base.specs.declared.address.Addr.{Addr as Address};
ghost use Rattle.gw_base.specs.declared.history.HistoryEntry.{HistoryEntry};
ghost use Rattle.replay_gateway.specs.Settings.{AreSound};
ghost use Rattle.replay_gateway.specs.Setup.{Setup as SetupValue};
ghost use Rattle.node_session.specs.Settling.{IsSettled};
ghost use Rattle.node_session.specs.Writing.{IsWriterOf};
ghost use Rattle.cgf_service.specs.Linked.{TakesAllTurns};
ghost use Rattle.cgf_service.specs.Served.{HasServed, LosesNothing, SettlesStill, moment_of, served_line};
ghost use Rattle.cgf_service.specs.ServeSteps.{AreOf, FailsBy, HasServedAt, HasSettledAll, NeverFalls, RefusesAsForeign, StopsServing, status_by};
ghost use Rattle.cgf_service.specs.Serving.{IsServingWithin};
ghost use Rattle.cgf_service.specs.Shelved.{KeepsShelf};

use crate::serve::FileSettings;
use crate::serving::Serving;
use area_disk::Area;
use area_disk::laws::area_laws;
use cdr_shelf::Shelf;
use cgf_jobs::{Status, StoreFault, print_counts};
use file_writer::Writer;
use file_writer::laws::files_only_grow;
use gateway_answer::laws::{a_history_filed_its_parts, filed_records_stay};
use gateway_book::laws::what_stands_is_ours;
use gateway_book::{Book, BookFault, Counts, ItemsFault, Setup, count_records};
use gw_base::{Addr, Caller, Counted, Moment, NoMemory};
use net_link::Links;
use node_session::{SettleFault, settle};
use replay_gateway::laws::no_file_is_open_where_no_close_is_due;
use session_run::laws::{what_is_in_turn_stays_so, what_links_sent};
use session_run::{Gateway, Ran, Stop, Until, give_back, make_links, run};
use std::alloc::Global;
use std::sync::Wait;
use std::thread::Threads;
use std::time::Clock;

/// How a gateway served: the latest moment of a job, and why it ended before it was told to, if it did.
#[derive(Clone, Copy)]
struct Service {
    last: Option<Moment>,
    stop: Option<Stop>,
}

/// Opens a gateway on an area and a shelf, lets it serve and settles it: the line of its counts, or how the job ends that
/// has none, with the area and the shelf. It looks at the shelf before all: where that fails, the area isn't touched.
pub(crate) fn serve_by<
    A: Area + Send,
    F: Shelf + Send,
    L: Links,
    C: gw_base::Clock,
    R: Threads + Wait + Clock + Sync,
>(
    rt: &R,
    alloc: Global,
    serving: Serving,
    by: FileSettings,
    area: A,
    mut shelf: F,
    links: &mut L,
    clock: &mut C,
) -> (Result<Vec<u8>, Status>, A, F)
where
    L::Link: Send,
    requires within { IsServingWithin serving }
    requires long { fewest_octets ≤ A.size area }
    requires short { A.size area ≤ most_octets }
    requires turns { (at : Addr) → (L.state links.old).turns at < 2 ^ 63 }
    requires sound { AreSound by.settings }
    ensures ok { Told A.Area → (setup : SetupValue) → AreOf setup by → IfOk result.0 (λ line.
        (history : List HistoryEntry) × HasServed A.Area F.Shelf serving setup area result.1 shelf result.2
        (L.state links.old) (L.state links.new) history × (line.items ≡ served_line history)) }
    ensures turns { OnOk result.0 (TakesAllTurns serving (L.state links.old) (L.state links.new) (C.faults clock.old)
        (C.faults clock.new)) }
    ensures keeps { LosesNothing A.Area serving area result.1 (L.state links.old) (L.state links.new) }
    ensures files { (setup : SetupValue) → AreOf setup by →
        KeepsShelf A.Area F.Shelf serving setup area result.1 shelf result.2 }
    ensures err { IfErr result.0 (StopsServing A.Area F.Shelf serving area result.1 shelf result.2
        (L.state links.old) (L.state links.new) (C.faults clock.old) (C.faults clock.new)) }
    ensures shut { result.0 ≡ Err Status.Link →
        SettlesStill A.Area serving area result.1 (L.state links.old) (L.state links.new) }
    ensures foreign { Told A.Area → RefusesAsForeign A.Area serving area result.0 }
    ensures later { NeverFalls A.Area F.Shelf serving area result.1 shelf result.2 (L.state links.old)
        (L.state links.new) (C.faults clock.old) (C.faults clock.new) }
{
    match shelf.sealed(0) {
        Ok(_) => serve_on(rt, alloc, serving, by, area, shelf, links, clock),
        Err(_) => (Err(Status::Store(StoreFault::Device)), area, shelf),
    }
}

/// The same, on a shelf that didn't fail as it was looked at.
fn serve_on<
    A: Area + Send,
    F: Shelf + Send,
    L: Links,
    C: gw_base::Clock,
    R: Threads + Wait + Clock + Sync,
>(
    rt: &R,
    alloc: Global,
    serving: Serving,
    by: FileSettings,
    area: A,
    shelf: F,
    links: &mut L,
    clock: &mut C,
) -> (Result<Vec<u8>, Status>, A, F)
where
    L::Link: Send,
    requires within { IsServingWithin serving }
    requires long { fewest_octets ≤ A.size area }
    requires short { A.size area ≤ most_octets }
    requires turns { (at : Addr) → (L.state links.old).turns at < 2 ^ 63 }
    requires sound { AreSound by.settings }
    ensures ok { Told A.Area → (setup : SetupValue) → AreOf setup by → IfOk result.0 (λ line.
        (history : List HistoryEntry) × HasServed A.Area F.Shelf serving setup area result.1 shelf result.2
        (L.state links.old) (L.state links.new) history × (line.items ≡ served_line history)) }
    ensures turns { OnOk result.0 (TakesAllTurns serving (L.state links.old) (L.state links.new) (C.faults clock.old)
        (C.faults clock.new)) }
    ensures keeps { LosesNothing A.Area serving area result.1 (L.state links.old) (L.state links.new) }
    ensures files { (setup : SetupValue) → AreOf setup by →
        KeepsShelf A.Area F.Shelf serving setup area result.1 shelf result.2 }
    ensures err { IfErr result.0 (StopsServing A.Area F.Shelf serving area result.1 shelf result.2
        (L.state links.old) (L.state links.new) (C.faults clock.old) (C.faults clock.new)) }
    ensures shut { result.0 ≡ Err Status.Link →
        SettlesStill A.Area serving area result.1 (L.state links.old) (L.state links.new) }
    ensures foreign { Told A.Area → RefusesAsForeign A.Area serving area result.0 }
    ensures later { NeverFalls A.Area F.Shelf serving area result.1 shelf result.2 (L.state links.old)
        (L.state links.new) (C.faults clock.old) (C.faults clock.new) }
{
    area_laws::<A>();
    files_only_grow();
    filed_records_stay();
    no_file_is_open_where_no_close_is_due();
    what_is_in_turn_stays_so();
    what_stands_is_ours();
    let FileSettings { settings, rules } = by;
    let setup = Setup {
        address: serving.ip,
        open_time: settings.limits.open_time,
    };
    let book = match Book::open(alloc, area, setup) {
        Ok(book) => book,
        Err((fault, area)) => return (Err(status_of(fault)), area, shelf),
    };
    let writer = Writer::new(
        shelf,
        rules,
        settings.limits,
        settings.offset,
        serving.ip,
        settings.profile,
    );
    let (service, (book, writer)) = serve_at(rt, alloc, serving, book, writer, links, clock);
    let (line, (book, writer)) = settle_all(alloc, book, writer, service);
    (line, book.into_area(), writer.into_shelf())
}

/// How the job ends whose gateway wasn't opened.
pub(crate) fn status_of(fault: BookFault) -> Status
    ensures { result ≡ status_by fault }
{
    match fault {
        BookFault::Device => Status::Store(StoreFault::Device),
        BookFault::NotOurs { at } => Status::Store(StoreFault::NotOurs { at }),
        BookFault::NoMemory => Status::Memory,
    }
}

/// Lets a gateway serve on links of its address, and gives the links back.
fn serve_at<
    A: Area + Send,
    F: Shelf + Send,
    L: Links,
    C: gw_base::Clock,
    R: Threads + Wait + Clock + Sync,
>(
    rt: &R,
    alloc: Global,
    serving: Serving,
    book: Book<A>,
    writer: Writer<F>,
    links: &mut L,
    clock: &mut C,
) -> (Service, (Book<A>, Writer<F>))
where
    L::Link: Send,
    requires within { IsServingWithin serving }
    requires broken { is_broken writer ≡ true }
    requires turns { (at : Address) → (L.state links.old).turns at < 2 ^ 63 }
    ensures { HasServedAt A.Area F.Shelf serving book result.1.0 writer result.1.1 (L.state links.old)
        (L.state links.new) (C.faults clock.old) (C.faults clock.new) result.0 }
{
    what_is_in_turn_stays_so();
    what_links_sent::<L::Link>();
    let address = Addr {
        ip: serving.ip,
        port: serving.port,
    };
    let (made, stop) = make_links(alloc, links, address);
    if let Some(stop) = stop {
        // Its clause says that its numbers and its lists fit together.
        let _length = book.length();
        give_back(links, made, address);
        let service = Service {
            last: None,
            stop: Some(stop),
        };
        return (service, (book, writer));
    }
    let gateway = Gateway {
        book,
        writer,
        address,
        links: made,
    };
    let Ran {
        gateway,
        last,
        stop,
    } = run(rt, alloc, gateway, clock, Until::Turns(serving.turns));
    let Gateway {
        book,
        writer,
        address: _,
        links: made,
    } = gateway;
    give_back(links, made, address);
    (Service { last, stop }, (book, writer))
}

/// Settles a gateway that served, and gives it back.
fn settle_all<A: Area, F: Shelf>(
    alloc: Global,
    mut book: Book<A>,
    mut writer: Writer<F>,
    service: Service,
) -> (Result<Vec<u8>, Status>, (Book<A>, Writer<F>))
    requires { IsWriterOf (tells_lists A.Area) (value_of book).firm writer }
    ensures line { HasSettledAll A.Area F.Shelf (λ line. line.items) service book result.1.0 writer result.1.1
        result.0 }
    ensures closed { ¬ (Rose (A.faults (area_of book)) (A.faults (area_of result.1.0))) →
        IsSettled book result.1.0 (moment_of service.last) no_caller }
{
    let line = settled_line(alloc, &mut book, &mut writer, service);
    (line, (book, writer))
}

/// Settles a gateway that served, and gives the line of its counts, or tells how the job ends that has none.
fn settled_line<A: Area, F: Shelf>(
    alloc: Global,
    book: &mut Book<A>,
    writer: &mut Writer<F>,
    service: Service,
) -> Result<Vec<u8>, Status>
    requires { IsWriterOf (tells_lists A.Area) (value_of book.old).firm writer.old }
    ensures line { HasSettledAll A.Area F.Shelf (λ line. line.items) service book.old book.new writer.old writer.new
        result }
    ensures closed { ¬ (Rose (A.faults (area_of book.old)) (A.faults (area_of book.new))) →
        IsSettled book.old book.new (moment_of service.last) no_caller }
{
    let settled = settle(alloc, book, writer, moment_of(service.last), Caller::NONE);
    match service.stop {
        Some(Stop::Link) => return Err(Status::Link),
        Some(Stop::Clock) => return Err(Status::Link),
        Some(Stop::NoMemory) => return Err(Status::Memory),
        None => {}
    }
    match settled {
        Ok(counts) => line_of(alloc, book, counts),
        Err(SettleFault::NoMemory) => Err(Status::Memory),
        Err(SettleFault::Area) => Err(Status::Store(StoreFault::Device)),
        Err(SettleFault::Shelf) => Err(Status::Store(StoreFault::Device)),
    }
}

/// The moment of a Close behind the last job: its own, and 0 where there was none.
pub(crate) fn moment_of(last: Option<Moment>) -> Moment
    ensures { result ≡ moment_of last }
{
    match last {
        Some(moment) => moment,
        None => {
            let Some(first) = Moment::of(0) else {
                unreachable!();
            };
            first
        }
    }
}

/// The line of a gateway's counts.
fn line_of<A: Area>(alloc: Global, book: &mut Book<A>, counts: Counts) -> Result<Vec<u8>, Status>
    ensures line { Told A.Area → is_closed book.old.trail ≡ false → (value_of book.old).rest ≡ [] →
        counts ≡ counts_of (value_of book.old) (size_of book.old) →
        IfOk result (λ line. line.items ≡ served_line (value_of book.old).firm) }
    ensures err { IfErr result (FailsBy A.Area book.old book.new) }
    ensures same { IsUnchanged book.old book.new × (A.faults (area_of book.old) ≤ A.faults (area_of book.new)) }
{
    a_history_filed_its_parts();
    let records = records_of(alloc, book)?;
    let mut line = Vec::new(alloc);
    match print_counts(alloc, &mut line, counts.gateway_counts(records)) {
        Ok(()) => Ok(line),
        Err(NoMemory) => Err(Status::Memory),
    }
}

/// How many records a gateway's history has filed.
fn records_of<A: Area>(alloc: Global, book: &mut Book<A>) -> Result<usize, Status>
    ensures records { Told A.Area → IfOk result (λ n. n ≡ part_count (items_of (value_of book.old).firm)) }
    ensures err { IfErr result (FailsBy A.Area book.old book.new) }
    ensures same { IsUnchanged book.old book.new × (A.faults (area_of book.old) ≤ A.faults (area_of book.new)) }
{
    match count_records(alloc, book) {
        Ok(records) => Ok(records),
        Err(ItemsFault::Device) => Err(Status::Store(StoreFault::Device)),
        Err(ItemsFault::NoMemory) => Err(Status::Memory),
    }
}
