//! `stream`: a gateway whose messages come one after the other in a stream of octets, such as TCP carries.
ghost use Rattle.std.specs.Prelude.{◌≡◌, ◌<◌, ◌≤◌, ℕ, List, IfErr, IfOk, None, OnOk, length, take};
ghost use Rattle.std.specs.Io.KnownBytes.{Consumes, IsAtEnd, Keeps};
ghost use Rattle.gate_journal.specs.Format.{fewest_octets, most_octets};
ghost use Rattle.gateway_book.specs.Book.{value_of};
ghost use Rattle.gateway_book.specs.Turning.{tells_lists};
ghost use Rattle.gw_base.specs.Faults.{Rose};
ghost use Rattle.node_session.specs.Writing.{IsWriterOf};
ghost use Rattle.cgf_jobs.specs.Job.{job_of};
ghost use Rattle.cgf_service.specs.StreamEnds.{Streams};
ghost use Rattle.cgf_service.specs.StreamSteps.{CausesStop, HasServedStream, HasSettledStream, IsBegunOn};
ghost use Rattle.cgf_service.specs.Streaming.{IsStreamingWithin};

use crate::connection::Connection;
use crate::gateway_end::GatewayEnd;
use crate::settling::{moment_of, status_of};
use crate::streaming::Streaming;
use area_disk::Area;
use area_disk::laws::area_laws;
use cdr_shelf::Shelf;
use cgf_jobs::{InputKind, Status, StoreFault};
use file_writer::Writer;
use file_writer::laws::files_only_grow;
use gateway_answer::laws::filed_records_stay;
use gateway_book::laws::what_stands_is_ours;
use gateway_book::{Book, Setup};
use gtpp_stream::Deframer;
use gw_base::{Caller, Sink, Source};
use node_session::{SettleFault, settle};
use replay_gateway::Settings;
use replay_gateway::laws::no_file_is_open_where_no_close_is_due;
use route_filter::Rules;
use std::alloc::Global;

/// How many octets a call takes at most.
const PIECE: usize = 16_384;

/// How many octets are read of a stream at most.
const MOST_STREAM: u64 = 1_099_511_627_776;

/// Opens a gateway on an area and a shelf, answers the messages of a source, one after the other, and settles: its
/// settings are the defaults, and each message counts as sent from the node's address. Each reply is written once it is
/// firm. The gateway settles whatever ended the serving, and seals its files then, unless its shelf fails or memory
/// runs out.
pub fn stream_gateway<S: Source, K: Sink, A: Area, F: Shelf, C: gw_base::Clock>(
    alloc: Global,
    streaming: Streaming,
    source: &mut S,
    sink: &mut K,
    area: A,
    shelf: F,
    clock: &mut C,
) -> GatewayEnd<A, F>
    requires within { IsStreamingWithin streaming }
    requires long { fewest_octets ≤ A.size area }
    requires short { A.size area ≤ most_octets }
    ensures streams { (words : List (List ℕ)) → Streams A.Area F.Shelf streaming
        (job_of S.Source K.Sink words source.old source.new sink.old sink.new) area result.area shelf result.shelf
        (C.faults clock.old) (C.faults clock.new) result.status None }
{
    area_laws::<A>();
    files_only_grow();
    filed_records_stay();
    no_file_is_open_where_no_close_is_due();
    what_stands_is_ours();
    gtpp_stream::laws::a_stream_may_be_cut();
    gtpp_stream::laws::a_bad_octet_ends_the_messages();
    let Ok(deframer) = Deframer::new(alloc) else {
        return unopened(Status::Memory, area, shelf);
    };
    let settings = Settings::first();
    let setup = Setup {
        address: streaming.ip,
        open_time: settings.limits.open_time,
    };
    let book = match Book::open(alloc, area, setup) {
        Ok(book) => book,
        Err((fault, area)) => return unopened(status_of(fault), area, shelf),
    };
    let (offset, profile) = (settings.offset, settings.profile);
    let writer = Writer::new(
        shelf,
        Rules::none(alloc),
        settings.limits,
        offset,
        streaming.ip,
        profile,
    );
    let mut connection = Connection {
        book,
        deframer,
        node: streaming.node,
        came: 0,
        start: 0,
        last: None,
    };
    let served = serve(&mut connection, source, sink, clock);
    let (status, area, shelf) = settled(alloc, connection, writer, served);
    GatewayEnd {
        status,
        area,
        shelf,
    }
}

/// How the job ends whose gateway wasn't opened.
fn unopened<A: Area, F: Shelf>(status: Status, area: A, shelf: F) -> GatewayEnd<A, F>
    ensures status { result.status ≡ status }
    ensures same { (result.area ≡ area) × (result.shelf ≡ shelf) }
{
    GatewayEnd {
        status,
        area,
        shelf,
    }
}

/// Answers the messages of a source up to its end, or until something ends it.
fn serve<S: Source, K: Sink, A: Area, C: gw_base::Clock>(
    connection: &mut Connection<A>,
    source: &mut S,
    sink: &mut K,
    clock: &mut C,
) -> Result<(), Status>
    requires { IsBegunOn A.Area connection.old }
    ensures served { HasServedStream A.Area connection.old.book connection.new (S.left source.old) (S.left source.new)
        (K.written sink.old) (K.written sink.new) result }
    ensures cause { CausesStop (S.faults source.old) (S.faults source.new) (K.faults sink.old) (K.faults sink.new)
        (C.faults clock.old) (C.faults clock.new) result }
    ensures node { connection.new.node ≡ connection.old.node }
{
    gtpp_stream::laws::nothing_was_given();
    let mut piece = [0; PIECE];
    'pieces: while connection.came < MOST_STREAM {
        let count = take_piece(source, &mut piece, MOST_STREAM - connection.came)?;
        if count == 0 {
            return connection.end();
        }
        let (front, _) = piece.split_at(count);
        connection.take_in(front, sink, clock)?;
    }
    Err(Status::Input {
        place: MOST_STREAM,
        kind: InputKind::TooLong,
    })
}

/// Takes the next octets of a source, at most so many, and says how many; 0 is its end.
fn take_piece<S: Source>(source: &mut S, piece: &mut [u8], most: u64) -> Result<usize, Status>
    requires { (0 < length piece.old) × (0 < most) }
    ensures length { length piece.new ≡ length piece.old }
    ensures within { IfOk result (λ count. (count ≤ length piece.new) × (count ≤ most)) }
    ensures taken { IfOk result (λ count. Consumes (S.left source.old) (S.left source.new) (take count piece.new)
        × (count ≡ 0 → IsAtEnd (S.left source.new))) }
    ensures failed { IfErr result (λ ended. (ended ≡ Status.Read) × Rose (S.faults source.old) (S.faults source.new)
        × Keeps (S.left source.old) (S.left source.new)) }
    ensures unfailed { OnOk result (S.faults source.new ≡ S.faults source.old) }
{
    let room = piece.len().min(most as usize);
    let (front, _) = piece.split_at_mut(room);
    match source.take(front) {
        Ok(count) => Ok(count),
        Err(_) => Err(Status::Read),
    }
}

/// Settles a gateway whose stream has ended, and gives how the job ends: as the serving did, and where that ended well as
/// the settling does.
fn settled<A: Area, F: Shelf>(
    alloc: Global,
    connection: Connection<A>,
    mut writer: Writer<F>,
    served: Result<(), Status>,
) -> (Status, A, F)
    requires { IsWriterOf (tells_lists A.Area) (value_of connection.book).firm writer }
    ensures { HasSettledStream A.Area F.Shelf connection writer served result.0 result.1 result.2 }
{
    filed_records_stay();
    let Connection {
        mut book,
        deframer: _,
        node: _,
        came: _,
        start: _,
        last,
    } = connection;
    let counts = settle(alloc, &mut book, &mut writer, moment_of(last), Caller::NONE);
    let status = match served {
        Ok(()) => match counts {
            Ok(_) => Status::Done,
            Err(SettleFault::NoMemory) => Status::Memory,
            Err(SettleFault::Area) => Status::Store(StoreFault::Device),
            Err(SettleFault::Shelf) => Status::Store(StoreFault::Device),
        },
        Err(status) => status,
    };
    (status, book.into_area(), writer.into_shelf())
}
