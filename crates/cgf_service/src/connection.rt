//! The messages of a stream, one after the other: each is answered, and the answer is firm before it is written.
ghost use Rattle.std.specs.Prelude.{◌≡◌, ◌≢◌, ◌+◌, ◌<◌, ◌≤◌, ◌++◌, ℕ, List, IfErr, IfOk, Ok, Option, Some, length, take, true};
ghost use Rattle.std.specs.Io.KnownBytes.{Appends};
ghost use Rattle.gate_journal.specs.Moments.{Told};
ghost use Rattle.gateway_book.specs.Book.{Stays};
ghost use Rattle.gateway_book.specs.declared.book.Book.{Book as ABook};
ghost use Rattle.gw_base.specs.Faults.{Rose};
ghost use Rattle.gw_base.specs.Written.{AppendsFront};
ghost use Rattle.cgf_service.specs.StreamEnds.{most_stream, stream_end};
ghost use Rattle.cgf_service.specs.StreamSteps.{Answers, CausesReply, CutsByFaults, HasAnsweredOne, IsGoingOn, IsSteady, StopsAtMessage, StopsIn, end_of_result, reply_of};

use area_disk::Area;
use cgf_jobs::{InputKind, Status, write_all};
use gateway_book::{Book, Outcome, failure, prepare};
use gtpp_stream::{Deframer, FrameEnd};
use gw_base::{Addr, Caller, Moment, Short, Sink};

/// A gateway and the stream that it answers: what has come of the message after the last whole one, the address from
/// which each message counts as sent, how many octets came, where the message after the last whole one begins, and the
/// moment of the last message.
#[derive(Drop)]
pub(crate) struct Connection<A: Area> {
    pub book: Book<A>,
    pub deframer: Deframer,
    pub node: Addr,
    pub came: u64,
    pub start: u64,
    pub last: Option<Moment>,
}

/// Answers a message, and makes the answer firm: the reply, where there is one. Where the device fails, a request is told
/// so.
fn answer<A: Area>(book: &mut Book<A>, from: Addr, message: &[u8], now: Moment) -> Option<Short>
    ensures answers { Told A.Area → Answers A.Area from message.now book.old book.new (Some now) (reply_of result) }
    ensures stays { Stays book.old book.new }
    ensures cuts { CutsByFaults A.Area book.old book.new }
{
    let request = prepare(message);
    let reply = match book.take(from, &request, now, Caller::NONE) {
        Outcome::Answer(receipt) => Some(receipt.reply),
        Outcome::Drop(_) => None,
    };
    match book.commit() {
        Ok(_) => reply,
        Err(_) => failure(&request),
    }
}

/// Writes a reply, where there is one.
fn send<K: Sink>(sink: &mut K, reply: Option<Short>) -> Result<(), Status>
    ensures ok { result ≡ Ok tt → Appends (K.written sink.old) (K.written sink.new) (reply_of reply) }
    ensures err { IfErr result (λ ended. (ended ≡ Status.Write)
        × AppendsFront (K.written sink.old) (K.written sink.new) (reply_of reply)) }
    ensures failed { result ≢ Ok tt → Rose (K.faults sink.old) (K.faults sink.new) }
    ensures unfailed { result ≡ Ok tt → K.faults sink.new ≡ K.faults sink.old }
{
    let Some(reply) = reply else {
        return Ok(());
    };
    match write_all(sink, reply.octets()) {
        Ok(()) => Ok(()),
        Err(_) => Err(Status::Write),
    }
}

impl<A: Area> Connection<A> {
    /// Answers the message that stands, writes the reply, and lets the message go.
    fn answer_message<K: Sink, C: gw_base::Clock>(
        &mut self,
        sink: &mut K,
        clock: &mut C,
    ) -> Result<(), Status>
        requires { self.old.deframer.is_whole ≡ true }
        ensures ok { result ≡ Ok tt → (sent : List ℕ) × HasAnsweredOne A.Area self.old self.new sent
            × Appends (K.written sink.old) (K.written sink.new) sent }
        ensures err { IfErr result (StopsAtMessage A.Area self.old self.new (K.written sink.old) (K.written sink.new)) }
        ensures stays { Stays self.old.book self.new.book × CutsByFaults A.Area self.old.book self.new.book
            × (self.new.node ≡ self.old.node) }
        ensures cause { CausesReply (K.faults sink.old) (K.faults sink.new) (C.faults clock.old)
            (C.faults clock.new) result }
    {
        let Ok(now) = clock.now() else {
            return Err(Status::Link);
        };
        self.last = Some(now);
        let from = self.node;
        let (book, deframer) = (&mut self.book, &self.deframer);
        let reply = answer(book, from, deframer.octets(), now);
        send(sink, reply)?;
        self.deframer.next();
        self.start = self.came;
        Ok(())
    }

    /// Takes in the next octets of the stream up to the end of a message, or all of them, answers the message, and says
    /// how many octets these are.
    fn take_next<K: Sink, C: gw_base::Clock>(
        &mut self,
        octets: &[u8],
        sink: &mut K,
        clock: &mut C,
    ) -> Result<usize, Status>
        requires some { 0 < length octets.now }
        requires within { self.old.came + length octets.now ≤ most_stream }
        requires steady { IsSteady A.Area self.old }
        ensures count { IfOk result (λ used. (0 < used) × (used ≤ length octets.now)
            × (self.new.came ≡ self.old.came + used) × IsSteady A.Area self.new) }
        ensures ok { (opened : ABook A A.Area) (given sent : List ℕ) → IsGoingOn A.Area opened given sent self.old →
            IfOk result (λ used. (more : List ℕ)
            × IsGoingOn A.Area opened (given ++ take used octets.now) (sent ++ more) self.new
            × Appends (K.written sink.old) (K.written sink.new) more) }
        ensures err { (opened : ABook A A.Area) (given sent : List ℕ) → IsGoingOn A.Area opened given sent self.old →
            IfErr result (StopsIn A.Area opened (given ++ octets.now) sent self.new (K.written sink.old)
            (K.written sink.new)) }
        ensures node { self.new.node ≡ self.old.node }
        ensures cause { CausesReply (K.faults sink.old) (K.faults sink.new) (C.faults clock.old)
            (C.faults clock.new) result }
    {
        gtpp_stream::laws::a_stream_may_be_cut();
        gtpp_stream::laws::a_bad_octet_ends_the_messages();
        let (used, end) = self.deframer.push(octets);
        self.came += used as u64;
        match end {
            FrameEnd::More => {}
            FrameEnd::Whole => self.answer_message(sink, clock)?,
            FrameEnd::Bad { at, kind } => return Err(Status::Input {
                place: at,
                kind: InputKind::from(kind),
            }),
        }
        Ok(used)
    }

    /// Takes in the next octets of the stream, and answers each message that is whole with them.
    pub fn take_in<K: Sink, C: gw_base::Clock>(
        &mut self,
        octets: &[u8],
        sink: &mut K,
        clock: &mut C,
    ) -> Result<(), Status>
        requires within { self.old.came + length octets.now ≤ most_stream }
        requires steady { IsSteady A.Area self.old }
        ensures count { result ≡ Ok tt →
            (self.new.came ≡ self.old.came + length octets.now) × IsSteady A.Area self.new }
        ensures ok { (opened : ABook A A.Area) (given sent : List ℕ) → IsGoingOn A.Area opened given sent self.old →
            result ≡ Ok tt → (more : List ℕ) × IsGoingOn A.Area opened (given ++ octets.now) (sent ++ more) self.new
            × Appends (K.written sink.old) (K.written sink.new) more }
        ensures err { (opened : ABook A A.Area) (given sent : List ℕ) → IsGoingOn A.Area opened given sent self.old →
            IfErr result (λ ended. (more : List ℕ) × (now : Option (List ℕ)) × Appends (K.written sink.old) now more
            × StopsIn A.Area opened (given ++ octets.now) (sent ++ more) self.new now (K.written sink.new) ended) }
        ensures node { self.new.node ≡ self.old.node }
        ensures cause { CausesReply (K.faults sink.old) (K.faults sink.new) (C.faults clock.old)
            (C.faults clock.new) result }
    {
        let mut at = 0;
        while at < octets.len() {
            let (_, rest) = octets.split_at(at);
            at += self.take_next(rest, sink, clock)?;
        }
        Ok(())
    }

    /// How the serving ends of a stream that has come to its end.
    pub fn end(&self) -> Result<(), Status>
        ensures ended { (opened : ABook A A.Area) (given sent : List ℕ) → IsGoingOn A.Area opened given sent self.now →
            length given < most_stream → stream_end given ≡ end_of_result result }
        ensures rest { IfErr result (λ ended. (place : ℕ) × (ended ≡ Status.Input place InputKind.Rest)) }
    {
        if self.start < self.came {
            return Err(Status::Input {
                place: self.start,
                kind: InputKind::Rest,
            });
        }
        Ok(())
    }
}
