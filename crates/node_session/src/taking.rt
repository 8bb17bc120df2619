// A datagram is taken in a turn, and several under one ticket.
use area_disk::Area;
use gateway_book::laws::a_turn_owes;
use gateway_book::{Book, Outcome, Prepared, prepare};
use gw_base::{Addr, Caller, Moment};
use job_inbox::Job;
use turn_cell::{Turn, Turns};

/// The turn that takes a datagram of a session, which was prepared before.
#[derive(Drop)]
pub(crate) struct Taking<'a> {
    pub from: Addr,
    pub request: &'a Prepared<'a>,
    pub now: Moment,
    pub who: Caller,
}

impl<'a, A: Area> Turn<Book<A>> for Taking<'a> {
    ghost use Rattle.std.specs.Prelude.{Some};
    ghost use Rattle.gateway_book.specs.Turning.{facts_of, tells_lists};
    ghost use Rattle.node_session.specs.Turns.{HasTaken};

    type Answer = Outcome;

    ghost session = { λ turn. Some turn.who.session };

    ghost does = { λ turn found left answer drops added. HasTaken turn.from turn.request.now turn.now turn.who
        (facts_of found) (facts_of left) added answer (tells_lists A.Area) drops };

    fn run(self, value: &mut Book<A>) -> Outcome {
        a_turn_owes::<A>();
        value.take(self.from, self.request, self.now, self.who)
    }
}

/// The turns that take the datagrams of a session's jobs, one for each. Each datagram is prepared in front of its turn,
/// while the session has the ticket.
#[derive(Drop)]
pub(crate) struct TakingEach {
    pub session: u32,
}

impl<A: Area> Turns<Book<A>, Job> for TakingEach {
    ghost use Rattle.std.specs.Prelude.{Some};
    ghost use Rattle.gateway_book.specs.Turning.{facts_of, tells_lists};
    ghost use Rattle.node_session.specs.Serving.{caller_of};
    ghost use Rattle.node_session.specs.Turns.{HasTaken};

    type Answer = Outcome;

    ghost session = { λ turns. Some turns.session };

    ghost does = { λ turns job found left answer drops added. HasTaken job.from job.octets job.moment
        (caller_of turns.session job) (facts_of found) (facts_of left) added answer (tells_lists A.Area) drops };

    fn run(&self, job: &Job, value: &mut Book<A>) -> Outcome {
        let request = prepare(job.octets.octets());
        let who = Caller {
            session: self.session,
            serial: job.serial,
        };
        let turn = Taking {
            from: job.from,
            request: &request,
            now: job.moment,
            who,
        };
        turn.run(value)
    }
}
