// What a gateway of a world makes of a message, of a mark and of a redirection.
ghost use Rattle.std.specs.Prelude.{◌≡◌, ◌<◌, [], ◌++◌, true, IfOk, OnOk};
ghost use Rattle.gateway_answer.specs.Plain.{answer_view};
ghost use Rattle.gateway_answer.specs.Value.{history_of};
ghost use Rattle.once_core.specs.Answers.{answer_at};
ghost use Rattle.once_core.specs.HistoryKept.{is_kept_answer};
ghost use Rattle.once_core.specs.Messages.{answering};
ghost use Rattle.once_core.specs.Redirecting.{redirecting_one, redirection};

use crate::addresses::{gateway_address, node_address, node_at, port_at};
use crate::expired::is_expired;
use crate::gateway::KeptGateway;
use crate::message::{Message, Waiting};
use crate::room::SIZE;
use gateway_answer::{OwnedAnswer, answer, has_room, prepare};
use gtpp_message::Message as Body;
use gw_base::{Act, Addr, HistoryAct, Moment, NoMemory, NodeId, Octets, Short, scan};
use std::alloc::Global;

/// The seconds for which a file may be open.
const OPEN_TIME: u64 = 3_600;

impl KeptGateway {
    ghost use Rattle.once_core.specs.Answers.{answered, delivered, making_close, making_tick, marked, replying};
    ghost use Rattle.once_core.specs.Beginning.{default_rules};
    ghost use Rattle.once_core.specs.Moves.{HasMoved};
    ghost use Rattle.once_core.specs.Redirecting.{redirected_kept};
    ghost use Rattle.once_core.specs.Standing.{quiet};

    /// A message reaches the gateway, which answers it unless it is down or the message is expired.
    pub(crate) fn deliver(
        &mut self,
        alloc: Global,
        now: Moment,
        message: &Message,
        sends: &mut Vec<Message>,
    ) -> Result<(), NoMemory>
        ensures { OnOk result (HasMoved (delivered default_rules now quiet message.now self.old) self.new
            sends.old.items sends.new.items) }
    {
        if self.is_down || is_expired(&self.history, message) {
            return Ok(());
        }
        self.ready(alloc, sends)?;
        self.answer(alloc, now, message, sends)
    }

    /// Answers a message, by the history.
    fn answer(
        &mut self,
        alloc: Global,
        now: Moment,
        message: &Message,
        sends: &mut Vec<Message>,
    ) -> Result<(), NoMemory>
        ensures { OnOk result (HasMoved (answered default_rules now message.now self.old) self.new sends.old.items
            sends.new.items) }
    {
        match self.decide(alloc, message)? {
            OwnedAnswer::Drop(_) => Ok(()),
            OwnedAnswer::Reply { reply, act } => {
                if let Some(act) = act {
                    self.record(now, act)?;
                }
                self.reply(alloc, answering(alloc, message, reply)?, sends)
            }
        }
    }

    /// What the history answers to a message.
    fn decide(&self, alloc: Global, message: &Message) -> Result<OwnedAnswer, NoMemory>
        ensures answer { IfOk result (λ found. answer_view found
            ≡ answer_at default_rules (history_of self.now.book) message.now) }
        ensures kept { IfOk result (λ found. is_kept_answer (answer_view found) ≡ true) }
    {
        let from = node_address(message.node, message.port);
        let datagram = prepare(message.octets.octets());
        answer(alloc, &self.history, from, &datagram, SIZE)
    }

    /// An answer waits until the whole history is firm; where it is already, it is sent at once.
    fn reply(
        &mut self,
        alloc: Global,
        message: Message,
        sends: &mut Vec<Message>,
    ) -> Result<(), NoMemory>
        ensures { OnOk result (HasMoved (replying self.old message) self.new sends.old.items sends.new.items) }
    {
        let front = self.history.len() as u64;
        self.waiting.push(Waiting { front, message })?;
        self.settle(alloc, sends)
    }

    /// Records a Tick where it is due and there is room for it.
    pub(crate) fn mark(
        &mut self,
        alloc: Global,
        now: Moment,
        sends: &mut Vec<Message>,
    ) -> Result<(), NoMemory>
        ensures { OnOk result (HasMoved (marked default_rules quiet (making_tick default_rules now) self.old)
            self.new sends.old.items sends.new.items) }
    {
        self.ready(alloc, sends)?;
        self.make_tick(alloc, now)
    }

    fn make_tick(&mut self, alloc: Global, now: Moment) -> Result<(), NoMemory>
        ensures { OnOk result (HasMoved (making_tick default_rules now self.old) self.new [] []) }
    {
        if !scan::is_tick_due(&self.history, OPEN_TIME, now) {
            return Ok(());
        }
        if !has_room(alloc, &self.history, &Act::Tick, SIZE)? {
            return Ok(());
        }
        self.record(now, HistoryAct::Tick)
    }

    /// Records a Close where it is due.
    pub(crate) fn close(
        &mut self,
        alloc: Global,
        now: Moment,
        sends: &mut Vec<Message>,
    ) -> Result<(), NoMemory>
        ensures { OnOk result (HasMoved (marked default_rules quiet (making_close now) self.old) self.new
            sends.old.items sends.new.items) }
    {
        self.ready(alloc, sends)?;
        self.make_close(now)
    }

    fn make_close(&mut self, now: Moment) -> Result<(), NoMemory>
        ensures { OnOk result (HasMoved (making_close now self.old) self.new [] []) }
    {
        if scan::is_close_due(&self.history) {
            self.record(now, HistoryAct::Close)
        } else {
            Ok(())
        }
    }

    /// Asks all nodes with a path to send elsewhere, under one number.
    pub(crate) fn redirect(
        &mut self,
        alloc: Global,
        gateway: u8,
        cause: u8,
        to: Option<u8>,
        sends: &mut Vec<Message>,
    ) -> Result<(), NoMemory>
        ensures { OnOk result (HasMoved (redirected_kept gateway cause to self.old) self.new sends.old.items
            sends.new.items) }
    {
        let nodes = scan::known_nodes(alloc, &self.history)?;
        for node in &nodes {
            self.redirect_one(alloc, gateway, cause, to, *node, sends)?;
        }
        self.redirects = self.redirects.wrapping_add(1);
        Ok(())
    }

    /// Asks one node, where it has a path.
    fn redirect_one(
        &self,
        alloc: Global,
        gateway: u8,
        cause: u8,
        to: Option<u8>,
        node: NodeId,
        sends: &mut Vec<Message>,
    ) -> Result<(), NoMemory>
        ensures { OnOk result (sends.new.items ≡ sends.old.items ++ redirecting_one gateway cause to self.now node) }
    {
        let Some(opening) = scan::opening(&self.history, node) else {
            return Ok(());
        };
        let path = Addr {
            ip: node.0,
            port: opening.port,
        };
        sends.push(Message {
            to_gateway: false,
            gateway,
            node: node_at(path),
            port: port_at(path),
            start: scan::start(&self.history, node),
            number: u64::from(self.redirects),
            named: None,
            octets: Octets::of(alloc, redirection(self.redirects, cause, to).octets())?,
        })?;
        Ok(())
    }
}

/// The octets of a Redirection Request with this number, which recommends a gateway or none.
pub fn redirection(number: u16, cause: u8, to: Option<u8>) -> Short
    ensures octets { result ≡ redirection number cause to }
    ensures low { number < 65536 }
{
    match to {
        None => gtpp_message::write_short(number, &Body::RedirectionRequest { cause, to: None }),
        Some(to) => {
            let octets = gateway_address(to).ip.to_be_bytes();
            let to: &[u8] = &octets;
            let to = Some(to);
            gtpp_message::write_short(number, &Body::RedirectionRequest { cause, to })
        }
    }
}

/// The answer of these octets, to where a message came from.
pub(crate) fn answering(
    alloc: Global,
    message: &Message,
    octets: Short,
) -> Result<Message, NoMemory>
    ensures { IfOk result (λ answer. answer ≡ answering message.now octets) }
{
    Ok(Message {
        to_gateway: !message.to_gateway,
        gateway: message.gateway,
        node: message.node,
        port: message.port,
        start: message.start,
        number: message.number,
        named: None,
        octets: Octets::of(alloc, octets.octets())?,
    })
}
