// A message that reaches a gateway.
ghost use Rattle.std.specs.Prelude.{◌≡◌, ℕ, IfOk, false, true};
ghost use Rattle.gateway_answer.specs.Answered.{no_caller};
ghost use Rattle.gateway_book.specs.Calls.{taken};
ghost use Rattle.gateway_answer.specs.Preparing.{prepared_of};
ghost use Rattle.gateway_book.specs.Up.{fortune_by, ready_sequel_of};
ghost use Rattle.gateway_answer.specs.Value.{history_of};
ghost use Rattle.once_core.specs.Expired.{is_expired};
ghost use Rattle.once_core.specs.Gateway.{Gateway};
ghost use Rattle.once_core.specs.Messages.{answering};
ghost use Rattle.replay_gateway.specs.Called.{BookStands, IsCalled, taken_of};
ghost use Rattle.replay_gateway.specs.Taking.{HasAnswered, HasMore, IsDelivered, IsQuiet, IsTaken, dropped_as, met_by};
ghost use Rattle.replay_gateway.specs.Setup.{Setup};
ghost use Rattle.replay_gateway.specs.Standing.{MachineStands, StandsUp};
ghost use Rattle.replay_gateway.specs.Machine.{Machine as MachineValue};

use crate::calls::GatewayCall;
use crate::machine::{Came, Machine, Sent};
use crate::messages::{Ends, is_expired};
use crate::site::Site;
use crate::writing::what_was_written_stays;
use area_disk::MemoryArea;
use gateway_answer::laws::filed_records_stay;
use gateway_book::laws::a_gateway_goes_as_armed;
use gateway_book::{Book, Outcome, Prepared, Receipt, prepare};
use gtpp_message::Why;
use gw_base::{Addr, Caller, Moment, NoMemory};
use once_core::{Message, Waiting, joined, node_address};
use std::alloc::Global;

/// What is told of a message.
#[derive(Clone, Copy)]
pub enum Ending {
    /// Nothing.
    Quiet,
    /// The gateway is down.
    Down,
    /// The message is expired.
    Expired,
    /// It was dropped.
    Dropped(Why),
}

/// What a message made of a gateway, and what is told of the message.
#[derive(Drop)]
pub struct Delivery {
    pub sent: Sent,
    pub ending: Ending,
}

impl Machine {
    /// A message reaches it at this moment: it answers, sends what is due then, or drops the message. `NoMemory`: there
    /// was no memory for that, and a part of it may have been done.
    pub fn deliver(
        &mut self,
        alloc: Global,
        message: &Message,
        now: Moment,
    ) -> Result<Delivery, NoMemory>
        ensures { (setup : Setup) (place : ℕ) (g : Gateway) (m : MachineValue) →
            MachineStands setup place g m self.old →
            IfOk result (λ delivery. IsDelivered setup place g m now
            message.now delivery self.new) }
    {
        if self.is_down() {
            return Ok(quiet(alloc, Ending::Down));
        }
        if self.is_broken() {
            return self.deliver_to_broken(alloc, message, now);
        }
        if self.is_late(message) {
            return Ok(quiet(alloc, Ending::Expired));
        }
        self.take(alloc, message, now)
    }

    // Whether its book is broken, of one that is up.
    fn is_broken(&self) -> bool
        ensures { (setup : Setup) (place : ℕ) (g : Gateway) (m : MachineValue) →
            MachineStands setup place g m self.now →
            g.is_down ≡ false → result ≡ g.book.is_broken }
    {
        let Some(Site::Up(book)) = &self.site else {
            return true;
        };
        book.is_broken()
    }

    // Whether a message is expired there, of one that is up.
    fn is_late(&self, message: &Message) -> bool
        ensures { (setup : Setup) (place : ℕ) (g : Gateway) (m : MachineValue) →
            MachineStands setup place g m self.now →
            g.is_down ≡ false → result ≡ is_expired (history_of g.book) message.now }
    {
        let Some(Site::Up(book)) = &self.site else {
            return true;
        };
        is_expired(book, message)
    }

    // What is told of a message that it doesn't take after it opened its journal again.
    fn met(&self, message: &Message) -> Option<Ending>
        ensures { (setup : Setup) (place : ℕ) (g : Gateway) (m : MachineValue) →
            MachineStands setup place g m self.now →
            result ≡ met_by g message.now }
    {
        if self.is_down() {
            return Some(Ending::Quiet);
        }
        if self.is_broken() {
            return Some(Ending::Quiet);
        }
        if self.is_late(message) {
            return Some(Ending::Expired);
        }
        None
    }

    // A message reaches a broken gateway, which opens its journal again first.
    fn deliver_to_broken(
        &mut self,
        alloc: Global,
        message: &Message,
        now: Moment,
    ) -> Result<Delivery, NoMemory>
        ensures { (setup : Setup) (place : ℕ) (g : Gateway) (m : MachineValue) →
            MachineStands setup place g m self.old →
            g.is_down ≡ false → g.book.is_broken ≡ true →
            IfOk result (λ delivery. IsDelivered setup place g m now message.now delivery self.new) }
    {
        let sent = self.ask(alloc, GatewayCall::Commit, now)?;
        match self.met(message) {
            Some(ending) => Ok(Delivery { sent, ending }),
            None => self.take_after(alloc, sent, message, now),
        }
    }

    // The same once the journal is open again and these messages were sent.
    fn take_after(
        &mut self,
        alloc: Global,
        sent: Sent,
        message: &Message,
        now: Moment,
    ) -> Result<Delivery, NoMemory>
        ensures { (setup : Setup) (place : ℕ) (g : Gateway) (m : MachineValue) →
            MachineStands setup place g m self.old →
            g.is_down ≡ false → g.book.is_broken ≡ false →
            IfOk result (λ delivery. HasMore setup place g m now message.now sent.messages.items delivery self.new) }
    {
        let later = self.take(alloc, message, now)?;
        let Delivery {
            sent: taken,
            ending,
        } = later;
        let Sent {
            came,
            messages: more,
        } = taken;
        let messages = joined(sent.messages, more)?;
        Ok(Delivery {
            sent: Sent { came, messages },
            ending,
        })
    }

    // A gateway that isn't broken takes a message.
    fn take(&mut self, alloc: Global, message: &Message, now: Moment) -> Result<Delivery, NoMemory>
        ensures { (setup : Setup) (place : ℕ) (g : Gateway) (m : MachineValue) →
            MachineStands setup place g m self.old →
            g.is_down ≡ false → g.book.is_broken ≡ false →
            IfOk result (λ delivery. IsTaken setup place g m now message.now delivery self.new) }
    {
        let made = self.outcome(message, now);
        let sent = self.after_call(alloc)?;
        match made {
            Outcome::Drop(why) => Ok(Delivery {
                ending: ending_of(sent.came, why),
                sent,
            }),
            Outcome::Answer(receipt) => self.answer(alloc, message, sent, &receipt),
        }
    }

    // What the book makes of a message.
    fn outcome(&mut self, message: &Message, now: Moment) -> Outcome
        ensures { (setup : Setup) (place : ℕ) (g : Gateway) (m : MachineValue) →
            MachineStands setup place g m self.old →
            g.is_down ≡ false →
            let sequel = ready_sequel_of m.armed m.at_last g.book in
            let left = taken_of setup m g message.now now sequel in
            IsCalled setup place g m left.value sequel self.new × (result ≡ left.answer) }
    {
        filed_records_stay();
        what_was_written_stays();
        let request = prepare(message.octets.octets());
        let from = node_address(message.node, message.port);
        match &mut self.site {
            Some(site) => site.take(from, &request, now),
            None => Outcome::Drop(Why::Device),
        }
    }

    // An answer waits, or is sent at once where all that it rests on is firm, and where the gateway broke; of one that
    // was stopped nothing is.
    fn answer(
        &mut self,
        alloc: Global,
        message: &Message,
        sent: Sent,
        receipt: &Receipt,
    ) -> Result<Delivery, NoMemory>
        ensures { IfOk result (λ delivery. HasAnswered message.now receipt.now.reply receipt.now.front sent self.old
            delivery self.new) }
    {
        let Sent { came, messages } = sent;
        match came {
            Came::Stopped => Ok(answered(came, messages)),
            Came::Failed => {
                let mut messages = messages;
                let answer = answer_to(alloc, message, receipt)?;
                messages.push(answer)?;
                Ok(answered(came, messages))
            }
            Came::Went => {
                let answer = answer_to(alloc, message, receipt)?;
                self.waiting.push(Waiting {
                    front: receipt.front,
                    message: answer,
                })?;
                let due = self.release(alloc)?;
                let messages = joined(messages, due)?;
                Ok(answered(came, messages))
            }
        }
    }
}

/// A message that was answered, or of which the gateway was stopped.
fn answered(came: Came, messages: Vec<Message>) -> Delivery
    ensures { result ≡ record { sent = record { came = came; messages = messages }; ending = Ending.Quiet } }
{
    Delivery {
        sent: Sent { came, messages },
        ending: Ending::Quiet,
    }
}

/// A book takes a datagram.
pub(crate) fn take(
    book: &mut Book<MemoryArea>,
    from: Addr,
    request: &Prepared<'_>,
    now: Moment,
) -> Outcome
    ensures { (setup : Setup) (place : ℕ) (g : Gateway) (m : MachineValue) → StandsUp setup place g m book.old →
        let sequel = ready_sequel_of m.armed m.at_last g.book in
        let left = taken (fortune_by m.at_last sequel) from (prepared_of request.now) setup.size now no_caller g.book in
        BookStands setup place left.value sequel book.new × (result ≡ left.answer) }
{
    a_gateway_goes_as_armed::<MemoryArea>();
    book.take(from, request, now, Caller::NONE)
}

/// The message that answers another one.
fn answer_to(alloc: Global, message: &Message, receipt: &Receipt) -> Result<Message, NoMemory>
    ensures { IfOk result (λ answer. answer ≡ answering message.now receipt.now.reply) }
{
    Ends::of(message).answer(alloc, &receipt.reply)
}

/// A message of which nothing but this comes.
fn quiet(alloc: Global, ending: Ending) -> Delivery
    ensures { IsQuiet ending result }
{
    Delivery {
        sent: Sent {
            came: Came::Went,
            messages: Vec::new(alloc),
        },
        ending,
    }
}

/// What is told of a message that was dropped, unless the area stopped the gateway.
fn ending_of(came: Came, why: Why) -> Ending
    ensures { result ≡ dropped_as came why }
{
    match came {
        Came::Stopped => Ending::Quiet,
        Came::Went | Came::Failed => Ending::Dropped(why),
    }
}
