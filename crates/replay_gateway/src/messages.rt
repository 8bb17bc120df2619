// Messages: what answers them, and which are expired.
ghost use Rattle.std.specs.Prelude.{◌≡◌, ◌%◌, IfOk, ◌∷◌, []};
ghost use Rattle.gateway_book.specs.Book.{value_of};
ghost use Rattle.gateway_answer.specs.Value.{history_of};
ghost use Rattle.gtpp_message.specs.Message.{TransferResponse};
ghost use Rattle.gtpp_message.specs.Writing.{written};
ghost use Rattle.gw_base.specs.declared.cause.TheConstants.{SYSTEM_FAILURE};
ghost use Rattle.once_core.specs.Expired.{is_expired};
ghost use Rattle.once_core.specs.Messages.{answering};
ghost use Rattle.once_core.specs.declared.message.Message.{Message as MessageValue};
ghost use Rattle.replay_gateway.specs.Ends.{ends_kept};

use area_disk::MemoryArea;
use gateway_book::Book;
use gtpp_elements::Numbers;
use gtpp_message::{Message as Body, write_short};
use gw_base::{NoMemory, Octets, Short, cause};
use node_core::Port;
use once_core::{Message, node_id};
use std::alloc::Global;

/// What an answer has of the message that it answers: its ends and its number.
#[derive(Clone, Copy)]
pub struct Ends {
    /// Whether the message that is answered goes to the gateway.
    pub to_gateway: bool,
    /// The gateway and the node, counted from 0.
    pub gateway: u8,
    pub node: u8,
    /// The port of the node.
    pub port: Port,
    /// How many starts the node had made.
    pub start: u8,
    /// The whole number of the message.
    pub number: u64,
}

impl Ends {
    /// What the answer to this message has of it.
    pub fn of(message: &Message) -> Ends
        ensures { result ≡ ends_kept message.now }
    {
        Ends {
            to_gateway: message.to_gateway,
            gateway: message.gateway,
            node: message.node,
            port: message.port,
            start: message.start,
            number: message.number,
        }
    }

    /// The message with the octets of this reply that goes back. `NoMemory`: there was no memory for it.
    pub fn answer(self, alloc: Global, reply: &Short) -> Result<Message, NoMemory>
        ensures { (message : MessageValue) → self ≡ ends_kept message →
            IfOk result (λ answer. answer ≡ answering message reply.now) }
    {
        let octets = kept(alloc, reply)?;
        Ok(Message {
            to_gateway: !self.to_gateway,
            gateway: self.gateway,
            node: self.node,
            port: self.port,
            start: self.start,
            number: self.number,
            named: None,
            octets,
        })
    }
}

/// Whether a message is expired at a gateway.
pub(crate) fn is_expired(book: &Book<MemoryArea>, message: &Message) -> bool
    ensures { result ≡ is_expired (history_of (value_of book.now)) message.now }
{
    let about = message.about();
    let key = book.key(node_id(message.node), (about % 65_536) as u16);
    if message.start < key.start {
        return true;
    }
    if !message.is_request() {
        return false;
    }
    message.start != key.start || key.number != about
}

/// The octets of a response to the request with this number that tells of a failure.
pub(crate) fn failure(number: u64) -> Short
    ensures { result ≡
        written (number % 65536) (TransferResponse SYSTEM_FAILURE (number % 65536 ∷ [])) }
{
    let number = (number % 65_536) as u16;
    let octets = number.to_be_bytes();
    let Ok(responded) = Numbers::of(&octets) else {
        unreachable!();
    };
    let body = Body::TransferResponse {
        cause: cause::SYSTEM_FAILURE,
        responded,
    };
    write_short(number, &body)
}

/// Octets of a reply, to be kept.
pub(crate) fn kept(alloc: Global, reply: &Short) -> Result<Octets, NoMemory>
    ensures { IfOk result (λ octets. octets ≡ reply.now) }
{
    Octets::of(alloc, reply.octets())
}
