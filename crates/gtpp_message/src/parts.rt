ghost use Rattle.std.specs.Prelude.{◌≡◌, ◌≤◌, ◌++◌, [], ◌∷◌, length};
ghost use Rattle.gtpp_message.specs.Parts.{head_octets, octet_octets, parts_octets, sent_body, sent_request, tail_octets, valued};
ghost use Rattle.gtpp_message.specs.Values.{message_value, transfer_value};
ghost use Rattle.gtpp_message.specs.Writing.{body_octets};

use crate::command::{CANCEL, RELEASE, SEND, SEND_POSSIBLE};
use crate::message::{Message, Transfer};
use gtpp_elements::element_types::{
    CANCELLED, CAUSE, COMMAND, NODE_ADDRESS, PACKET, RECOMMENDED, RECOVERY, RELEASED, RESPONDED,
};

/// An element of one octet.
#[derive(Clone, Copy)]
pub struct OctetElement {
    pub kind: u8,
    pub octet: u8,
}

/// An element that states its length, with a value that the message lends.
#[derive(Clone, Copy)]
pub struct LentElement<'a> {
    pub kind: u8,
    pub value: &'a [u8],
}

/// The elements of a message as it is sent: one of one octet at most, and then one that states its
/// length at most.
#[derive(Clone, Copy)]
pub struct Parts<'a> {
    pub octet: Option<OctetElement>,
    pub value: Option<LentElement<'a>>,
}

/// How many octets an element of one octet has, and one that states its length beside its value.
const OCTET_ELEMENT: usize = 2;

const LENGTH_ELEMENT: usize = 3;

/// An element of one octet, with its type.
fn octet(kind: u8, octet: u8) -> Option<OctetElement>
    ensures { octet_octets result ≡ kind ∷ octet ∷ [] }
{
    Some(OctetElement { kind, octet })
}

/// An element that states its length, with its type.
fn value(kind: u8, value: &[u8]) -> Option<LentElement<'_>>
    ensures { head_octets result ++ tail_octets result ≡ valued kind value.now }
{
    Some(LentElement { kind, value })
}

impl<'a> Parts<'a> {
    /// An element of one octet, and then one that states its length, where there are such.
    fn of(octet: Option<OctetElement>, value: Option<LentElement<'a>>) -> Parts<'a>
        ensures { parts_octets result ≡ octet_octets octet ++ (head_octets value.entry ++ tail_octets value.entry) }
    {
        Parts { octet, value }
    }

    /// How many octets the elements have.
    pub fn length(&self) -> usize
        requires { length (parts_octets self.now) ≤ 65535 }
        ensures { result ≡ length (parts_octets self.now) }
    {
        octet_length(self.octet) + value_length(self.value)
    }

    /// The octets that the message lends.
    pub fn tail(&self) -> &'a [u8]
        ensures { result.now ≡ tail_octets self.now.value }
    {
        match self.value {
            Some(element) => element.value,
            None => &[],
        }
    }
}

fn octet_length(element: Option<OctetElement>) -> usize
    ensures { result ≡ length (octet_octets element) }
{
    match element {
        Some(_) => OCTET_ELEMENT,
        None => 0,
    }
}

fn value_length(element: Option<LentElement<'_>>) -> usize
    requires { length (tail_octets element) ≤ 65535 }
    ensures { result ≡ length (head_octets element.entry ++ tail_octets element.entry) }
{
    match element {
        Some(LentElement { value, .. }) => LENGTH_ELEMENT + value.len(),
        None => 0,
    }
}

/// The elements of a message as it is sent.
pub fn sent_parts<'a>(message: &Message<'a>) -> Parts<'a>
    ensures { parts_octets result ≡ body_octets (message_value message.now) }
{
    parts_of(message)
}

/// The same, kind by kind.
fn parts_of<'a>(message: &Message<'a>) -> Parts<'a>
    ensures { parts_octets result ≡ sent_body (message_value message.now) }
{
    match message {
        Message::EchoRequest | Message::VersionNotSupported | Message::NodeAliveResponse => {
            Parts::of(None, None)
        }
        Message::EchoResponse { counter } => Parts::of(octet(RECOVERY, *counter), None),
        Message::NodeAliveRequest { address: None } => Parts::of(None, None),
        Message::NodeAliveRequest {
            address: Some(address),
        } => Parts::of(None, value(NODE_ADDRESS, address)),
        Message::RedirectionRequest { cause, to: None } => Parts::of(octet(CAUSE, *cause), None),
        Message::RedirectionRequest {
            cause,
            to: Some(address),
        } => Parts::of(octet(CAUSE, *cause), value(RECOMMENDED, address)),
        Message::RedirectionResponse { cause } => Parts::of(octet(CAUSE, *cause), None),
        Message::TransferRequest { body } => request_parts(body),
        Message::TransferResponse { cause, responded } => {
            Parts::of(octet(CAUSE, *cause), value(RESPONDED, responded.octets()))
        }
    }
}

/// The command of a request, and the element that it needs.
fn request_parts<'a>(body: &Transfer<'a>) -> Parts<'a>
    ensures { parts_octets result ≡ sent_request (transfer_value body.now) }
{
    match body {
        Transfer::Send(packet) => Parts::of(octet(COMMAND, SEND), value(PACKET, packet.octets())),
        Transfer::Possible(packet) => {
            Parts::of(
                octet(COMMAND, SEND_POSSIBLE),
                value(PACKET, packet.octets()),
            )
        }
        Transfer::Cancel(numbers) => {
            Parts::of(octet(COMMAND, CANCEL), value(CANCELLED, numbers.octets()))
        }
        Transfer::Release(numbers) => {
            Parts::of(octet(COMMAND, RELEASE), value(RELEASED, numbers.octets()))
        }
    }
}
