ghost use Rattle.std.specs.Prelude.{◌≡◌, ◌≤◌, ◌+◌, length, Ok};
ghost use Rattle.gtpp_elements.specs.Elements.{first_value};
ghost use Rattle.gtpp_elements.specs.Reading.{elements_in};
ghost use Rattle.gtpp_message.specs.Reading.{behind, body_of, echo_response_of, message_of, numbers_among, octet_in, packet_among, reading, redirection_of, redirection_request_of, redirection_response_of, transfer_of, transfer_request_of, transfer_response_of};
ghost use Rattle.gtpp_message.specs.Values.{lent, message_value, packet_value, reading_value, seen, transfer_value};
ghost use Rattle.gtpp_message.specs.Writing.{IsSendableReading};

use crate::flaw::Flaw;
use crate::message::{Message, Transfer};
use crate::needed::{command_needs, first_needed, is_message_type, second_needed};
use crate::packet::Packet;
use crate::reading::{Reading, Why};
use crate::{command, message_types};
use gtpp_elements::{Elements, Numbers, element_types};
use gtpp_header::{HEADER_OCTETS, HeadFault, Header};

/// Reads a datagram.
///
/// The first condition that holds decides, in this order: the octets are fewer than a header has,
/// are of GTP, are of another version, are fewer than the header says, the type is unknown, the
/// body is no list of elements, an element is missing or has a wrong form. Octets past the length
/// that the header says are not looked at.
pub fn read(octets: &[u8]) -> Reading<'_>
    ensures reading { reading_value result ≡ reading octets.now }
    ensures sendable { IsSendableReading (reading_value result) }
{
    match gtpp_header::read(octets) {
        Ok(header) => behind(header, octets),
        Err(HeadFault::Short) => Reading::Drop(Why::Short),
        Err(HeadFault::NotPrime) => Reading::Drop(Why::NotPrime),
        Err(HeadFault::Version { kind, number, .. }) => Reading::OtherVersion { kind, number },
        Err(HeadFault::Cut { .. }) => Reading::Drop(Why::Cut),
    }
}

/// The message behind a header.
fn behind(header: Header, octets: &[u8]) -> Reading<'_>
    requires { HEADER_OCTETS + header.length ≤ length octets.now }
    ensures { reading_value result ≡ behind (Ok header) octets.now }
{
    let Header {
        kind,
        length,
        number,
    } = header;
    if !is_message_type(kind) {
        return Reading::Drop(Why::UnknownType);
    }
    let (_, payload) = octets.split_at(HEADER_OCTETS);
    let (body, _) = payload.split_at(usize::from(length));
    match read_body(kind, body) {
        Ok(message) => Reading::Message { number, message },
        Err(flaw) => Reading::Refused {
            kind,
            cause: flaw.cause(),
            number,
        },
    }
}

/// What the body of a message of a known type says.
pub fn read_body(kind: u8, body: &[u8]) -> Result<Message<'_>, Flaw>
    ensures { seen message_value result ≡ body_of kind (elements_in body.now) }
{
    match gtpp_elements::read(body) {
        Ok(elements) => message(kind, &elements),
        Err(_) => Err(Flaw::Elements),
    }
}

/// What the elements of a message of a known type say.
fn message<'a>(kind: u8, elements: &Elements<'a>) -> Result<Message<'a>, Flaw>
    ensures { seen message_value result ≡ message_of kind elements.now }
{
    match kind {
        message_types::ECHO_REQUEST => Ok(Message::EchoRequest),
        message_types::ECHO_RESPONSE => echo_response(elements),
        message_types::VERSION_NOT_SUPPORTED => Ok(Message::VersionNotSupported),
        message_types::NODE_ALIVE_REQUEST => Ok(Message::NodeAliveRequest {
            address: elements.first(element_types::NODE_ADDRESS),
        }),
        message_types::NODE_ALIVE_RESPONSE => Ok(Message::NodeAliveResponse),
        message_types::REDIRECTION_REQUEST => redirection_request(elements),
        message_types::REDIRECTION_RESPONSE => redirection_response(elements),
        message_types::TRANSFER_REQUEST => transfer_request(elements),
        _ => transfer_response(elements),
    }
}

fn echo_response<'a>(elements: &Elements<'a>) -> Result<Message<'a>, Flaw>
    ensures { seen message_value result ≡ echo_response_of elements.now }
{
    match octet(elements, first_needed(message_types::ECHO_RESPONSE)) {
        Ok(counter) => Ok(Message::EchoResponse { counter }),
        Err(flaw) => Err(flaw),
    }
}

fn redirection_request<'a>(elements: &Elements<'a>) -> Result<Message<'a>, Flaw>
    ensures { seen message_value result ≡ redirection_request_of elements.now }
{
    match octet(elements, first_needed(message_types::REDIRECTION_REQUEST)) {
        Ok(cause) => redirection(cause, elements.first(element_types::RECOMMENDED)),
        Err(flaw) => Err(flaw),
    }
}

/// A request to use another node, with its address where there is one.
fn redirection(cause: u8, to: Option<&[u8]>) -> Result<Message<'_>, Flaw>
    ensures { seen message_value result ≡ redirection_of cause (lent to.entry) }
{
    match to {
        Some(address) if address.len() != 4 && address.len() != 16 => Err(Flaw::Incorrect),
        to => Ok(Message::RedirectionRequest { cause, to }),
    }
}

fn redirection_response<'a>(elements: &Elements<'a>) -> Result<Message<'a>, Flaw>
    ensures { seen message_value result ≡ redirection_response_of elements.now }
{
    match octet(elements, first_needed(message_types::REDIRECTION_RESPONSE)) {
        Ok(cause) => Ok(Message::RedirectionResponse { cause }),
        Err(flaw) => Err(flaw),
    }
}

fn transfer_request<'a>(elements: &Elements<'a>) -> Result<Message<'a>, Flaw>
    ensures { seen message_value result ≡ transfer_request_of elements.now }
{
    match octet(elements, first_needed(message_types::TRANSFER_REQUEST)) {
        Ok(command) => match transfer(command, elements) {
            Ok(body) => Ok(Message::TransferRequest { body }),
            Err(flaw) => Err(flaw),
        },
        Err(flaw) => Err(flaw),
    }
}

fn transfer_response<'a>(elements: &Elements<'a>) -> Result<Message<'a>, Flaw>
    ensures { seen message_value result ≡ transfer_response_of elements.now }
{
    match octet(elements, first_needed(message_types::TRANSFER_RESPONSE)) {
        Ok(cause) => match numbers(elements, second_needed(message_types::TRANSFER_RESPONSE)) {
            Ok(responded) => Ok(Message::TransferResponse { cause, responded }),
            Err(flaw) => Err(flaw),
        },
        Err(flaw) => Err(flaw),
    }
}

/// What a request with this Packet Transfer Command asks.
fn transfer<'a>(command: u8, elements: &Elements<'a>) -> Result<Transfer<'a>, Flaw>
    ensures { seen transfer_value result ≡ transfer_of command elements.now }
{
    match command {
        command::SEND => packet(elements, command_needs(command::SEND)).map(Transfer::Send),
        command::SEND_POSSIBLE => {
            packet(elements, command_needs(command::SEND_POSSIBLE)).map(Transfer::Possible)
        }
        command::CANCEL => {
            numbers(elements, command_needs(command::CANCEL)).map(Transfer::Cancel)
        }
        command::RELEASE => {
            numbers(elements, command_needs(command::RELEASE)).map(Transfer::Release)
        }
        _ => Err(Flaw::Incorrect),
    }
}

/// The packet in the first element of a type.
fn packet<'a>(elements: &Elements<'a>, kind: u8) -> Result<Packet<'a>, Flaw>
    ensures { seen packet_value result ≡ packet_among kind elements.now }
{
    match elements.first(kind) {
        Some(value) => Packet::of(value).ok_or(Flaw::Incorrect),
        None => Err(Flaw::Missing),
    }
}

/// The list of numbers in the first element of a type.
fn numbers<'a>(elements: &Elements<'a>, kind: u8) -> Result<Numbers<'a>, Flaw>
    ensures { result ≡ numbers_among kind elements.now }
{
    match elements.first(kind) {
        Some(value) => match Numbers::of(value) {
            Ok(numbers) => Ok(numbers),
            Err(_) => Err(Flaw::Incorrect),
        },
        None => Err(Flaw::Missing),
    }
}

/// The octet in the first element of a type.
fn octet(elements: &Elements<'_>, kind: u8) -> Result<u8, Flaw>
    ensures { result ≡ octet_in (first_value kind elements.now) }
{
    match elements.first(kind) {
        Some(&[octet, ..]) => Ok(octet),
        _ => Err(Flaw::Missing),
    }
}
