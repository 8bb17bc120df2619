ghost use Rattle.std.specs.Prelude.{◌≡◌, ◌≤◌, ◌+◌, length, Ok};
ghost use Rattle.gtpp_message.specs.Role.{has_refusal, is_stray, read_at, refused, role_reading};
ghost use Rattle.gtpp_message.specs.Values.{reading_value};
ghost use Rattle.gtpp_message.specs.Writing.{IsSendableReading};

use crate::message_types;
use crate::needed::is_message_type;
use crate::parse::read_body;
use crate::reading::{Reading, Why};
use gtpp_header::{HEADER_OCTETS, HeadFault, Header};

/// An end of a path.
#[derive(Clone, Copy)]
pub enum Role {
    /// The charging gateway.
    Gateway,
    /// The serving node.
    Node,
}

impl Role {
    /// Whether no message of this type is sent to this end.
    pub fn is_stray(self, kind: u8) -> bool
        ensures { result ≡ is_stray self kind }
    {
        match self {
            Role::Gateway => matches!(
                kind,
                message_types::VERSION_NOT_SUPPORTED
                    | message_types::NODE_ALIVE_RESPONSE
                    | message_types::REDIRECTION_REQUEST
                    | message_types::REDIRECTION_RESPONSE
                    | message_types::TRANSFER_RESPONSE
            ),
            Role::Node => matches!(
                kind,
                message_types::VERSION_NOT_SUPPORTED
                    | message_types::NODE_ALIVE_REQUEST
                    | message_types::TRANSFER_REQUEST
            ),
        }
    }
}

/// Reads a datagram as this end of the path does.
///
/// The conditions are those of [`read`](crate::read), and stand in its order. Behind that of the
/// type stands that no such message is sent to this end, which the body doesn't change. Another
/// version is answered unless the type is that of the answer. A body that isn't one of its type is
/// refused where a message answers that, and else dropped.
pub fn read_as(role: Role, octets: &[u8]) -> Reading<'_>
    ensures reading { reading_value result ≡ role_reading role octets.now }
    ensures sendable { IsSendableReading (reading_value result) }
{
    match gtpp_header::read(octets) {
        Ok(header) => read_at(role, header, octets),
        Err(HeadFault::Short) => Reading::Drop(Why::Short),
        Err(HeadFault::NotPrime) => Reading::Drop(Why::NotPrime),
        Err(
            HeadFault::Version {
                kind: message_types::VERSION_NOT_SUPPORTED,
                ..
            },
        ) => Reading::Drop(Why::Stray),
        Err(HeadFault::Version { kind, number, .. }) => Reading::OtherVersion { kind, number },
        Err(HeadFault::Cut { .. }) => Reading::Drop(Why::Cut),
    }
}

/// What this end reads behind a header.
fn read_at(role: Role, header: Header, octets: &[u8]) -> Reading<'_>
    requires { HEADER_OCTETS + header.length ≤ length octets.now }
    ensures { reading_value result ≡ read_at role (Ok header) octets.now }
{
    let Header {
        kind,
        length,
        number,
    } = header;
    if !is_message_type(kind) {
        return Reading::Drop(Why::UnknownType);
    }
    if role.is_stray(kind) {
        return Reading::Drop(Why::Stray);
    }
    let (_, payload) = octets.split_at(HEADER_OCTETS);
    let (body, _) = payload.split_at(usize::from(length));
    match read_body(kind, body) {
        Ok(message) => Reading::Message { number, message },
        Err(flaw) => refused(kind, flaw.cause(), number),
    }
}

/// A message of this type with a body that isn't one of the type, for which this cause stands.
fn refused<'a>(kind: u8, cause: u8, number: u16) -> Reading<'a>
    ensures { reading_value result ≡ refused kind cause number }
{
    if has_refusal(kind) {
        Reading::Refused {
            kind,
            cause,
            number,
        }
    } else {
        Reading::Drop(Why::Malformed { cause })
    }
}

/// Whether a response with a cause answers a message of this type.
fn has_refusal(kind: u8) -> bool
    ensures { result ≡ has_refusal kind }
{
    matches!(
        kind,
        message_types::REDIRECTION_REQUEST | message_types::TRANSFER_REQUEST
    )
}
