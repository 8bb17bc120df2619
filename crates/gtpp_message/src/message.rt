ghost use Rattle.std.specs.Prelude.{◌≡◌};
ghost use Rattle.gtpp_message.specs.Values.{message_value};
ghost use Rattle.gtpp_message.specs.Writing.{message_type};

use crate::message_types;
use crate::packet::Packet;
use gtpp_elements::Numbers;

/// A message of GTP' (3GPP TS 32.295, clause 6.2).
#[derive(Debug, Drop)]
pub enum Message<'a> {
    EchoRequest,
    EchoResponse {
        /// The restart counter.
        counter: u8,
    },
    VersionNotSupported,
    NodeAliveRequest {
        /// The address of the node, where it is given. It may have any number of octets.
        address: Option<&'a [u8]>,
    },
    NodeAliveResponse,
    RedirectionRequest {
        /// Why another node is to be used.
        cause: u8,
        /// The address of the recommended node, of 4 or 16 octets, where one is recommended.
        to: Option<&'a [u8]>,
    },
    RedirectionResponse {
        cause: u8,
    },
    /// Data Record Transfer Request.
    TransferRequest {
        /// What is asked.
        body: Transfer<'a>,
    },
    /// Data Record Transfer Response.
    TransferResponse {
        cause: u8,
        /// The sequence numbers of the requests that are answered.
        responded: Numbers<'a>,
    },
}

/// What a Data Record Transfer Request asks, by its Packet Transfer Command (3GPP TS 32.295,
/// clause 6.2.4.5).
#[derive(Debug, Drop)]
pub enum Transfer<'a> {
    /// Send Data Record Packet.
    Send(Packet<'a>),
    /// Send possibly duplicated Data Record Packet.
    Possible(Packet<'a>),
    /// Cancel Data Packet: the sequence numbers of the packets.
    Cancel(Numbers<'a>),
    /// Release Data Packet: the sequence numbers of the packets.
    Release(Numbers<'a>),
}

impl Message<'_> {
    /// The type of the message.
    pub fn kind(&self) -> u8
        ensures { result ≡ message_type (message_value self.now) }
    {
        match self {
            Message::EchoRequest => message_types::ECHO_REQUEST,
            Message::EchoResponse { .. } => message_types::ECHO_RESPONSE,
            Message::VersionNotSupported => message_types::VERSION_NOT_SUPPORTED,
            Message::NodeAliveRequest { .. } => message_types::NODE_ALIVE_REQUEST,
            Message::NodeAliveResponse => message_types::NODE_ALIVE_RESPONSE,
            Message::RedirectionRequest { .. } => message_types::REDIRECTION_REQUEST,
            Message::RedirectionResponse { .. } => message_types::REDIRECTION_RESPONSE,
            Message::TransferRequest { .. } => message_types::TRANSFER_REQUEST,
            Message::TransferResponse { .. } => message_types::TRANSFER_RESPONSE,
        }
    }
}
