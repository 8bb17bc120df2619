ghost use Rattle.std.specs.Prelude.{◌≡◌};
ghost use Rattle.gtpp_message.specs.PathMessages.{path_event, path_message, path_number};
ghost use Rattle.gtpp_message.specs.Values.{lent, message_value};

use crate::message::Message;
use path_mgmt::PathEvent;

impl<'a> Message<'a> {
    /// What the message with this sequence number tells an end of the path, where it is one that
    /// asks for or tells a restart counter or that a node is alive.
    pub fn path_event(&self, number: u16) -> Option<PathEvent>
        ensures { result ≡ path_event number (message_value self.now) }
    {
        match self {
            Message::EchoRequest => Some(PathEvent::EchoAsked { number }),
            Message::EchoResponse { counter } => Some(PathEvent::EchoTold {
                number,
                counter: *counter,
            }),
            Message::NodeAliveRequest { .. } => Some(PathEvent::AliveAsked { number }),
            Message::NodeAliveResponse => Some(PathEvent::AliveTold { number }),
            Message::VersionNotSupported
            | Message::RedirectionRequest { .. }
            | Message::RedirectionResponse { .. }
            | Message::TransferRequest { .. }
            | Message::TransferResponse { .. } => None,
        }
    }

    /// The sequence number of the message that tells an event, and the message. A Node Alive
    /// Request names its sender where an address is given.
    pub fn of_path(event: PathEvent, sender: Option<&'a [u8]>) -> (u16, Message<'a>)
        ensures number { result.0 ≡ path_number event }
        ensures message { message_value result.1 ≡ path_message event (lent sender.entry) }
    {
        match event {
            PathEvent::EchoAsked { number } => (number, Message::EchoRequest),
            PathEvent::EchoTold { number, counter } => (number, Message::EchoResponse { counter }),
            PathEvent::AliveAsked { number } => {
                (number, Message::NodeAliveRequest { address: sender })
            }
            PathEvent::AliveTold { number } => (number, Message::NodeAliveResponse),
        }
    }
}
