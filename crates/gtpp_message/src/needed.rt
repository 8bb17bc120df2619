ghost use Rattle.std.specs.Prelude.{◌≡◌};
ghost use Rattle.gtpp_message.specs.Message.{command_needs, command_rows, first_needed, is_message_type, message_rows, second_needed};

use crate::command::{CANCEL, RELEASE, SEND, SEND_POSSIBLE};
use crate::message_types::{
    ECHO_REQUEST, ECHO_RESPONSE, NODE_ALIVE_REQUEST, NODE_ALIVE_RESPONSE, REDIRECTION_REQUEST,
    REDIRECTION_RESPONSE, TRANSFER_REQUEST, TRANSFER_RESPONSE, VERSION_NOT_SUPPORTED,
};
use case_table::{Cases, cases};
use gtpp_elements::element_types::{
    CANCELLED, CAUSE, COMMAND, PACKET, RECOVERY, RELEASED, RESPONDED,
};

/// What stands in a row for an element that isn't needed.
const NONE: u32 = 0;

/// The types of messages, and for each the element that a message of it must have and a second
/// one.
fn messages() -> Cases<9>
    ensures { result ≡ message_rows }
{
    cases![
        ECHO_REQUEST => NONE, NONE;
        ECHO_RESPONSE => RECOVERY, NONE;
        VERSION_NOT_SUPPORTED => NONE, NONE;
        NODE_ALIVE_REQUEST => NONE, NONE;
        NODE_ALIVE_RESPONSE => NONE, NONE;
        REDIRECTION_REQUEST => CAUSE, NONE;
        REDIRECTION_RESPONSE => CAUSE, NONE;
        TRANSFER_REQUEST => COMMAND, NONE;
        TRANSFER_RESPONSE => CAUSE, RESPONDED;
    ]
}

/// The Packet Transfer Commands, and for each the element that a request with it must have.
fn commands() -> Cases<4>
    ensures { result ≡ command_rows }
{
    cases![
        SEND => PACKET, NONE;
        SEND_POSSIBLE => PACKET, NONE;
        CANCEL => CANCELLED, NONE;
        RELEASE => RELEASED, NONE;
    ]
}

/// Whether there are messages of this type.
pub fn is_message_type(kind: u8) -> bool
    ensures { result ≡ is_message_type kind }
{
    messages().find(u32::from(kind)).is_some()
}

/// The element that a message of this type must have, 0 for none.
pub fn first_needed(kind: u8) -> u8
    ensures { result ≡ first_needed kind }
{
    match messages().find(u32::from(kind)) {
        Some(row) => row.value as u8,
        None => 0,
    }
}

/// The second element that a message of this type must have, 0 for none.
pub fn second_needed(kind: u8) -> u8
    ensures { result ≡ second_needed kind }
{
    match messages().find(u32::from(kind)) {
        Some(row) => row.mark as u8,
        None => 0,
    }
}

/// The element that a request with this Packet Transfer Command must have, 0 for none.
pub fn command_needs(command: u8) -> u8
    ensures { result ≡ command_needs command }
{
    match commands().find(u32::from(command)) {
        Some(row) => row.value as u8,
        None => 0,
    }
}
