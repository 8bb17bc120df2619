use gtpp_message::Why;
use gw_base::{Act, Short};

/// What is done with a datagram.
#[derive(Drop)]
pub enum Decision<'a> {
    /// It isn't answered.
    Drop(Why),
    /// These octets go back to the sender.
    Reply {
        reply: Short,
        /// What is recorded with the answer.
        act: Option<Act<'a>>,
    },
}
