ghost use Rattle.std.specs.Prelude.{◌≡◌};
ghost use Rattle.path_mgmt.specs.Answers.{replying, silence};

/// A message of path management, with its sequence number (3GPP TS 32.295, clause 6.2).
#[derive(Clone, Copy, Debug)]
pub enum PathEvent {
    /// Echo Request, which asks whether the path is there.
    EchoAsked {
        /// The sequence number, which the response repeats.
        number: u16,
    },
    /// Echo Response.
    EchoTold {
        /// The sequence number of the request.
        number: u16,
        /// The sender's restart counter, from 0 to 255.
        counter: u8,
    },
    /// Node Alive Request.
    AliveAsked {
        /// The sequence number, which the response repeats.
        number: u16,
    },
    /// Node Alive Response.
    AliveTold {
        /// The sequence number of the request.
        number: u16,
    },
}

/// What an end of the path makes of a message.
#[derive(Clone, Copy, Debug)]
pub struct PathAnswer {
    /// The message that goes back to the sender.
    pub reply: Option<PathEvent>,
    /// The restart counter that opens a new epoch of the sender.
    pub changed: Option<u8>,
    /// Whether the sender is alive from now on.
    pub alive: bool,
}

impl PathAnswer {
    /// The answer that sends this message back and changes nothing.
    pub(crate) fn replying(event: PathEvent) -> PathAnswer
        ensures { result ≡ replying event }
    {
        PathAnswer {
            reply: Some(event),
            changed: None,
            alive: false,
        }
    }

    /// The answer that sends nothing back and changes nothing.
    pub(crate) fn silence() -> PathAnswer
        ensures { result ≡ silence }
    {
        PathAnswer {
            reply: None,
            changed: None,
            alive: false,
        }
    }
}
