ghost use Rattle.std.specs.Prelude.{◌≡◌, option_map};
ghost use Rattle.node_core.specs.Copies.{command_hearing, copy_hearing, copy_hearing_own, first_told, is_answered, is_chosen, is_filed, is_filing, is_fulfilled, is_held, is_release, is_released, is_sealed, is_settled, is_unknown, new_copy, told, told_if};

use crate::port::Port;
use crate::responded::Responded;
use gw_base::cause::{ACCEPTED, ALREADY_FULFILLED, DUPLICATE_ALREADY_FULFILLED};

/// What a node knows of a copy of a packet. The first response that tells something decides.
#[derive(Clone, Copy)]
pub enum Verdict {
    /// No response has told anything of it.
    Unknown,
    /// The gateway has filed it.
    Filed,
    /// The gateway hadn't met its number before the test of it, and takes no packet with that
    /// number any more.
    Sealed,
    /// The gateway holds it until it is released or cancelled.
    Held,
}

impl Verdict {
    /// Whether nothing is known of the copy.
    pub(crate) fn is_unknown(self) -> bool
        ensures { result ≡ is_unknown self }
    {
        matches!(self, Verdict::Unknown)
    }

    pub(crate) fn is_filed(self) -> bool
        ensures { result ≡ is_filed self }
    {
        matches!(self, Verdict::Filed)
    }

    pub(crate) fn is_sealed(self) -> bool
        ensures { result ≡ is_sealed self }
    {
        matches!(self, Verdict::Sealed)
    }

    pub(crate) fn is_held(self) -> bool
        ensures { result ≡ is_held self }
    {
        matches!(self, Verdict::Held)
    }

    /// The verdict with what is told later, which counts where nothing was told before.
    fn first_told(self, later: Verdict) -> Verdict
        ensures { result ≡ first_told self later }
    {
        match self {
            Verdict::Unknown => later,
            Verdict::Filed | Verdict::Sealed | Verdict::Held => self,
        }
    }
}

/// What a node asks of a gateway that holds a copy.
#[derive(Clone, Copy, Debug, PartialEq, Eq)]
pub enum Order {
    Release,
    Cancel,
}

impl Order {
    fn is_release(self) -> bool
        ensures { result ≡ is_release self }
    {
        matches!(self, Order::Release)
    }
}

/// The release or the cancel that was sent for a copy.
#[derive(Clone, Copy)]
pub struct Command {
    pub order: Order,
    /// Its own request number at the copy's gateway.
    pub number: u64,
    /// Whether a response told that it is fulfilled.
    pub is_answered: bool,
}

impl Command {
    /// The command after a response from its gateway.
    fn hearing(self, cause: u8, numbers: &Responded<'_>) -> Command
        ensures { result ≡ command_hearing cause numbers.now self }
    {
        let is_named = numbers.names(self.number);
        Command {
            is_answered: self.is_answered || (is_fulfilled(cause) && is_named),
            ..self
        }
    }
}

/// A copy of a packet: the gateway that it was sent to and its request number there, and what the
/// node knows of it.
#[derive(Clone, Copy)]
pub struct PacketCopy {
    /// The gateway's place in the node's list, counted from 0.
    pub gateway: u8,
    /// Its whole request number there, of which the wire carries the last 16 bits.
    pub number: u64,
    /// Whether it is the first copy, which isn't sent as a possible duplicate.
    pub is_plain: bool,
    /// What the responses of that gateway told of it.
    pub verdict: Verdict,
    /// The release or the cancel that was sent for it, if one was.
    pub command: Option<Command>,
}

impl PacketCopy {
    /// A copy as it is first sent.
    pub(crate) fn new(gateway: u8, number: u64, is_plain: bool) -> PacketCopy
        ensures { result ≡ new_copy gateway number is_plain }
    {
        PacketCopy {
            gateway,
            number,
            is_plain,
            verdict: Verdict::Unknown,
            command: None,
        }
    }

    /// Whether the release or the cancel that was sent for it is fulfilled.
    pub(crate) fn is_answered(self) -> bool
        ensures { result ≡ is_answered self }
    {
        match self.command {
            None => false,
            Some(command) => command.is_answered,
        }
    }

    /// Whether a release was sent for it.
    pub(crate) fn is_chosen(self) -> bool
        ensures { result ≡ is_chosen self }
    {
        match self.command {
            None => false,
            Some(command) => command.order.is_release(),
        }
    }

    /// Whether a release of it is fulfilled.
    pub(crate) fn is_released(self) -> bool
        ensures { result ≡ is_released self }
    {
        self.is_chosen() && self.is_answered()
    }

    /// Whether it is out of the way: sealed, released or cancelled.
    pub(crate) fn is_settled(self) -> bool
        ensures { result ≡ is_settled self }
    {
        self.verdict.is_sealed() || self.is_answered()
    }

    /// The copy after a response from a gateway.
    pub(crate) fn hearing(
        self,
        port: Port,
        gateway: u8,
        cause: u8,
        numbers: &Responded<'_>,
    ) -> PacketCopy
        ensures { result ≡ copy_hearing port gateway cause numbers.now self }
    {
        if self.gateway == gateway {
            self.hearing_own(port, cause, numbers)
        } else {
            self
        }
    }

    /// The copy after a response from its gateway.
    fn hearing_own(self, port: Port, cause: u8, numbers: &Responded<'_>) -> PacketCopy
        ensures { result ≡ copy_hearing_own port cause numbers.now self }
    {
        let is_named = numbers.names(self.number);
        let told = told_if(is_named, port, self.is_plain, cause);
        PacketCopy {
            verdict: self.verdict.first_told(told),
            command: command_hearing(self.command, cause, numbers),
            ..self
        }
    }
}

/// The command of a copy, where there is one, after a response from its gateway.
fn command_hearing(command: Option<Command>, cause: u8, numbers: &Responded<'_>) -> Option<Command>
    ensures { result ≡ option_map (command_hearing cause numbers.now) command }
{
    match command {
        None => None,
        Some(command) => Some(command.hearing(cause, numbers)),
    }
}

/// Whether the cause is that of a release or a cancel that is fulfilled, now or before, and of a
/// possible duplicate that is held.
fn is_fulfilled(cause: u8) -> bool
    ensures { result ≡ is_fulfilled cause }
{
    cause == ACCEPTED || cause == DUPLICATE_ALREADY_FULFILLED
}

/// Whether the cause is that of a plain copy that is filed, now or before.
fn is_filing(cause: u8) -> bool
    ensures { result ≡ is_filing cause }
{
    cause == ACCEPTED || cause == ALREADY_FULFILLED
}

/// What a response with this cause tells of a copy, where it names it.
fn told_if(is_named: bool, port: Port, is_plain: bool, cause: u8) -> Verdict
    ensures { result ≡ told_if is_named port is_plain cause }
{
    if is_named {
        told(port, is_plain, cause)
    } else {
        Verdict::Unknown
    }
}

/// What a response with this cause tells of a copy, plain or not, at this port.
fn told(port: Port, is_plain: bool, cause: u8) -> Verdict
    ensures { result ≡ told port is_plain cause }
{
    match (port, is_plain) {
        (Port::First, true) => {
            if is_filing(cause) {
                Verdict::Filed
            } else {
                Verdict::Unknown
            }
        }
        (Port::First, false) => {
            if is_fulfilled(cause) {
                Verdict::Held
            } else {
                Verdict::Unknown
            }
        }
        (Port::Second, true) => match cause {
            ALREADY_FULFILLED => Verdict::Filed,
            ACCEPTED => Verdict::Sealed,
            _ => Verdict::Unknown,
        },
        (Port::Second, false) => match cause {
            DUPLICATE_ALREADY_FULFILLED => Verdict::Held,
            ACCEPTED => Verdict::Sealed,
            _ => Verdict::Unknown,
        },
    }
}
