// A link, as those see it who send and receive by it.
ghost use Rattle.std.specs.Prelude.{◌≡◌, ◌≤◌, IfOk, OnOk, length};
ghost use Rattle.net_link.specs.Datagrams.{IsNewAt};
ghost use Rattle.net_link.specs.Steps.{Receives, Sends, Stops, most_octets};

use gw_base::{Addr, Failed, NoMemory};
use std::error::Error;
use std::fmt;

/// What came of waiting for a datagram.
#[derive(Clone, Copy, PartialEq, Eq)]
pub enum Heard {
    /// One came from this address, with so many octets.
    Datagram { from: Addr, length: usize },
    /// None came for a while.
    Quiet,
}

/// Why a link didn't send, or wasn't made or split.
#[derive(Clone, Copy, Debug, PartialEq, Eq)]
pub enum LinkStop {
    /// The link failed. Its count of faults rose in this call.
    Failed,
    /// There was no memory for it, and the link is as before.
    NoMemory,
}

impl fmt::Display for LinkStop {
    ghost use Rattle.std.specs.Prelude.{Some};
    ghost use Rattle.net_link.specs.FaultText.{link_stop_text};

    ghost output = { λ stop. Some (link_stop_text stop) };

    fn fmt<W: fmt::Write>(&self, f: &mut fmt::Formatter<W>) -> fmt::Result {
        f.write_str(match self {
            LinkStop::Failed => "the link failed",
            LinkStop::NoMemory => "out of memory",
        })
    }
}

impl Error for LinkStop {}

impl From<NoMemory> for LinkStop {
    ghost use Rattle.std.specs.Prelude.{◌≡◌};
    ghost use Rattle.net_link.specs.declared.link.LinkStop.TheVariants as stop;

    ghost from_gives = { λ _ e. e ≡ stop.NoMemory };

    fn from(_: NoMemory) -> Self {
        LinkStop::NoMemory
    }
}

/// Datagrams out and in, at one address. What a datagram meets on its way isn't known: one that was sent may be lost,
/// may come late or more than once.
pub trait Link: Drop {
    ghost use Rattle.net_link.specs.Datagrams.{LinkState};

    /// Its address, its turns, which rise by one at each `Heard` and stand still at 2^64 - 1, its faults, which never
    /// fall, and the datagrams that it received and sent, where it tells them.
    ghost state: { Self → LinkState };

    /// Sends a datagram.
    fn send(&mut self, to: Addr, octets: &[u8]) -> Result<(), LinkStop>
        ensures { Sends (state self.old) to octets.now result (state self.new) };

    /// Waits for a datagram, which then stands at the front of `into`, for a while.
    fn receive(&mut self, into: &mut [u8]) -> Result<Heard, Failed>
        requires { most_octets ≤ length into.old }
        ensures { Receives (state self.old) into.new result (state self.new) };

    /// Makes a link with the same address, which sends and receives by itself.
    fn split(&mut self) -> Result<Self, LinkStop>
        ensures new { IfOk result (λ link. IsNewAt (state self.old).address (state link)) }
        ensures ok { OnOk result (state self.new ≡ state self.old) }
        ensures stops { Stops Self (state self.old) result (state self.new) };
}
