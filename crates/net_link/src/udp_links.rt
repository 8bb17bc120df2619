// What makes links over UDP.
ghost use Rattle.std.specs.Prelude.{◌≡◌, [], IfOk};
ghost use Rattle.net_link.specs.Datagrams.{IsNewAt};
ghost use Rattle.net_link.specs.Making.{Makes, TakesBack};
ghost use Rattle.net_link.specs.Udp.{told_by};

use crate::link::LinkStop;
use crate::links::Links;
use crate::turns::{Tally, add};
use crate::udp_link::UdpLink;
use gw_base::Addr;
use std::alloc::Global;
use std::marker::Model;
use std::net::Net;

/// What makes links over UDP and IPv4. A link at an address that can't be bound, or is bound already, fails at each
/// call.
#[derive(Drop)]
pub struct UdpLinks<'a, R: Net> {
    net: &'a R,
    tallies: Vec<Tally>,
    faults: u64,
}

impl<'a, R: Net> Model for UdpLinks<'a, R> {
    ghost use Rattle.net_link.specs.Udp.{UdpNet};

    ghost Value = { UdpNet };

    ghost view = { λ n. record { tallies = n.tallies.items; faults = n.faults } };
}

impl<'a, R: Net> UdpLinks<'a, R> {
    /// What makes links by this network. No link was made yet.
    pub fn new(alloc: Global, net: &'a R) -> Self
        ensures { result ≡ record { tallies = []; faults = 0 } }
    {
        UdpLinks {
            net,
            tallies: Vec::new(alloc),
            faults: 0,
        }
    }
}

impl<R: Net> Links for UdpLinks<'_, R> {
    type Link = UdpLink;

    ghost state = { told_by };

    fn make(&mut self, at: Addr) -> Result<UdpLink, LinkStop>
        ensures new { IfOk result (λ link. IsNewAt at link) }
        ensures made { Makes UdpLink (told_by self.old) at result (told_by self.new) }
    {
        if self.tallies.push(Tally { at, turns: 0 }).is_err() {
            return Err(LinkStop::NoMemory);
        }
        Ok(UdpLink::at(self.net, at))
    }

    fn back(&mut self, link: UdpLink)
        requires { (told_by self.old).IsMade link.address }
        ensures { TakesBack (told_by self.old) link (told_by self.new) }
    {
        self.faults = self.faults.saturating_add(link.faults);
        add(&mut self.tallies, link.address, link.turns);
    }
}
