// What makes links, and takes them back.
ghost use Rattle.std.specs.Prelude.{IfOk};
ghost use Rattle.net_link.specs.Datagrams.{IsNewAt};
ghost use Rattle.net_link.specs.Making.{Makes, TakesBack};

use crate::link::{Link, LinkStop};
use gw_base::Addr;

/// Makes the links of addresses. Whoever had one made, or split, gives it back, so that what all links of an address
/// did is told together.
pub trait Links {
    ghost use Rattle.net_link.specs.Making.{LinksState};

    type Link: Link;

    /// The faults of all links, and what those that were taken back did, by their addresses.
    ghost state: { Self → LinksState };

    /// Makes a link at an address.
    fn make(&mut self, at: Addr) -> Result<Self::Link, LinkStop>
        ensures new { IfOk result (λ link. IsNewAt at (Self.Link.state link)) }
        ensures made { Makes Self.Link (state self.old) at result (state self.new) };

    /// Takes a link back whose address was made. It takes no memory, and one that never failed adds no fault.
    fn back(&mut self, link: Self::Link)
        requires { (state self.old).IsMade (Self.Link.state link).address }
        ensures { TakesBack (state self.old) (Self.Link.state link) (state self.new) };
}
