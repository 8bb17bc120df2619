use gw_base::{Addr, Octets};

/// A datagram with both of its ends: the one that has it, and the other one, which sent it or gets it.
#[derive(Drop)]
pub struct Post {
    pub at: Addr,
    pub peer: Addr,
    pub octets: Octets,
}
