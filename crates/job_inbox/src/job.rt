// A datagram that a session is to answer.
ghost use Rattle.std.specs.Prelude.{◌≡◌, ◌<◌, ◌%◌};

use gw_base::{Addr, Moment, NodeId, Octets};

/// A datagram that was received: from where, its octets, when, and the how many-th it was, from 1.
#[derive(Drop)]
pub struct Job {
    pub from: Addr,
    pub octets: Octets,
    pub moment: Moment,
    pub serial: u64,
}

/// The session, of so many, that has the jobs of a node: the node's address modulo their number.
pub fn route(node: NodeId, workers: u32) -> u32
    requires { 0 < workers }
    ensures session { result ≡ node.0 % workers }
    ensures below { result < workers }
{
    node.0 % workers
}
