// Who takes part in a loop.
use area_disk::QuietArea;
use cdr_shelf::QuietShelf;
use net_link::Link;
use node_run::{LinkedNode, NodeEnd};
use session_run::{Gateway, Stop};

/// One who takes part in a loop, before it runs and after. The files of a gateway go to a shelf in memory that nobody
/// looks at.
#[derive(Drop)]
pub(crate) enum Seat<L: Link> {
    Node(LinkedNode<L>),
    Gateway(Gateway<QuietArea, QuietShelf, L>),
    RanNode(NodeEnd, LinkedNode<L>),
    RanGateway(Option<Stop>, Gateway<QuietArea, QuietShelf, L>),
    Empty,
}
