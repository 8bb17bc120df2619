//! A serving node over two links: it submits packets, ticks and hears, until all its packets are done or its turns are
//! taken.
//!
//! The model is what its turns heard (`specs/Running.antt`): all that the node is and sends follows from that. The
//! contract is that the node is so, and that its links carried what it heard and sent, port by port.
//!
//!     let (end, linked) = linked.run(alloc, Work { packets, turns }, place, &watch);
//!
//! Nothing is said of when a turn ends, or that anything comes.
#![tactic(auto)]

mod hearing;
mod laws;
mod linked;
mod packets;
mod running;
mod watch;

pub use laws::{a_node_that_ran_keeps_its_packets, a_node_that_ran_was_called};
pub use linked::{LinkedNode, NodeEnd, Work};
pub use packets::packet;
pub use watch::{NoWatch, NodeWatch};
