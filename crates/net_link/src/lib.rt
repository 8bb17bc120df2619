//! Links: datagrams in and out of one address, and what makes links and takes them back.
//!
//! The model is `LinkState` of `specs/Datagrams.antt`: a link's address, its turns, its faults, and the datagrams
//! that it received and sent, where it tells them. The contract of each call is a step of `specs/Steps.antt`.
//!
//!     match link.receive(&mut buffer)? {
//!         Heard::Datagram { from, length } => link.send(from, &buffer[..length])?,
//!         Heard::Quiet => {}
//!     }
#![tactic(auto)]

mod link;
mod links;
mod memory_link;
mod memory_links;
mod post;
mod turns;
mod udp_link;
mod udp_links;

pub use link::{Heard, Link, LinkStop};
pub use links::Links;
pub use memory_link::MemoryLink;
pub use memory_links::MemoryLinks;
pub use post::Post;
pub use turns::Tally;
pub use udp_link::UdpLink;
pub use udp_links::UdpLinks;
