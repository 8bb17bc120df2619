//! Gateways and serving nodes with a network between them that may lose, repeat and delay every
//! message, and whether each record is filed once (3GPP TS 32.295, clause 5.2).
//!
//! The model is `World` of `specs/World.antt`: what every gateway and every node holds, and all
//! messages ever sent. `specs/Turn.antt` says what an event makes of it, and `specs/Once.antt` what
//! filing once means. The contract is that of the laws, which hold for all settings and whatever
//! happens: `world_laws` of worlds with the octets of their messages, first of all that each record is
//! filed once; `once_laws` of what messages mean; and `shown_laws` of how a world is what happens where
//! messages are what they mean. `World` plays events, each as a turn of the definition.
//!
//!     let mut world = World::new(alloc, 2, 1)?;
//!     let stepped = world.step(alloc, &Event::Tick { node: 1 });
#![tactic(auto)]

mod addresses;
mod due;
mod event;
mod expired;
mod gateway;
mod gateway_turn;
mod message;
mod node_turn;
pub mod once_laws;
pub mod reading_laws;
mod refusing;
mod room;
pub mod shown_laws;
pub mod told_laws;
mod world;
pub mod world_laws;

pub use addresses::{addresses_of, gateway_address, node_address, node_id, port_at};
pub use due::{joined, parted};
pub use event::{Event, Stepped, WorldKind};
pub use expired::is_expired_at_node;
pub use gateway::KeptGateway;
pub use gateway_turn::redirection;
pub use message::{Message, Waiting};
pub use node_turn::KeptNode;
pub use world::World;
