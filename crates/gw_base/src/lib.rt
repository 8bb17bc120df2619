//! The types that all crates of the gateway share, and the traits of the outside: an input, an
//! output, a clock, and what a fault of each looks like.
//!
//! The model is a gateway's history, a list of `HistoryEntry`: `specs/History.antt` says what it
//! tells of epochs, key states and held copies. The contract of `scan` is that each of its
//! functions is that definition; that of `Source`, `Sink` and `Clock`, that a fault comes only
//! where the count of faults rose.
//!
//!     let epoch = scan::epoch(&history, node);
//!     let state = scan::state(&history, PacketKey { node, epoch, number });
#![tactic(auto)]

mod act;
mod address;
mod buffer;
pub mod cause;
mod clock;
mod counted;
mod entry;
mod fault;
mod held;
mod history;
mod item;
mod key_state;
mod kind;
mod known;
mod memory_clock;
mod memory_sink;
mod memory_source;
mod moment;
mod number;
mod octets;
mod packet;
mod place;
pub mod scan;
mod short;
mod sink;
mod source;
mod starts;
mod tag;
pub mod text;
mod tick;
mod view;

pub use act::lists;
pub use address::{Absolute, Addr, GatewayId, NodeId};
pub use buffer::Buffer;
pub use clock::Clock;
pub use counted::{Counted, a_count_rose_or_stood};
pub use entry::{Act, Entry};
pub use fault::{Failed, Full, NoMemory};
pub use history::{Absolutes, Caller, HistoryAct, HistoryEntry, Opening, PacketKey};
pub use item::Item;
pub use key_state::KeyState;
pub use kind::{CdrKind, cdr_kind};
pub use memory_clock::MemoryClock;
pub use memory_sink::MemorySink;
pub use memory_source::MemorySource;
pub use moment::Moment;
pub use number::{nearest_is_the_one, nearest_keeps_apart, nearest_number};
pub use octets::Octets;
pub use packet::PacketId;
pub use place::Place;
pub use short::Short;
pub use sink::Sink;
pub use source::Source;
pub use tag::Tag;
