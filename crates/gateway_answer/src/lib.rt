//! What a gateway answers to a datagram (3GPP TS 32.295, clauses 5.1.3 and 6.2), what its history files, and which
//! entries are fit to stand in that. No call here reads or writes a journal.
//!
//! The model is the history itself: a list of entries. The contract is that of `answer_by`: whatever tells it of a
//! history what `Observe` asks, it answers by the definition (`specs/Answer.antt`). A book is what calls it. `answer`,
//! `has_room`, `costs_of` and `filed` scan a whole history: they are for worlds that run, and for tests.
//!
//!     let prepared = prepare(octets);
//!     let decision = answer_by(&seen, from, prepared.case(), &mut scratch);
#![tactic(auto)]

mod answering;
mod case;
mod costs;
mod decision;
mod filing;
mod fit;
mod key;
pub mod laws;
mod listed;
mod listing;
mod observe;
mod plain;
mod preparing;
mod reserved;
mod wire_marks;

pub use answering::{answer_by, failure, failure_answer};
pub use case::Case;
pub use costs::costs_of;
pub use decision::Decision;
pub use filing::{FiledRecord, filed, record_tag};
pub use fit::is_act_fit;
pub use key::Key;
pub use listing::Scratch;
pub use observe::Observe;
pub use plain::{OwnedAnswer, answer, has_room};
pub use preparing::{Prepared, prepare};
