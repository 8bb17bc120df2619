//! A whole charging gateway: what it answers to a datagram, and the history that it keeps on a
//! journal (3GPP TS 32.295, clauses 5.1.3 and 6.2).
//!
//! The model is `BookValue` of `gateway_answer/specs/Value.antt`: the entries that are firm, those that
//! wait, and whether the journal is broken. The contract is that of `Book`: it opens with the history
//! that its area stands for, answers each datagram by the definition (`gateway_answer/specs/Answer.antt`),
//! records only what is fit, and its commit makes that firm.
//!
//!     let mut book = Book::open(alloc, area, setup)?;
//!     let outcome = book.take(from, &prepare(octets), now, Caller::NONE);
//!     let committed = book.commit();
#![tactic(auto)]

mod adding;
mod armed;
mod book;
mod commit;
mod counted;
mod cursor;
mod drill;
mod entry_items;
mod gathering;
mod held_copies;
mod items;
mod judge;
pub mod laws;
mod lookups;
mod marking;
mod observed;
mod opening;
mod outcome;
mod reading;
mod readying;
mod records;
mod seen;
mod taking;

pub use book::Book;
pub use gateway_answer::{Key, Prepared, failure, prepare};
pub use outcome::{
    BookFault, Broken, Counts, GatewayCounts, ItemsFault, Marked, Outcome, Receipt, Settled, Setup,
};
pub use records::{count_records, record_count};
