//! One value that many passes take in turn, on threads. Turns come one after the other, in the order in which they were
//! asked for (a ticket lock).
//!
//! A value stands for a history (`Counted` of `gw_base`). What a turn owes for what it does to it is `Owes`, and what
//! it may add `Adds` (`gw_base/specs/Owes.antt`). Contracts see a pass as what it knows, `Knowledge`: the firm entries
//! that it has learnt of, and each turn that it took, with what it found, left and added. A value may come to a turn of
//! a pass only where it goes on from all of that (`IsLegal`, `specs/Knowing.antt`). `with` takes a turn (`Took`),
//! which finds what the pass added where it put it (`FoundInPlace`). `with_each` waits once and takes several such turns
//! (`TookEach`). `seen` tells a length without waiting (`Saw`), and `finish` hands the value back behind the turns of
//! all passes (`Ended`, `specs/Passes.antt`), with which pass added which entry (`specs/Placed.antt`).
//!
//!     let (cell, passes) = TurnCell::new(alloc, value, 2)?; // a pass for each of two threads
//!     let (answer, pass) = cell.with(rt, pass, turn);       // in a thread
//!     let pass = cell.with_each(rt, pass, turns, items, answers); // one turn for each item
//!     let (length, pass) = cell.seen(pass);
//!     let value = cell.finish(passes)?;                     // with both passes
//!
//! Nothing is said of progress: not that a turn comes, nor how long it takes.
#![tactic(auto)]

mod cell;
mod ending;
mod knowing;
mod making;
mod rule;
mod taking;
mod turn;

pub use cell::{Missing, Pass, TurnCell};
pub use knowing::{KeptTurn, Knowledge, SeatView, Stage, Standing};
pub use rule::{Begun, CellRule, Named, Origin};
pub use turn::{Turn, Turns};
