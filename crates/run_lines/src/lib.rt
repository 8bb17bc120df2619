//! Texts in groups of lines, for the programs whose answers the gate compares with the file `stdout`.
//!
//! The standard input is a text about what follows, and then groups: a line `== NAME`, and lines up to the empty one in
//! front of the next name. A line is a form and its words. What it is answered may depend on the lines of its group
//! before it, and on nothing else.
//!
//!     tell_lines::<Scene, _>(&rt, "What areas answer to each line of the file stdin.")
#![tactic(auto)]

mod groups;
mod lines;
mod words;

pub use groups::{first_line, tell_groups};
pub use lines::{Answer, tell_lines};
pub use words::{NOTHING, bad, first_word, next, no_memory, number, there};
