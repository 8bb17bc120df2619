//! Rules that say which stream a record's CDR file belongs to; and the words of a line, with the
//! numbers and octets that words say, which rules and scripts are written in.
//!
//! The model is the list of rules, `specs/Rules.antt`. The contract of `stream` is that the first
//! rule that matches decides, and that of `add` that it takes just the lines that are rules, up to
//! 256.
//!
//!     rules.add("rule A0 1 3")?;
//!     let stream = rules.stream(Some(tag), 1);
#![tactic(auto)]

mod hexadecimal;
mod rule;
mod rules;
mod text;

pub use hexadecimal::{decoded, octets};
pub use rule::Rule;
pub use rules::{RuleFault, Rules};
pub use text::{cut, number, split_words, words};
