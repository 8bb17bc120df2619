//! Scripts: texts whose lines say what befalls a gateway, or a network of gateways and nodes, read
//! whole or refused at the first faulty line; the script that a number gives; and the text of a
//! script.
//!
//! The model is the list of lines, `specs/Script.antt`; `specs/Saying.antt` says what a line says.
//! The contract of `read` is that it gives all lines of the text, or the first that is refused, by
//! the first test that it fails.
//!
//!     let script = read(alloc, text, ScriptKind::Replay)?;
//!     let first = script.line(0);
#![tactic(auto)]

mod arming;
mod extent;
mod fault;
mod keyword;
mod kind;
pub mod laws;
mod line;
mod mode;
mod printing;
mod progress;
mod records;
mod samples;
mod saying;
mod script;
mod text;
mod values;

pub use fault::{InputFault, InputKind};
pub use kind::ScriptKind;
pub use line::Line;
pub use mode::Mode;
pub use printing::print;
pub use records::Records;
pub use samples::sample;
pub use script::{Script, read};
pub use text::{TextLine, first_line, is_blank};
pub use values::{address, ipv4, number_between};
