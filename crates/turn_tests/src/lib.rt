//! Tests of turns on threads, by the public calls of `turn_cell` and of `gateway_book`. A crate with tests is proved
//! twice in the gate, so they stand here and are proved over their contracts alone.
#![tactic(auto)]

#[cfg(test)]
mod books;
#[cfg(test)]
mod marks;
#[cfg(test)]
mod threads;
