//! Tests of the real outside: each adapter on a real thing that works, and on one that fails. A crate with tests is
//! proved twice in the gate, so they stand here and are proved over the contracts of `cgf_edge` alone.
#![tactic(auto)]

#[cfg(test)]
mod area;
#[cfg(test)]
mod clock;
#[cfg(test)]
mod connection;
#[cfg(test)]
mod disk;
#[cfg(test)]
mod shelf;
#[cfg(test)]
mod streams;
#[cfg(test)]
mod trouble;
