//! Tests of sessions by the public calls of `node_session`, over a book on an area in memory. A crate with tests is
//! proved twice in the gate, so they stand here and are proved over their contracts alone.
#![tactic(auto)]

#[cfg(test)]
mod answers;
#[cfg(test)]
mod commits;
#[cfg(test)]
mod desk;
#[cfg(test)]
mod ends;
#[cfg(test)]
mod receives;
