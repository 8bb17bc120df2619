//! Tests of inboxes by the public calls of `job_inbox`. A crate with tests is proved twice in the gate, so it stands
//! here and is proved over its contracts alone.
#![tactic(auto)]

#[cfg(test)]
mod room;
#[cfg(test)]
mod threads;
