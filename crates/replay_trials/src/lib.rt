//! Tests of replays by the public calls of `replay_world`: what a stop or a failure at each call of a device leads to,
//! and what a replay hands out. Stories that no more than print are those of `story_runs`. A crate with tests is proved
//! twice in the gate, so they stand here, above these crates, and are proved over their contracts alone; a crate beside
//! `trials`, so that neither is the longest.
#![tactic(auto)]

#[cfg(test)]
mod devices;
#[cfg(test)]
mod each_call;
#[cfg(test)]
mod full_batches;
#[cfg(test)]
mod handing_out;
#[cfg(test)]
mod told;
#[cfg(test)]
mod worked;
