//! Tests of the upper crates by their public calls: the book of a gateway, CDR files and their writer, and of the job
//! of `feed` and `show` what `story_runs` can't show. A crate with tests is proved twice in the gate, so tests stand
//! here, above the crates, and are proved over their contracts alone. What the lower crates answer is lines of
//! `layer_runs` and `journal_runs`, and tests of nodes and worlds stand in `world_trials`.
#![tactic(auto)]

#[cfg(test)]
mod book;
#[cfg(test)]
mod book_drill;
#[cfg(test)]
mod book_items;
#[cfg(test)]
mod book_opening;
#[cfg(test)]
mod book_plain;
#[cfg(test)]
mod book_taking;
#[cfg(test)]
mod book_worked;
#[cfg(test)]
mod job;
#[cfg(test)]
mod job_datagrams;
#[cfg(test)]
mod meeting;
#[cfg(test)]
mod serve;
#[cfg(test)]
mod writer;
#[cfg(test)]
mod writer_sink;
