//! Tests of serving nodes and of worlds of gateways and nodes, by the public calls of `node_core` and `once_core`. They
//! stand above these, so that each of them is proved once, and apart from `trials`, which stands on the job. More of what
//! a node sends and makes of an answer is told by lines of `layer_runs`.
#![tactic(auto)]

#[cfg(test)]
mod calls;
#[cfg(test)]
mod node_steps;
#[cfg(test)]
mod nodes;
#[cfg(test)]
mod random_worlds;
#[cfg(test)]
mod world_stories;
#[cfg(test)]
mod world_worked;
#[cfg(test)]
mod worlds;
