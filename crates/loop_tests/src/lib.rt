//! Tests of loops: over sockets of this machine, over a network in memory that loses, repeats and delays datagrams, and
//! of the audit by itself. They stand above `loop_run`, so that it is proved once.
#![tactic(auto)]

#[cfg(test)]
mod air;
#[cfg(test)]
mod audits;
#[cfg(test)]
mod sockets;
