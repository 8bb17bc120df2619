//! Tests of links by their public calls: over sockets of this machine, and in memory. They stand above `net_link`, so
//! that it is proved once.
#![tactic(auto)]

#[cfg(test)]
mod memory;
#[cfg(test)]
mod udp;
