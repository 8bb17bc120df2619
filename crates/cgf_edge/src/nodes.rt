//! How far the nodes of a loop are.
use std::alloc::{AllocError, Global};
use std::sync::atomic::{AtomicU64, Ordering};

/// What a node has told: how many of its packets are done, and 1 more than the place of the gateway that is its
/// favourite, counted from 0. A node that has told nothing has 0 there.
#[derive(Drop)]
struct Told {
    done: AtomicU64,
    favourite: AtomicU64,
}

impl Told {
    fn nothing() -> Told {
        Told {
            done: AtomicU64::new(0),
            favourite: AtomicU64::new(0),
        }
    }
}

/// What the nodes of a loop have told, of which there are 8 at most.
#[derive(Drop)]
pub(crate) struct Nodes {
    told: [Told; 8],
}

impl Nodes {
    pub(crate) fn new() -> Nodes {
        Nodes {
            told: [
                Told::nothing(),
                Told::nothing(),
                Told::nothing(),
                Told::nothing(),
                Told::nothing(),
                Told::nothing(),
                Told::nothing(),
                Told::nothing(),
            ],
        }
    }

    /// The node in this place has so many packets done, and this gateway is its favourite. It tells whether another one
    /// was, or none.
    pub(crate) fn turned(&self, place: usize, done: u64, favourite: u8) -> bool {
        let Some(node) = self.told.get(place) else {
            return false;
        };
        node.done.store(done, Ordering::SeqCst);
        let favourite = u64::from(favourite) + 1;
        node.favourite.swap(favourite, Ordering::SeqCst) != favourite
    }

    /// How many packets of all nodes are done.
    pub(crate) fn done(&self) -> u64 {
        let mut all = 0u64;
        for node in &self.told {
            all = all.saturating_add(node.done.load(Ordering::SeqCst));
        }
        all
    }

    /// The line that says it of so many packets, with the favourite of each node that has told one, counted from 1.
    pub(crate) fn line(&self, alloc: Global, done: u64, all: u64) -> Result<String, AllocError> {
        let mut line = format!(in alloc; "\rcgf: {done:4} of {all} packets done, favourites")?;
        for node in &self.told {
            let favourite = node.favourite.load(Ordering::SeqCst);
            if favourite > 0 {
                let favourite = format!(in alloc; " {favourite}")?;
                line.push_str(favourite.as_str())?;
            }
        }
        Ok(line)
    }
}
