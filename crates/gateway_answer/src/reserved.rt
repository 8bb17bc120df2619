// A list for which memory is reserved.
ghost use Rattle.std.specs.Prelude.{◌≡◌, ◌≤◌, ◌<◌, ◌+◌, ◌++◌, [], ◌∷◌, length, vec_capacity, IfOk};

use gw_base::NoMemory;
use std::alloc::Global;

/// The most numbers that an element of a message lists: two octets each of the 65,535 that it may have.
const MOST_NUMBERS: usize = 32_767;

/// A list with room for as much as an element of a message lists. It takes no memory once it is made.
#[derive(Drop)]
pub(crate) struct Reserved<T: Copy + Drop> {
    pub(crate) items: Vec<T>,
    ghost room: { 32767 ≤ vec_capacity items },
}

impl<T: Copy + Drop> Reserved<T> {
    /// An empty list, which takes the memory for all that it will hold.
    pub(crate) fn new(alloc: Global) -> Result<Reserved<T>, NoMemory>
        ensures { IfOk result (λ list. list.items.items ≡ []) }
    {
        let items = Vec::with_capacity(alloc, MOST_NUMBERS)?;
        Ok(Reserved { items })
    }

    /// Takes everything out.
    pub(crate) fn clear(&mut self)
        ensures items { self.new.items.items ≡ [] }
        ensures count { length self.new.items.items ≡ 0 }
    {
        self.items.clear();
    }

    /// Adds a value behind the others.
    pub(crate) fn push(&mut self, value: T)
        requires { length self.old.items.items < 32767 }
        ensures items { self.new.items.items ≡ self.old.items.items ++ value ∷ [] }
        ensures count { length self.new.items.items ≡ length self.old.items.items + 1 }
    {
        match self.items.push(value) {
            Ok(()) => {}
            Err(_) => unreachable!(),
        }
    }
}
