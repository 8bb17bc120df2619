ghost use Rattle.std.specs.Prelude.{◌≡◌, ◌≤◌, ◌+◌, ◌-◌, ◌++◌, [], length, IfOk};

use crate::fault::NoMemory;
use std::alloc::Global;
use std::marker::Model;

/// A list of octets with a fixed capacity: what it holds grows up to that and takes no memory. Memory that it has never
/// held octets in isn't touched.
#[derive(Drop)]
pub struct Buffer {
    octets: Vec<u8>,
    capacity: usize,
}

impl Model for Buffer {
    ghost use Rattle.std.specs.Prelude.{◌≤◌, length, vec_capacity};
    ghost use Rattle.gw_base.specs.Buffer.{Buffered};

    ghost Value = { Buffered };

    ghost view = { λ b. record { octets = b.octets.items; capacity = b.capacity } };

    ghost invariant = { λ b. (length b.octets.items ≤ b.capacity) × (b.capacity ≤ vec_capacity b.octets) };
}

impl Buffer {
    /// An empty buffer with room for `capacity` octets.
    pub fn with(alloc: Global, capacity: usize) -> Result<Buffer, NoMemory>
        ensures { IfOk result (λ buffer. buffer ≡ record { octets = []; capacity = capacity }) }
    {
        Ok(Buffer {
            octets: Vec::with_capacity(alloc, capacity)?,
            capacity,
        })
    }

    /// The octets that it holds, in order.
    pub fn octets(&self) -> &[u8]
        ensures { result.now ≡ self.now.octets }
    {
        &self.octets
    }

    /// How many octets it has room for.
    pub fn free(&self) -> usize
        ensures { result + length self.now.octets ≡ self.now.capacity }
    {
        self.capacity - self.octets.len()
    }

    /// Appends octets for which there is room.
    pub fn append(&mut self, from: &[u8])
        requires { length self.old.octets + length from.now ≤ self.old.capacity }
        ensures { self.new ≡ record { octets = self.old.octets ++ from.now; capacity = self.old.capacity } }
    {
        match self.octets.extend_from_slice(from) {
            Ok(()) => {}
            Err(_) => unreachable!(),
        }
    }

    /// Empties the buffer.
    pub fn clear(&mut self)
        ensures { self.new ≡ record { octets = []; capacity = self.old.capacity } }
    {
        self.octets.clear();
    }
}
