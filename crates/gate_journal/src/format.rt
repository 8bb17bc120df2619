// The journal's format.
ghost use Rattle.std.specs.Prelude.{vec_capacity, ◌≡◌, ◌+◌, ◌≤◌, ◌++◌, length, take, drop};
ghost use Rattle.gate_journal.specs.Format.{header, frame, longest_batch};

use byteorder::{BigEndian, ByteOrder};

/// What an open gate holds. A gate that holds any other octet is closed.
pub const OPEN: u8 = 0xA5;

/// What a closed gate holds that the journal writes.
pub const CLOSED: u8 = 0;

/// The most octets of a batch.
pub const LONGEST_BATCH: usize = 1_048_576;

/// Octet 0 of a header, which is written last.
pub const FIRST: u8 = b'C';

/// The header of an area: the format's name, the area's length, the gateway's address, the generation, and eight
/// octets 0.
pub fn header_of(length: u64, address: u32, generation: u32) -> [u8; 32]
    ensures { result ≡ header length address generation }
{
    let mut header = [0; 32];
    header[..8].copy_from_slice(b"CGFJRNL1");
    BigEndian::write_u64(&mut header[8..], length);
    BigEndian::write_u32(&mut header[16..], address);
    BigEndian::write_u32(&mut header[20..], generation);
    header
}

// Adds octets for which there is memory.
fn extend(buffer: &mut Vec<u8>, octets: &[u8])
    requires { length buffer.old.items + length octets.now ≤ vec_capacity buffer.old }
    ensures items { buffer.new.items ≡ buffer.old.items ++ octets.now }
    ensures capacity { vec_capacity buffer.old ≤ vec_capacity buffer.new }
{
    match buffer.extend_from_slice(octets) {
        Ok(()) => {}
        Err(_) => unreachable!(),
    }
}

/// Puts a batch and its frame together in a buffer that has memory for them: its length, its content, and a closed
/// gate behind it.
#[tactic(auto, unfolding(crate::specs::Format::frame))]
pub fn fill(buffer: &mut Vec<u8>, batch: &[u8])
    requires room { length batch.now + 5 ≤ vec_capacity buffer.old }
    requires short { length batch.now ≤ longest_batch }
    ensures framed { buffer.new.items ≡ frame batch.now }
    ensures held { take (length batch.now) (drop 4 buffer.new.items) ≡ batch.now }
    ensures size { length buffer.new.items ≡ length batch.now + 5 }
    ensures capacity { vec_capacity buffer.old ≤ vec_capacity buffer.new }
{
    let mut field = [0; 4];
    BigEndian::write_u32(&mut field, batch.len() as u32);
    buffer.clear();
    extend(buffer, &field);
    extend(buffer, batch);
    extend(buffer, &[CLOSED]);
}
