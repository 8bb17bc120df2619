ghost use Rattle.std.specs.Prelude.{◌≡◌, ◌≤◌, ◌<◌, ◌+◌, ◌-◌, ◌^◌, ◌++◌, ◌∷◌, [], ◌*◌, ℕ, ◌↔◌, length, OnOk, OnErr, Err};
ghost use Rattle.std.specs.List.{flat_map};
ghost use Rattle.byteorder.specs.Endian.{big_bytes};
ghost use Rattle.gw_base.specs.Entry.{act_view, entry_view};
ghost use Rattle.entry_codec.specs.Appending.{with_octets};
ghost use Rattle.entry_codec.specs.Spelling.{HasSpelling, body, cost_of, entry_length, kind_of, spelling};

use crate::fits::entry_fits;
use crate::kind::Kind;
use byteorder::{BigEndian, ByteOrder};
use gw_base::{Absolute, Act, Buffer, Caller, Entry, Full, NodeId};

/// The octets of an entry before its body: its length, its kind, its moment, the session and the
/// serial.
const HEAD: u64 = 25;

/// The octets of a batch before its content, which one entry alone bears whole.
const BATCH_HEAD: u64 = 5;

fn put_octet(into: &mut Buffer, octet: u8)
    requires { length into.old.octets + 1 ≤ into.old.capacity }
    ensures octet { into.new ≡ with_octets into.old (octet ∷ []) }
    ensures number { into.new ≡ with_octets into.old (big_bytes 1 octet) }
{
    into.append(&[octet]);
}

fn put_u16(into: &mut Buffer, number: u16)
    requires { length into.old.octets + 2 ≤ into.old.capacity }
    ensures { into.new ≡ with_octets into.old (big_bytes 2 number) }
{
    let mut field = [0; 2];
    BigEndian::write_u16(&mut field, number);
    into.append(&field);
}

fn put_u32(into: &mut Buffer, number: u32)
    requires { length into.old.octets + 4 ≤ into.old.capacity }
    ensures { into.new ≡ with_octets into.old (big_bytes 4 number) }
{
    let mut field = [0; 4];
    BigEndian::write_u32(&mut field, number);
    into.append(&field);
}

fn put_u64(into: &mut Buffer, number: u64)
    requires { length into.old.octets + 8 ≤ into.old.capacity }
    ensures { into.new ≡ with_octets into.old (big_bytes 8 number) }
{
    let mut field = [0; 8];
    BigEndian::write_u64(&mut field, number);
    into.append(&field);
}

fn put_numbers(into: &mut Buffer, numbers: &[Absolute])
    requires { length into.old.octets + 8 * length numbers.now ≤ into.old.capacity }
    ensures { into.new ≡ with_octets into.old (flat_map (big_bytes 8) numbers.now) }
{
    for number in numbers {
        put_u64(into, *number);
    }
}

impl Kind {
    /// The kind of what an entry records.
    fn of_act(act: &Act<'_>) -> Kind
        ensures { result ≡ kind_of (act_view act.now) }
    {
        match act {
            Act::Start => Kind::Start,
            Act::Path { .. } => Kind::Path,
            Act::File { .. } => Kind::File,
            Act::Hold { .. } => Kind::Hold,
            Act::Seal { .. } => Kind::Seal,
            Act::Release { .. } => Kind::Release,
            Act::Cancel { .. } => Kind::Cancel,
            Act::Tick => Kind::Tick,
            Act::Close => Kind::Close,
        }
    }
}

/// How many octets follow the head of an entry.
#[tactic(auto, using(crate::proofs::Fields::length_numbers))]
fn body_length(act: &Act<'_>) -> u64
    ensures value { result ≡ length (body (act_view act.now)) }
    ensures within { result < 2 ^ 64 - 30 }
{
    match act {
        Act::Start | Act::Tick | Act::Close => 0,
        Act::Path { .. } => 7,
        Act::File { packet, .. } | Act::Hold { packet, .. } => 12 + packet.len() as u64,
        Act::Seal { .. } => 12,
        Act::Release { numbers, .. } | Act::Cancel { numbers, .. } => {
            8 + 8 * numbers.len() as u64
        }
    }
}

/// How many octets the whole entry has.
fn length_of(entry: &Entry<'_>) -> u64
    ensures value { result ≡ entry_length (entry_view entry.now) }
    ensures within { result < 2 ^ 64 - 5 }
{
    HEAD + body_length(&entry.act)
}

/// What an entry costs of a journal, in octets: those of its own, and the five before the content
/// of a batch.
pub fn cost(entry: &Entry<'_>) -> u64
    ensures { result ≡ cost_of (entry_view entry.now) }
{
    length_of(entry) + BATCH_HEAD
}

fn put_key(into: &mut Buffer, node: NodeId, number: Absolute)
    requires { length into.old.octets + 12 ≤ into.old.capacity }
    ensures { into.new ≡ with_octets into.old (big_bytes 4 node.0 ++ big_bytes 8 number) }
{
    put_u32(into, node.0);
    put_u64(into, number);
}

fn put_path(into: &mut Buffer, node: NodeId, port: u16, counter: u8)
    requires { length into.old.octets + 7 ≤ into.old.capacity }
    ensures { into.new ≡ with_octets into.old (big_bytes 4 node.0 ++ (big_bytes 2 port ++ big_bytes 1 counter)) }
{
    put_u32(into, node.0);
    put_u16(into, port);
    put_octet(into, counter);
}

fn put_packet(into: &mut Buffer, node: NodeId, number: Absolute, packet: &[u8])
    requires { length into.old.octets + (12 + length packet.now) ≤ into.old.capacity }
    ensures { into.new ≡ with_octets into.old (big_bytes 4 node.0 ++ (big_bytes 8 number ++ packet.now)) }
{
    put_key(into, node, number);
    into.append(packet);
}

fn put_list(into: &mut Buffer, node: NodeId, numbers: &[Absolute])
    requires few { length numbers.now < 2 ^ 32 }
    requires room { length into.old.octets + (8 + 8 * length numbers.now) ≤ into.old.capacity }
    ensures { into.new ≡ with_octets into.old (big_bytes 4 node.0 ++ (big_bytes 4 (length numbers.now) ++
        flat_map (big_bytes 8) numbers.now)) }
{
    put_u32(into, node.0);
    put_u32(into, numbers.len() as u32);
    put_numbers(into, numbers);
}

#[tactic(auto, using(crate::proofs::Fields::length_numbers))]
fn put_body(into: &mut Buffer, act: &Act<'_>)
    requires short { length (body (act_view act.now)) < 2 ^ 32 }
    requires room { length into.old.octets + length (body (act_view act.now)) ≤ into.old.capacity }
    ensures { into.new ≡ with_octets into.old (body (act_view act.now)) }
{
    match *act {
        Act::Start | Act::Tick | Act::Close => {}
        Act::Path {
            node,
            port,
            counter,
        } => put_path(into, node, port, counter),
        Act::File {
            node,
            number,
            packet,
        }
        | Act::Hold {
            node,
            number,
            packet,
        } => put_packet(into, node, number, packet),
        Act::Seal { node, number } => put_key(into, node, number),
        Act::Release { node, numbers } | Act::Cancel { node, numbers } => {
            put_list(into, node, numbers);
        }
    }
}

fn put_head(into: &mut Buffer, whole: u32, code: u8, seconds: u64, caller: Caller)
    requires { length into.old.octets + 25 ≤ into.old.capacity }
    ensures { into.new ≡ with_octets into.old (big_bytes 4 whole ++ (code ∷ (big_bytes 8 seconds ++
        (big_bytes 4 caller.session ++ big_bytes 8 caller.serial)))) }
{
    put_u32(into, whole);
    put_octet(into, code);
    put_u64(into, seconds);
    put_u32(into, caller.session);
    put_u64(into, caller.serial);
}

/// Appends the octets of an entry. At `Full` the buffer is as before, and has only `free` octets free.
pub fn write(entry: &Entry<'_>, into: &mut Buffer) -> Result<(), Full>
    requires { entry_length (entry_view entry.now) < 2 ^ 32 }
    ensures written { OnOk result (into.new ≡
        with_octets into.old (spelling (entry_view entry.now))) }
    ensures fits { HasSpelling (entry_view entry.now) }
    ensures unchanged { OnErr result (into.new ≡ into.old) }
    ensures full { (free : ℕ) → (result ≡ Err (record { free = free })) ↔
        ((free + length into.old.octets ≡ into.old.capacity) × (free < entry_length (entry_view entry.now))) }
{
    entry_fits(entry);
    let free = into.free();
    let whole = length_of(entry);
    if (free as u64) < whole {
        return Err(Full { free });
    }
    let code = Kind::of_act(&entry.act).code();
    let seconds = entry.moment.seconds();
    put_head(into, whole as u32, code, seconds, entry.caller);
    put_body(into, &entry.act);
    Ok(())
}
