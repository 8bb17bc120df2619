ghost use Rattle.std.specs.Prelude.{◌≡◌, ◌≤◌, ◌*◌, ◌^◌, ◌<◌, length, IsTrue, IfOk};
ghost use Rattle.gw_base.specs.Entry.{act_view, entry_view};
ghost use Rattle.entry_codec.specs.Reading.{Gives, act_at, at_most, behind, entry_at, exactly, fits_length, is_length, key_at, kind_at, length_at, list_at, moment_at, number_at, numbers_at, octets_at, packet_at, path_at};

use crate::kind::Kind;
use byteorder::{BigEndian, ByteOrder};
use gw_base::{Act, Caller, Entry, Moment, NodeId};

/// The octets of the last moment, the last second of the year 2099.
const LAST_MOMENT: [u8; 8] = [0, 0, 0, 0, 0xF4, 0x86, 0x56, 0xFF];

/// What is read with the octets behind it, or the octets from the first wrong one on.
pub(crate) type Reading<'a, T> = Result<(T, &'a [u8]), &'a [u8]>;

/// No octets are left where one is wanted.
fn end(octets: &[u8]) -> &[u8]
    ensures { length result.now ≡ 0 }
{
    &octets[octets.len()..]
}

fn octets_of(octets: &[u8], count: usize) -> Reading<'_, &[u8]>
    ensures { Gives (λ x. (x.0.now, x.1.now)) result (octets_at count octets.now) }
{
    if octets.len() < count {
        return Err(end(octets));
    }
    Ok(octets.split_at(count))
}

fn octet_of(octets: &[u8]) -> Reading<'_, u8>
    ensures { Gives (λ x. (x.0, x.1.now)) result (number_at 1 octets.now) }
{
    if octets.is_empty() {
        return Err(octets);
    }
    Ok((octets[0], &octets[1..]))
}

fn u16_of(octets: &[u8]) -> Reading<'_, u16>
    ensures { Gives (λ x. (x.0, x.1.now)) result (number_at 2 octets.now) }
{
    if octets.len() < 2 {
        return Err(end(octets));
    }
    Ok((BigEndian::read_u16(octets), &octets[2..]))
}

fn u32_of(octets: &[u8]) -> Reading<'_, u32>
    ensures reading { Gives (λ x. (x.0, x.1.now)) result (number_at 4 octets.now) }
    ensures rest { IfOk result (λ x. length x.1.now ≤ length octets.now) }
{
    if octets.len() < 4 {
        return Err(end(octets));
    }
    Ok((BigEndian::read_u32(octets), &octets[4..]))
}

fn u64_of(octets: &[u8]) -> Reading<'_, u64>
    ensures reading { Gives (λ x. (x.0, x.1.now)) result (number_at 8 octets.now) }
    ensures rest { IfOk result (λ x. length x.1.now ≤ length octets.now) }
{
    if octets.len() < 8 {
        return Err(end(octets));
    }
    Ok((BigEndian::read_u64(octets), &octets[8..]))
}

/// Reads so many numbers into the front of `into`, which it lends.
fn numbers_of<'a>(octets: &'a [u8], count: usize, into: &'a mut [u64]) -> Reading<'a, &'a [u64]>
    requires { length octets.now ≤ 8 * length into.old }
    ensures { Gives (λ x. (x.0.now, x.1.now)) result (numbers_at count octets.now) }
{
    if octets.len() / 8 < count {
        return Err(end(octets));
    }
    let (front, rest) = octets.split_at(8 * count);
    let numbers = &mut into[..count];
    BigEndian::read_u64_into(front, numbers);
    Ok((numbers, rest))
}

/// The octets behind these ones, which come first.
fn exactly<'a>(wanted: &[u8], octets: &'a [u8]) -> Result<&'a [u8], &'a [u8]>
    ensures { Gives (λ rest. rest.now) result (exactly wanted.now octets.now) }
{
    let mut rest = octets;
    for want in wanted {
        if rest.is_empty() {
            return Err(rest);
        }
        if rest[0] != *want {
            return Err(rest);
        }
        rest = &rest[1..];
    }
    Ok(rest)
}

/// The octets behind so many.
fn behind(octets: &[u8], count: usize) -> Result<&[u8], &[u8]>
    ensures reading { Gives (λ rest. rest.now) result (behind count octets.now) }
    ensures rest { IfOk result (λ rest. length rest.now ≤ length octets.now) }
{
    if octets.len() < count {
        return Err(end(octets));
    }
    Ok(&octets[count..])
}

/// The octets behind a number that is at most the one with these octets.
fn at_most<'a>(bound: &[u8], octets: &'a [u8]) -> Result<&'a [u8], &'a [u8]>
    ensures reading { Gives (λ rest. rest.now) result (at_most bound.now octets.now) }
    ensures rest { IfOk result (λ rest. length rest.now ≤ length octets.now) }
{
    let mut rest = octets;
    for (i, most) in bound.iter().enumerate() {
        if rest.is_empty() {
            return Err(rest);
        }
        if rest[0] > *most {
            return Err(rest);
        }
        if rest[0] < *most {
            return behind(&rest[1..], bound.len() - i - 1);
        }
        rest = &rest[1..];
    }
    Ok(rest)
}

#[tactic(auto, unfolding(crate::specs::Reading::moment_at))]
fn seconds_of(octets: &[u8]) -> Reading<'_, u64>
    ensures reading { Gives (λ x. (x.0, x.1.now)) result (moment_at octets.now) }
    ensures rest { IfOk result (λ x. length x.1.now ≤ length octets.now) }
    ensures within { IfOk result (λ x. x.0 ≤ 4102444799) }
{
    let rest = at_most(&LAST_MOMENT, octets)?;
    if octets.len() < 8 {
        return Err(end(octets));
    }
    Ok((BigEndian::read_u64(octets), rest))
}

fn is_length(length: usize) -> bool
    ensures { result ≡ is_length length }
{
    matches!(length, 25 | 32 | 33 | 37..)
}

fn length_of(octets: &[u8]) -> Reading<'_, usize>
    ensures reading { Gives (λ x. (x.0, x.1.now)) result (length_at octets.now) }
    ensures rest { IfOk result (λ x. length x.1.now ≤ length octets.now) }
    ensures short { IfOk result (λ x. x.0 < 2 ^ 32) }
{
    if octets.len() < 4 {
        return Err(end(octets));
    }
    let length = BigEndian::read_u32(octets) as usize;
    if is_length(length) {
        Ok((length, &octets[4..]))
    } else {
        Err(&octets[3..])
    }
}

fn kind_of(whole: usize, octets: &[u8]) -> Reading<'_, Kind>
    ensures reading { Gives (λ x. (x.0, x.1.now)) result (kind_at whole octets.now) }
    ensures rest { IfOk result (λ x. length x.1.now ≤ length octets.now) }
    ensures fits { IfOk result (λ x. IsTrue (fits_length whole x.0)) }
{
    let [code, rest @ ..] = octets else {
        return Err(octets);
    };
    match Kind::of(*code) {
        Some(kind) if kind.fits(whole) => Ok((kind, rest)),
        _ => Err(octets),
    }
}

#[tactic(auto, unfolding(crate::specs::Reading::path_at))]
fn path_of(octets: &[u8]) -> Reading<'_, (u32, u16, u8)>
    ensures { Gives (λ x. (x.0, x.1.now)) result (path_at octets.now) }
{
    let (node, rest) = u32_of(octets)?;
    let (port, rest) = u16_of(rest)?;
    let (counter, rest) = octet_of(rest)?;
    Ok(((node, port, counter), rest))
}

#[tactic(auto, unfolding(crate::specs::Reading::key_at))]
fn key_of(octets: &[u8]) -> Reading<'_, (u32, u64)>
    ensures { Gives (λ x. (x.0, x.1.now)) result (key_at octets.now) }
{
    let (node, rest) = u32_of(octets)?;
    let (number, rest) = u64_of(rest)?;
    Ok(((node, number), rest))
}

#[tactic(auto, unfolding(crate::specs::Reading::packet_at))]
fn packet_of(whole: usize, octets: &[u8]) -> Reading<'_, (u32, u64, &[u8])>
    requires { 37 ≤ whole }
    ensures { Gives (λ x. ((x.0.0, x.0.1, x.0.2.now), x.1.now)) result (packet_at whole octets.now) }
{
    let ((node, number), rest) = key_of(octets)?;
    let (packet, rest) = octets_of(rest, whole - 37)?;
    Ok(((node, number, packet), rest))
}

#[tactic(auto, unfolding(crate::specs::Reading::list_at))]
fn list_of<'a>(
    whole: usize,
    octets: &'a [u8],
    numbers: &'a mut [u64],
) -> Reading<'a, (u32, &'a [u64])>
    requires of_a_list { 33 ≤ whole }
    requires short { whole < 2 ^ 32 }
    requires room { length octets.now ≤ 8 * length numbers.old }
    ensures { Gives (λ x. ((x.0.0, x.0.1.now), x.1.now)) result (list_at whole octets.now) }
{
    let (node, rest) = u32_of(octets)?;
    let count = (whole - 33) / 8;
    let mut counted = [0; 4];
    BigEndian::write_u32(&mut counted, count as u32);
    let rest = exactly(&counted, rest)?;
    let (numbers, rest) = numbers_of(rest, count, numbers)?;
    Ok(((node, numbers), rest))
}

fn act_of<'a>(
    whole: usize,
    kind: Kind,
    octets: &'a [u8],
    numbers: &'a mut [u64],
) -> Reading<'a, Act<'a>>
    requires fits { IsTrue (fits_length whole kind) }
    requires short { whole < 2 ^ 32 }
    requires room { length octets.now ≤ 8 * length numbers.old }
    ensures { Gives (λ x. (act_view x.0, x.1.now)) result (act_at whole kind octets.now) }
{
    match kind {
        Kind::Start => Ok((Act::Start, octets)),
        Kind::Path => {
            let ((node, port, counter), rest) = path_of(octets)?;
            let node = NodeId(node);
            Ok((
                Act::Path {
                    node,
                    port,
                    counter,
                },
                rest,
            ))
        }
        Kind::File => {
            let ((node, number, packet), rest) = packet_of(whole, octets)?;
            let node = NodeId(node);
            Ok((
                Act::File {
                    node,
                    number,
                    packet,
                },
                rest,
            ))
        }
        Kind::Hold => {
            let ((node, number, packet), rest) = packet_of(whole, octets)?;
            let node = NodeId(node);
            Ok((
                Act::Hold {
                    node,
                    number,
                    packet,
                },
                rest,
            ))
        }
        Kind::Seal => {
            let ((node, number), rest) = key_of(octets)?;
            let node = NodeId(node);
            Ok((Act::Seal { node, number }, rest))
        }
        Kind::Release => {
            let ((node, numbers), rest) = list_of(whole, octets, numbers)?;
            let node = NodeId(node);
            Ok((Act::Release { node, numbers }, rest))
        }
        Kind::Cancel => {
            let ((node, numbers), rest) = list_of(whole, octets, numbers)?;
            let node = NodeId(node);
            Ok((Act::Cancel { node, numbers }, rest))
        }
        Kind::Tick => Ok((Act::Tick, octets)),
        Kind::Close => Ok((Act::Close, octets)),
    }
}

#[tactic(auto, unfolding(crate::specs::Reading::entry_at))]
pub(crate) fn entry_of<'a>(octets: &'a [u8], numbers: &'a mut [u64]) -> Reading<'a, Entry<'a>>
    requires { length octets.now ≤ 8 * length numbers.old }
    ensures { Gives (λ x. (entry_view x.0, x.1.now)) result (entry_at octets.now) }
{
    let (whole, rest) = length_of(octets)?;
    let (kind, rest) = kind_of(whole, rest)?;
    let (seconds, rest) = seconds_of(rest)?;
    let (session, rest) = u32_of(rest)?;
    let (serial, rest) = u64_of(rest)?;
    let (act, rest) = act_of(whole, kind, rest, numbers)?;
    let Some(moment) = Moment::of(seconds) else {
        unreachable!();
    };
    let caller = Caller { session, serial };
    Ok((
        Entry {
            moment,
            caller,
            act,
        },
        rest,
    ))
}
