ghost use Rattle.std.specs.Prelude.{◌≡◌, ◌<◌, IfSome, Some, length, option_map, slice_get};
ghost use Rattle.gtpp_message.specs.Packet.{IsPacket, count_of, full_packet, is_empty_packet, packet_octets, packet_reading, packet_records};
ghost use Rattle.gtpp_message.specs.Values.{packet_value, stated_count};

use crate::records::{Records, are_records, nth_record};
use byteorder::{BigEndian, ByteOrder};

/// The value of a Data Record Packet (3GPP TS 32.295, clause 6.2.4.5).
#[derive(Clone, Copy, Debug)]
pub enum Packet<'a> {
    /// The empty packet, which tests a number.
    Empty,
    /// A packet with records.
    Full {
        /// How many records there are, from 1 to 255.
        count: u8,
        /// The data record format: 1 is ASN.1 BER.
        format: u8,
        /// The version of the format.
        version: u16,
        /// The whole value of the element, from the number of records on.
        value: &'a [u8],
    },
}

/// The octets in front of the records: their number, the format, and its version in two.
const FIELDS: usize = 4;

/// Whether the value is of the empty packet.
fn is_empty_packet(value: &[u8]) -> bool
    ensures { result ≡ is_empty_packet value.now }
{
    match value {
        [] => true,
        [count] => *count == 0,
        [count, _, _, _] => *count == 0,
        _ => false,
    }
}

/// The packet that a value spells which isn't of the empty one.
fn full_packet(value: &[u8]) -> Option<Packet<'_>>
    ensures { option_map packet_value result ≡ full_packet value.now }
{
    let &[count, format, version_high, version_low, ref octets @ ..] = value else {
        return None;
    };
    if count == 0 || !are_records(count, octets) {
        return None;
    }
    Some(Packet::Full {
        count,
        format,
        version: BigEndian::read_u16(&[version_high, version_low]),
        value,
    })
}

impl<'a> Packet<'a> {
    /// The packet that a value spells.
    pub fn of(value: &'a [u8]) -> Option<Packet<'a>>
        ensures reading { option_map packet_value result ≡ packet_reading value.now }
        ensures whole { IfSome result (λ packet. IsPacket (packet_value packet)) }
    {
        if is_empty_packet(value) {
            return Some(Packet::Empty);
        }
        full_packet(value)
    }

    /// The value of the packet as it is sent: the empty one has no octets.
    pub fn octets(&self) -> &'a [u8]
        ensures { result.now ≡ packet_octets (packet_value self.now) }
    {
        match self {
            Packet::Empty => &[],
            Packet::Full { value, .. } => value,
        }
    }

    /// Lends the records, front to back.
    pub fn records(&self) -> Records<'a>
        requires { IsPacket (packet_value self.now) }
        ensures records { result ≡ packet_records (packet_value self.now) }
        ensures count { length result ≡ stated_count self.now }
    {
        match self {
            Packet::Empty => Records::of(0, &[]),
            Packet::Full { count, value, .. } => {
                let (_, octets) = value.split_at(FIELDS);
                Records::of(*count, octets)
            }
        }
    }

    /// Lends the k-th record, counted from 0.
    pub fn part(&self, k: u8) -> &'a [u8]
        requires whole { IsPacket (packet_value self.now) }
        requires within { k < count_of (packet_value self.now) }
        ensures part { slice_get (packet_records (packet_value self.now)) k ≡ Some result.now }
        ensures short { length result.now < 65536 }
    {
        let Packet::Full { value, .. } = self else {
            unreachable!()
        };
        let (_, records) = value.split_at(FIELDS);
        match nth_record(k, records) {
            Some(record) => record,
            None => unreachable!(),
        }
    }
}
