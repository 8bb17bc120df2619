ghost use Rattle.std.specs.Prelude.{◌≡◌, ◌≤◌, ◌<◌, ◌+◌, ◌++◌, IfErr, OnOk, OnErr, None, length, vec_len, vec_capacity};
ghost use Rattle.gtpp_message.specs.Packet.{IsPacket, packet_octets};
ghost use Rattle.gtpp_message.specs.PacketWriting.{with_record};
ghost use Rattle.gtpp_message.specs.Values.{packet_value};
ghost use Rattle.node_core.specs.Drafts.{addition_fault, addition_fault_of, ber_refusal, grown, grown_length, is_without_records, kept_fault, packet_anew, packet_of_form, stated_records, value_octets};

use crate::fault::DraftFault;
use ber_frame::check;
use gtpp_message::Packet;
use gtpp_message::laws::a_written_packet_is_read_back;
use gw_base::NoMemory;
use std::alloc::Global;
use std::marker::Model;

/// The most octets of a packet's value: with the header and the elements in front of it the request
/// has 65,507.
pub const MOST_VALUE_OCTETS: usize = 65_496;

/// The format of records that are one BER value each.
const BER_FORMAT: u8 = 1;

/// A packet that is built record by record.
#[derive(Drop)]
pub struct Draft {
    format: u8,
    version: u16,
    octets: Vec<u8>,
}

impl Model for Draft {
    ghost use Rattle.gtpp_message.specs.Packet.{PacketForm};
    ghost use Rattle.node_core.specs.Drafts.{IsDraft, form_in};

    ghost Value = { PacketForm };

    ghost view = { λ d. form_in d.format d.version d.octets.items };

    ghost invariant = { λ d. IsDraft d.format d.version d.octets.items };
}

impl Draft {
    /// A packet of this format and version without records. It takes no memory.
    pub fn new(alloc: Global, format: u8, version: u16) -> Draft
        ensures { result ≡ packet_anew format version }
    {
        Draft {
            format,
            version,
            octets: Vec::new(alloc),
        }
    }

    /// Appends a record. The faults are tested in the order in which [`DraftFault`] lists them;
    /// after each the draft is as before.
    pub fn add(&mut self, octets: &[u8]) -> Result<(), DraftFault>
        ensures added { OnOk result (self.new ≡ with_record self.old octets.now) }
        ensures unrefused { OnOk result (addition_fault self.old octets.now ≡ None) }
        ensures refused { IfErr result (λ fault. addition_fault_of fault ≡ addition_fault self.old octets.now) }
        ensures unchanged { OnErr result (self.new ≡ self.old) }
    {
        match self.addition_fault(octets) {
            Some(fault) => Err(fault),
            None => self.append(octets),
        }
    }

    /// Appends a record that has no fault.
    fn append(&mut self, octets: &[u8]) -> Result<(), DraftFault>
        requires { addition_fault self.old octets.now ≡ None }
        ensures added { OnOk result (self.new ≡ with_record self.old octets.now) }
        ensures memory { IfErr result (λ fault. fault ≡ DraftFault.NoMemory) }
        ensures unchanged { OnErr result (self.new ≡ self.old) }
    {
        a_written_packet_is_read_back();
        match grow(&mut self.octets, self.format, self.version, octets) {
            Ok(()) => Ok(()),
            Err(NoMemory) => Err(DraftFault::NoMemory),
        }
    }

    /// Why a record isn't added.
    fn addition_fault(&self, octets: &[u8]) -> Option<DraftFault>
        ensures { result ≡ addition_fault self.now octets.now }
    {
        a_written_packet_is_read_back();
        kept_fault(self.format, &self.octets, octets)
    }

    /// Whether it has no records.
    pub fn is_empty(&self) -> bool
        ensures { result ≡ is_without_records self.now }
    {
        self.octets.is_empty()
    }

    /// The octets of the packet's value, none without records.
    pub fn octets(&self) -> &[u8]
        ensures { result.now ≡ value_octets self.now }
    {
        &self.octets
    }

    /// The packet: the empty one without records.
    pub fn packet(&self) -> Packet<'_>
        ensures value { packet_value result ≡ packet_of_form self.now }
        ensures whole { IsPacket (packet_of_form self.now) }
        ensures short { length (packet_octets (packet_of_form self.now)) ≤ MOST_VALUE_OCTETS }
    {
        match self.octets.as_slice() {
            [count, _, _, _, ..] => Packet::Full {
                count: *count,
                format: self.format,
                version: self.version,
                value: &self.octets,
            },
            _ => Packet::Empty,
        }
    }
}

/// Why a record isn't added to the octets of a value.
fn kept_fault(format: u8, octets: &[u8], more: &[u8]) -> Option<DraftFault>
    requires { length octets.now ≤ MOST_VALUE_OCTETS }
    ensures { result ≡ kept_fault format octets.now more.now }
{
    if stated_records(octets) == u8::MAX {
        return Some(DraftFault::Count);
    }
    if grown_length(octets, more.len()) > MOST_VALUE_OCTETS {
        return Some(DraftFault::TooBig);
    }
    ber_refusal(format, more)
}

/// Why a record of this format isn't added: where the format is BER and it isn't one value.
fn ber_refusal(format: u8, octets: &[u8]) -> Option<DraftFault>
    ensures { result ≡ ber_refusal format octets.now }
{
    if format != BER_FORMAT {
        return None;
    }
    match check(octets) {
        Ok(_) => None,
        Err(fault) => Some(DraftFault::Ber(fault)),
    }
}

/// The number of records that the first octet of a value states.
fn stated_records(octets: &[u8]) -> u8
    ensures { result ≡ stated_records octets.now }
{
    match octets {
        [] => 0,
        [count, ..] => *count,
    }
}

/// How many octets a value has with one more record of so many.
fn grown_length(octets: &[u8], more: usize) -> usize
    requires kept { length octets.now ≤ MOST_VALUE_OCTETS }
    requires more { more < 0x8000000000000000 }
    ensures { result ≡ grown_length octets.now more }
{
    if octets.is_empty() {
        6 + more
    } else {
        octets.len() + 2 + more
    }
}

/// Appends a record to the octets of a value, all of it or nothing.
fn grow(octets: &mut Vec<u8>, format: u8, version: u16, more: &[u8]) -> Result<(), NoMemory>
    requires few { stated_records octets.old.items < 255 }
    requires short { length more.now < 65536 }
    ensures grown { OnOk result (octets.new.items ≡ grown format version octets.old.items more.now) }
    ensures unchanged { OnErr result (octets.new.items ≡ octets.old.items) }
{
    octets.reserve(more.len() + 6)?;
    let [length_high, length_low] = (more.len() as u16).to_be_bytes();
    if octets.is_empty() {
        let [version_high, version_low] = version.to_be_bytes();
        append(
            octets,
            &[
                1,
                format,
                version_high,
                version_low,
                length_high,
                length_low,
            ],
        );
    } else {
        octets[0] += 1;
        append(octets, &[length_high, length_low]);
    }
    append(octets, more);
    Ok(())
}

/// Appends octets for which there is room.
fn append(octets: &mut Vec<u8>, more: &[u8])
    requires { vec_len octets.old + length more.now ≤ vec_capacity octets.old }
    ensures appended { octets.new.items ≡ octets.old.items ++ more.now }
    ensures counted { vec_len octets.new ≡ vec_len octets.old + length more.now }
    ensures capacity { vec_capacity octets.old ≤ vec_capacity octets.new }
{
    let Ok(()) = octets.extend_from_slice(more) else {
        unreachable!()
    };
}
