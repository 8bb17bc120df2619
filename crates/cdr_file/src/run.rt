ghost use Rattle.std.specs.Prelude.{◌≡◌, ◌≤◌, ◌%◌, ◌^◌, length};
ghost use Rattle.cdr_file.specs.CdrFile.{cdr_header_length, header_length, header_of, node_address};
ghost use Rattle.cdr_file.specs.FileHeader.{header_octets};
ghost use Rattle.cdr_file.specs.Profile.{IsFiledKind, extension_octets};

use crate::closure::ClosureReason;
use crate::file_header::{FileHeader, write_header};
use crate::filed_kind::FiledKind;
use crate::head_octets::HeadOctets;
use crate::offset::Offset16;
use crate::timestamp::stamp;
use byteorder::{BigEndian, ByteOrder};
use gw_base::Moment;

/// What the header of a file says of the records in it.
#[derive(Clone, Copy)]
pub struct RunFacts {
    /// The kind of each of them, in the form of the file's profile.
    pub kind: FiledKind,
    /// The moment at which the first was filed.
    pub opened: Moment,
    /// The moment at which the last was filed.
    pub appended: Moment,
    /// How many there are.
    pub count: u64,
    /// How many octets their CDRs have, with the headers of these.
    pub octets: u64,
}

/// How many octets the header of a file of CDRs of a kind has.
pub fn header_length(kind: FiledKind) -> u32
    ensures length { result ≡ header_length kind }
    ensures most { result ≤ 54 }
{
    52 + 2 * extension_length(kind)
}

/// How many octets the header of a CDR of a kind has.
pub fn cdr_header_length(kind: FiledKind) -> u32
    ensures length { result ≡ cdr_header_length kind }
    ensures most { result ≤ 5 }
{
    4 + extension_length(kind)
}

/// How many octets the extension of a kind has.
fn extension_length(kind: FiledKind) -> u32
    ensures length { result ≡ length (extension_octets kind.extension) }
    ensures most { result ≤ 1 }
{
    match kind.extension {
        None => 0,
        Some(_) => 1,
    }
}

/// The address of a node that has an IPv4 address: it as an IPv6 address (RFC 4291, section 2.5.5.2),
/// filled up with zeros.
#[tactic(auto, unfolding(crate::specs::CdrFile::node_address))]
pub fn node_address(ip: u32) -> [u8; 20]
    ensures { result ≡ node_address ip }
{
    let mut address = [0; 20];
    address[10] = 0xFF;
    address[11] = 0xFF;
    BigEndian::write_u32(&mut address[12..16], ip);
    address
}

/// The header of the file of a run of records, which a gateway with an IPv4 address closes for a reason.
/// Of a length and of a count it says the low 32 bits, which is all that it has room for.
#[tactic(auto, using(crate::proofs::RunLemmas::low_header, crate::specs::Laws::extends_one))]
pub fn run_header(
    run: RunFacts,
    sequence: u32,
    reason: ClosureReason,
    offset: Offset16,
    address: u32,
) -> HeadOctets
    requires { IsFiledKind run.kind }
    ensures octets { result ≡ header_octets
        (header_of run sequence reason (record { offset = offset; address = address })) }
    ensures length { length result ≡ header_length run.kind }
{
    let header_length = header_length(run.kind);
    let kind = run.kind;
    write_header(&FileHeader {
        length: low_32_bits(header_length as u64 + low_32_bits(run.octets) as u64),
        header_length,
        high_release: kind.release,
        high_version: kind.version,
        low_release: kind.release,
        low_version: kind.version,
        opened: stamp(run.opened, offset),
        appended: stamp(run.appended, offset),
        count: low_32_bits(run.count),
        sequence,
        reason: reason.code(),
        address: node_address(address),
        lost: 0,
        high_extension: kind.extension,
        low_extension: kind.extension,
    })
}

/// The low 32 bits of a number.
fn low_32_bits(number: u64) -> u32
    ensures { result ≡ number % 2 ^ 32 }
{
    (number % 0x1_0000_0000) as u32
}
