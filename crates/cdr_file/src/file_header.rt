ghost use Rattle.std.specs.Prelude.{◌≡◌, ◌<◌, []};
ghost use Rattle.cdr_file.specs.FileHeader.{IsExtended, header_octets, plain_header};

use crate::head_octets::HeadOctets;
use crate::octet::octet_of;
use byteorder::{BigEndian, ByteOrder};

/// The header of a CDR file, but for its routeing filter and its private extension (3GPP TS 32.297,
/// clause 6.1.1).
#[derive(Clone, Copy)]
pub struct FileHeader {
    /// How many octets the whole file has, this header among them.
    pub length: u32,
    /// How many octets this header has, with the filter and the extension.
    pub header_length: u32,
    /// The highest release of the file's CDRs, from 0 to 7.
    pub high_release: u8,
    /// The highest version in that release, from 0 to 31.
    pub high_version: u8,
    /// The lowest release of the file's CDRs, from 0 to 7.
    pub low_release: u8,
    /// The lowest version in that release, from 0 to 31.
    pub low_version: u8,
    /// When the file was opened, as a `stamp`.
    pub opened: u32,
    /// When the last CDR was appended, as a `stamp`.
    pub appended: u32,
    /// How many CDRs the file has.
    pub count: u32,
    /// The file's number in the sequence of files.
    pub sequence: u32,
    /// Why the file was closed: the code of a `ClosureReason`.
    pub reason: u8,
    /// The address of the node that made the file.
    pub address: [u8; 20],
    /// The lost CDR indicator: 0 for none.
    pub lost: u8,
    /// The extension of a high release that is 7, in a file of profile 2.
    pub high_extension: Option<u8>,
    /// The extension of a low release that is 7, in a file of profile 2.
    pub low_extension: Option<u8>,
}

/// The octets of a file's header that has neither a routeing filter nor a private extension: 52, and one
/// more for each extension of a release. Either no release has one, or those that are 7.
#[tactic(auto, using(crate::proofs::FileLemmas::header_joined))]
pub fn write_header(header: &FileHeader) -> HeadOctets
    requires high_release { header.now.high_release < 8 }
    requires high_version { header.now.high_version < 32 }
    requires low_release { header.now.low_release < 8 }
    requires low_version { header.now.low_version < 32 }
    requires high_extension { IsExtended header.now header.now.high_release header.now.high_extension }
    requires low_extension { IsExtended header.now header.now.low_release header.now.low_extension }
    ensures { result ≡ header_octets header.now }
{
    let mut octets = HeadOctets::of(&least_octets(header));
    octets.append(header.high_extension);
    octets.append(header.low_extension);
    octets
}

/// The 52 octets that each header has.
fn least_octets(header: &FileHeader) -> [u8; 52]
    requires high_release { header.now.high_release < 8 }
    requires high_version { header.now.high_version < 32 }
    requires low_release { header.now.low_release < 8 }
    requires low_version { header.now.low_version < 32 }
    ensures { result ≡ plain_header header.now [] [] }
{
    let mut octets = [0; 52];
    BigEndian::write_u32(&mut octets[0..4], header.length);
    BigEndian::write_u32(&mut octets[4..8], header.header_length);
    octets[8] = octet_of(header.high_release, header.high_version);
    octets[9] = octet_of(header.low_release, header.low_version);
    BigEndian::write_u32(&mut octets[10..14], header.opened);
    BigEndian::write_u32(&mut octets[14..18], header.appended);
    BigEndian::write_u32(&mut octets[18..22], header.count);
    BigEndian::write_u32(&mut octets[22..26], header.sequence);
    octets[26] = header.reason;
    octets[47] = header.lost;
    octets[27..47].copy_from_slice(&header.address);
    octets
}
