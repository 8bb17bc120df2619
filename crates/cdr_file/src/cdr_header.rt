ghost use Rattle.std.specs.Prelude.{◌≡◌, ◌<◌};
ghost use Rattle.cdr_file.specs.CdrHeader.{cdr_header_octets, least_cdr_octets};
ghost use Rattle.cdr_file.specs.Profile.{MayExtend};

use crate::head_octets::HeadOctets;
use crate::octet::octet_of;

/// The header of a CDR (3GPP TS 32.297, clause 6.1.2).
#[derive(Clone, Copy)]
pub struct CdrHeader {
    /// How many octets the CDR has after this header.
    pub length: u16,
    /// The release of the specification that the CDR follows, from 0 to 7.
    pub release: u8,
    /// The version within that release, from 0 to 31.
    pub version: u8,
    /// The data record format, from 0 to 7: 1 for BER.
    pub format: u8,
    /// The number of the technical specification, from 0 to 31.
    pub ts: u8,
    /// The extension of release 7, in a file of profile 2.
    pub extension: Option<u8>,
}

/// The octets of a CDR's header: four, and one more where it has an extension.
#[tactic(auto, unfolding(crate::specs::CdrHeader::cdr_header_octets))]
pub fn write_cdr(header: CdrHeader) -> HeadOctets
    requires release { header.release < 8 }
    requires version { header.version < 32 }
    requires format { header.format < 8 }
    requires ts { header.ts < 32 }
    requires extension { MayExtend header.release header.extension }
    ensures { result ≡ cdr_header_octets header }
{
    let mut octets = HeadOctets::of(&least_octets(header));
    octets.append(header.extension);
    octets
}

/// The four octets that each header has.
fn least_octets(header: CdrHeader) -> [u8; 4]
    requires release { header.release < 8 }
    requires version { header.version < 32 }
    requires format { header.format < 8 }
    requires ts { header.ts < 32 }
    ensures { result ≡ least_cdr_octets header }
{
    let [length_high, length_low] = header.length.to_be_bytes();
    [
        length_high,
        length_low,
        octet_of(header.release, header.version),
        octet_of(header.format, header.ts),
    ]
}
