ghost use Rattle.std.specs.Prelude.{◌≡◌, ◌<◌};
ghost use Rattle.gw_base.specs.CdrKind.{IsCdrKind, extension_of, kind_of, release_of};

/// What the header of a CDR says of its record (3GPP TS 32.297, clause 6.1.2): the release, from 0
/// to 7, and the version, from 0 to 31, of the specification that the record follows, and its data
/// record format, from 0 to 7; and how far a release that three bits can't say is above the first of
/// these.
#[derive(Clone, Copy, Debug, PartialEq, Eq)]
pub struct CdrKind {
    pub release: u8,
    pub version: u8,
    pub format: u8,
    /// The low four bits of the format version's first octet less 10, from 0 to 5; 0 where the release
    /// isn't 7.
    pub extension: u8,
}

/// The greatest release and the greatest format that three bits hold.
const MOST_IN_3_BITS: u8 = 7;

/// The greatest version that five bits hold.
const MOST_IN_5_BITS: u8 = 31;

/// The releases that the low four bits of the first octet of a format version stand for begin
/// above this value.
const BELOW_FIRST_RELEASE: u8 = 3;

/// The greatest value of these four bits that stands for a release of its own.
const LAST_RELEASE: u8 = 9;

/// The kind of the records of a packet, by its data record format and format version octets.
pub fn cdr_kind(format: u8, version: u16) -> CdrKind
    ensures kind { result ≡ kind_of format version }
    ensures within { IsCdrKind result }
{
    let digit = (version / 256 % 16) as u8;
    let version = (version % 256) as u8;
    CdrKind {
        release: release_number(digit),
        version: version.min(MOST_IN_5_BITS),
        format: format.min(MOST_IN_3_BITS),
        extension: extension_number(digit),
    }
}

fn release_number(digit: u8) -> u8
    ensures value { result ≡ release_of digit }
    ensures within { result < 8 }
{
    if digit > LAST_RELEASE {
        MOST_IN_3_BITS
    } else {
        digit.saturating_sub(BELOW_FIRST_RELEASE)
    }
}

/// How far four bits are above the first value that stands for no release of its own.
fn extension_number(digit: u8) -> u8
    ensures { result ≡ extension_of digit }
{
    digit.saturating_sub(LAST_RELEASE + 1)
}
