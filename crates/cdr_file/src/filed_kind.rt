ghost use Rattle.std.specs.Prelude.{◌≡◌};
ghost use Rattle.gw_base.specs.CdrKind.{IsCdrKind};
ghost use Rattle.cdr_file.specs.Profile.{IsFiledKind, IsProfile, extension_if, in_profile};

use gw_base::CdrKind;

/// A kind in the form of a profile: what the header of a CDR says of its record (3GPP TS 32.297, clause
/// 6.1.2). A CDR file holds records of one such kind.
#[derive(Clone, Copy)]
pub struct FiledKind {
    /// The release, from 0 to 7.
    pub release: u8,
    /// The version within that release, from 0 to 31.
    pub version: u8,
    /// The data record format, from 0 to 7.
    pub format: u8,
    /// In profile 2, where the release is 7: how far the release is above the first that three bits can't
    /// say.
    pub extension: Option<u8>,
}

/// The release that stands for all that three bits can't say.
pub(crate) const LAST_RELEASE: u8 = 7;

/// The profile in which such a release has an extension.
const EXTENDING: u8 = 2;

impl FiledKind {
    /// A kind in the form of profile 1 or 2.
    pub fn of(kind: CdrKind, profile: u8) -> FiledKind
        requires { IsProfile profile }
        ensures kind { result ≡ in_profile profile kind }
        ensures fits { IsCdrKind kind → IsFiledKind result }
    {
        let is_extended = profile == EXTENDING && kind.release == LAST_RELEASE;
        FiledKind {
            release: kind.release,
            version: kind.version,
            format: kind.format,
            extension: extension_if(is_extended, kind.extension),
        }
    }
}

/// An extension, if there is one.
pub(crate) fn extension_if(is_there: bool, extension: u8) -> Option<u8>
    ensures { result ≡ extension_if is_there extension }
{
    if is_there { Some(extension) } else { None }
}
