ghost use Rattle.std.specs.Prelude.{◌≡◌};

use crate::cdr_header::CdrHeader;
use crate::file_header::FileHeader;
use gw_base::Octets;
use std::marker::Model;

/// A CDR file (3GPP TS 32.297, clause 6.1).
#[derive(Drop)]
pub struct CdrFile {
    /// The fields of the header that every file has.
    pub header: FileHeader,
    /// The CDR routeing filter, which is mostly empty.
    pub filter: Octets,
    /// The private extension, which is mostly empty.
    pub extension: Octets,
    /// The CDRs, in their order.
    pub cdrs: Cdrs,
}

/// A CDR of a file.
#[derive(Drop)]
pub struct Cdr {
    /// Its header.
    pub header: CdrHeader,
    /// The octets after the header.
    pub octets: Octets,
}

/// The CDRs of a file, in their order.
#[derive(Drop)]
pub struct Cdrs {
    cdrs: Vec<Cdr>,
}

impl Model for Cdrs {
    ghost use Rattle.std.specs.Prelude.{List};
    ghost use Rattle.cdr_file.specs.declared.file.Cdr.{Cdr};

    ghost Value = { List Cdr };

    ghost view = { λ c. c.cdrs.items };
}

impl Cdrs {
    /// The CDRs of a `Vec`, which takes no memory.
    pub fn from_vec(cdrs: Vec<Cdr>) -> Cdrs
        ensures { result ≡ cdrs.items }
    {
        Cdrs { cdrs }
    }

    /// Gives the `Vec` back.
    pub fn into_vec(self) -> Vec<Cdr>
        ensures { result.items ≡ self }
    {
        self.cdrs
    }

    /// The CDRs, in order.
    pub fn cdrs(&self) -> &[Cdr]
        ensures { result.now ≡ self.now }
    {
        &self.cdrs
    }
}
