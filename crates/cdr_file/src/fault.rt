use gw_base::NoMemory;
use std::error::Error;
use std::fmt;

/// Why octets aren't a CDR file. The first test that a file fails decides.
#[derive(Clone, Copy, Debug)]
pub enum FileFault {
    /// The octets are no file.
    Bad {
        /// A place in the file, in octets from 0: that of the field or of the CDR that is wrong, or the
        /// number of the octets where there are too few or too many.
        place: u64,
        /// What is wrong.
        kind: FileKind,
    },
    /// There was no memory for what was read.
    NoMemory,
}

/// What is wrong with a CDR file, in the order in which it is tested.
#[derive(Clone, Copy, Debug)]
pub enum FileKind {
    /// There are fewer octets than the least header has.
    Short,
    /// The length of the file that the header says isn't the number of octets.
    FileLength,
    /// The length of the header is below that of the least header, or past the end of the file.
    HeaderLength,
    /// The routeing filter leaves no room for the length of the private extension.
    Filter,
    /// The private extension doesn't end where the header does.
    Extension,
    /// Fewer octets are left than the header of a CDR has.
    CdrHeader,
    /// A CDR has more octets than are left.
    CdrCut,
    /// There are more CDRs or fewer than the header says.
    Count,
}

impl FileKind {
    ghost use Rattle.std.specs.Prelude.{◌≡◌};
    ghost use Rattle.cdr_file.specs.Names.{name_of};

    /// The name of this kind, as it is printed.
    pub fn name(self) -> &'static str
        ensures { result.now ≡ name_of self }
    {
        match self {
            FileKind::Short => "Short",
            FileKind::FileLength => "FileLength",
            FileKind::HeaderLength => "HeaderLength",
            FileKind::Filter => "Filter",
            FileKind::Extension => "Extension",
            FileKind::CdrHeader => "CdrHeader",
            FileKind::CdrCut => "CdrCut",
            FileKind::Count => "Count",
        }
    }
}

impl fmt::Display for FileKind {
    ghost use Rattle.std.specs.Prelude.{Some};
    ghost use Rattle.cdr_file.specs.Names.{name_of};

    ghost output = { λ kind. Some (name_of kind) };

    fn fmt<W: fmt::Write>(&self, f: &mut fmt::Formatter<W>) -> fmt::Result {
        f.write_str(self.name())
    }
}

impl fmt::Display for FileFault {
    ghost use Rattle.std.specs.Prelude.{Some};
    ghost use Rattle.cdr_file.specs.FaultText.{file_fault_text};

    ghost output = { λ fault. Some (file_fault_text fault) };

    fn fmt<W: fmt::Write>(&self, f: &mut fmt::Formatter<W>) -> fmt::Result {
        match self {
            FileFault::Bad { place, kind } => write!(f, "{place}: {kind}"),
            FileFault::NoMemory => write!(f, "out of memory"),
        }
    }
}

impl Error for FileFault {}

impl From<NoMemory> for FileFault {
    ghost use Rattle.std.specs.Prelude.{◌≡◌};
    ghost use Rattle.cdr_file.specs.declared.fault.FileFault.TheVariants.{NoMemory as none};

    ghost from_gives = { λ _ fault. fault ≡ none };

    fn from(_: NoMemory) -> Self {
        FileFault::NoMemory
    }
}
