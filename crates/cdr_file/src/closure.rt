ghost use Rattle.std.specs.Prelude.{◌≡◌};

/// Why a CDR file was closed: the file closure trigger reason (3GPP TS 32.297, clause 6.1.1).
#[derive(Clone, Copy, Debug)]
pub enum ClosureReason {
    /// Closed in the normal course.
    Normal = 0,
    /// The limit on the file's size was reached.
    SizeLimit = 1,
    /// The limit on the time for which a file stays open was reached.
    OpenTimeLimit = 2,
    /// The limit on the number of its CDRs was reached.
    CountLimit = 3,
    /// An operator closed it.
    Manual = 4,
    /// The next CDR has another release, version or encoding.
    KindChange = 5,
    /// Closed by an error of no other kind.
    Abnormal = 128,
    /// The file system failed.
    FileSystemError = 129,
    /// There was no storage left.
    StorageExhausted = 130,
    /// The file's integrity was in doubt.
    IntegrityError = 131,
}

impl ClosureReason {
    ghost use Rattle.cdr_file.specs.ClosureReason.{code_of};

    /// The octet that says this in a file's header.
    pub fn code(self) -> u8
        ensures { result ≡ code_of self }
    {
        self as u8
    }
}
