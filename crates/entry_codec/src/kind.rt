ghost use Rattle.std.specs.Prelude.{◌≡◌};
ghost use Rattle.entry_codec.specs.Reading.{fits_length, kind_from};
ghost use Rattle.entry_codec.specs.Spelling.{code_of};

/// The kind of an entry.
#[derive(Clone, Copy)]
pub(crate) enum Kind {
    Start,
    Path,
    File,
    Hold,
    Seal,
    Release,
    Cancel,
    Tick,
    Close,
}

impl Kind {
    /// The kind that an octet stands for.
    pub(crate) fn of(code: u8) -> Option<Kind>
        ensures { result ≡ kind_from code }
    {
        match code {
            1 => Some(Kind::Start),
            2 => Some(Kind::Path),
            3 => Some(Kind::File),
            4 => Some(Kind::Hold),
            5 => Some(Kind::Seal),
            6 => Some(Kind::Release),
            7 => Some(Kind::Cancel),
            8 => Some(Kind::Tick),
            9 => Some(Kind::Close),
            _ => None,
        }
    }

    /// The octet that stands for the kind.
    pub(crate) fn code(self) -> u8
        ensures { result ≡ code_of self }
    {
        match self {
            Kind::Start => 1,
            Kind::Path => 2,
            Kind::File => 3,
            Kind::Hold => 4,
            Kind::Seal => 5,
            Kind::Release => 6,
            Kind::Cancel => 7,
            Kind::Tick => 8,
            Kind::Close => 9,
        }
    }

    /// Whether an entry of this kind can have so many octets.
    pub(crate) fn fits(self, length: usize) -> bool
        ensures { result ≡ fits_length length self }
    {
        match self {
            Kind::Start | Kind::Tick | Kind::Close => length == 25,
            Kind::Path => length == 32,
            Kind::File | Kind::Hold => length >= 37,
            Kind::Seal => length == 37,
            Kind::Release | Kind::Cancel => length >= 33 && (length - 33) % 8 == 0,
        }
    }
}
