use gw_base::NoMemory;

/// Why a line of a script is refused by the grammar, in the order in which a line is tested.
#[derive(Clone, Copy, Debug)]
pub enum InputKind {
    /// The line holds the octet after the first 16,777,216 of the text.
    TooLong,
    /// The first word isn't one of a script's, or an octet isn't a printable one of ASCII.
    Word,
    /// The line is of a form that isn't built yet.
    NotBuilt,
    /// It stands after `end`.
    After,
    /// A setting stands after another line.
    Late,
    /// It has too few or too many words.
    Arity,
    /// A word isn't a number, an address, an offset, a limit or a mode in its form and range.
    Number,
    /// A word isn't whole octets in hexadecimal, or isn't two where it is a version.
    Hex,
    /// The line is no rule, or the 257th.
    Rule,
    /// There is no `end`: the line after the last is named.
    NoEnd,
}

/// Why a script isn't read.
#[derive(Clone, Copy, Debug)]
pub enum InputFault {
    /// The first line that the grammar refuses, by its number from 1.
    Bad { place: u64, kind: InputKind },
    /// There was no memory for its lines.
    NoMemory,
}

/// Why a line isn't read.
#[derive(Clone, Copy)]
pub(crate) enum LineFault {
    /// The grammar refuses it.
    Refused(InputKind),
    /// There was no memory for it.
    NoMemory,
}

impl From<NoMemory> for LineFault {
    ghost use Rattle.std.specs.Prelude.{◌≡◌};
    ghost use Rattle.world_script.specs.declared.fault.LineFault.TheVariants as fault;

    ghost from_gives = { λ _ e. e ≡ fault.NoMemory };

    fn from(_: NoMemory) -> Self {
        LineFault::NoMemory
    }
}

impl From<InputKind> for LineFault {
    ghost use Rattle.std.specs.Prelude.{◌≡◌};
    ghost use Rattle.world_script.specs.declared.fault.LineFault.TheVariants as fault;

    ghost from_gives = { λ kind e. e ≡ fault.Refused kind };

    fn from(kind: InputKind) -> Self {
        LineFault::Refused(kind)
    }
}
