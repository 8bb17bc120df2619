ghost use Rattle.std.specs.Prelude.{◌≡◌};
ghost use Rattle.cgf_jobs.specs.StatusText.{kind_name};

use cdr_file::FileKind;
use gtpp_stream::FrameKind;
use once_core::WorldKind;
use std::fmt;
use world_script::InputKind as LineKind;

/// Why an input is refused: a script at one of its lines, by its grammar or as it is run, or a CDR file or a stream at one
/// of its octets. Where a line is refused as it is run, the lines before it were run; of a stream the messages before the
/// octet were answered.
#[derive(Clone, Copy, Debug, PartialEq, Eq)]
pub enum InputKind {
    /// A script: the line holds the octet after the first 16,777,216 of the text. A stream: it has 2^40 octets.
    TooLong,
    /// A script: the first word isn't one of a script's, or an octet isn't a printable one of ASCII.
    Word,
    /// A script: the line is of a form that isn't built yet.
    NotBuilt,
    /// A script: the line stands after `end`.
    After,
    /// A script: a setting stands after another line.
    Late,
    /// A script: the line has too few or too many words.
    Arity,
    /// A script: a word isn't a number, an address, an offset, a limit or a mode in its form and range.
    Number,
    /// A script: a word isn't whole octets in hexadecimal.
    Hex,
    /// A script: the line is no rule, or the 257th.
    Rule,
    /// A script: there is no `end`, and the line after the last is named.
    NoEnd,
    /// A line that is run: it sets a moment before the present one.
    Earlier,
    /// A line that is run: there is no such gateway.
    NoGateway,
    /// A line that is run: there is no such node.
    NoNode,
    /// A line that is run: no such message was sent.
    NoMessage,
    /// A line that is run: the node is halted.
    Halted,
    /// A line that is run: the gateway is stopped.
    Stopped,
    /// A line that is run: what is to start runs.
    Running,
    /// A line that is run: the node was started 255 times.
    Restarts,
    /// A CDR file: it ends within its header.
    Short,
    /// A CDR file: its length is another than it says.
    FileLength,
    /// A CDR file: the length of its header is another.
    HeaderLength,
    /// A CDR file: a filter runs past its header.
    Filter,
    /// A CDR file: an extension runs past its header.
    Extension,
    /// A CDR file: it ends within the header of a CDR.
    CdrHeader,
    /// A CDR file: it ends within a CDR.
    CdrCut,
    /// A CDR file: it has another number of CDRs than it says.
    Count,
    /// A stream: what should be the next message begins with the protocol type of GTP.
    NotPrime,
    /// A stream: what should be the next message names another version than 2.
    Version,
    /// A stream: it ends within a message, which begins here.
    Rest,
}

impl InputKind {
    /// The name of this kind, as it is printed.
    pub fn name(self) -> &'static str
        ensures { result.now ≡ kind_name self }
    {
        match self {
            InputKind::TooLong => "TooLong",
            InputKind::Word => "Word",
            InputKind::NotBuilt => "NotBuilt",
            InputKind::After => "After",
            InputKind::Late => "Late",
            InputKind::Arity => "Arity",
            InputKind::Number => "Number",
            InputKind::Hex => "Hex",
            InputKind::Rule => "Rule",
            InputKind::NoEnd => "NoEnd",
            InputKind::Earlier => "Earlier",
            InputKind::NoGateway => "NoGateway",
            InputKind::NoNode => "NoNode",
            InputKind::NoMessage => "NoMessage",
            InputKind::Halted => "Halted",
            InputKind::Stopped => "Stopped",
            InputKind::Running => "Running",
            InputKind::Restarts => "Restarts",
            InputKind::Short => "Short",
            InputKind::FileLength => "FileLength",
            InputKind::HeaderLength => "HeaderLength",
            InputKind::Filter => "Filter",
            InputKind::Extension => "Extension",
            InputKind::CdrHeader => "CdrHeader",
            InputKind::CdrCut => "CdrCut",
            InputKind::Count => "Count",
            InputKind::NotPrime => "NotPrime",
            InputKind::Version => "Version",
            InputKind::Rest => "Rest",
        }
    }
}

impl From<LineKind> for InputKind {
    ghost use Rattle.std.specs.Prelude.{◌≡◌};
    ghost use Rattle.cgf_jobs.specs.Kinds.{of_line};

    ghost from_gives = { λ kind e. e ≡ of_line kind };

    fn from(kind: LineKind) -> Self {
        match kind {
            LineKind::TooLong => InputKind::TooLong,
            LineKind::Word => InputKind::Word,
            LineKind::NotBuilt => InputKind::NotBuilt,
            LineKind::After => InputKind::After,
            LineKind::Late => InputKind::Late,
            LineKind::Arity => InputKind::Arity,
            LineKind::Number => InputKind::Number,
            LineKind::Hex => InputKind::Hex,
            LineKind::Rule => InputKind::Rule,
            LineKind::NoEnd => InputKind::NoEnd,
        }
    }
}

impl From<WorldKind> for InputKind {
    ghost use Rattle.std.specs.Prelude.{◌≡◌};
    ghost use Rattle.cgf_jobs.specs.Kinds.{of_world};

    ghost from_gives = { λ kind e. e ≡ of_world kind };

    fn from(kind: WorldKind) -> Self {
        match kind {
            WorldKind::Earlier => InputKind::Earlier,
            WorldKind::NoGateway => InputKind::NoGateway,
            WorldKind::NoNode => InputKind::NoNode,
            WorldKind::NoMessage => InputKind::NoMessage,
            WorldKind::Halted => InputKind::Halted,
            WorldKind::Stopped => InputKind::Stopped,
            WorldKind::Running => InputKind::Running,
            WorldKind::Restarts => InputKind::Restarts,
        }
    }
}

impl From<FileKind> for InputKind {
    ghost use Rattle.std.specs.Prelude.{◌≡◌};
    ghost use Rattle.cgf_jobs.specs.Kinds.{of_file};

    ghost from_gives = { λ kind e. e ≡ of_file kind };

    fn from(kind: FileKind) -> Self {
        match kind {
            FileKind::Short => InputKind::Short,
            FileKind::FileLength => InputKind::FileLength,
            FileKind::HeaderLength => InputKind::HeaderLength,
            FileKind::Filter => InputKind::Filter,
            FileKind::Extension => InputKind::Extension,
            FileKind::CdrHeader => InputKind::CdrHeader,
            FileKind::CdrCut => InputKind::CdrCut,
            FileKind::Count => InputKind::Count,
        }
    }
}

impl From<FrameKind> for InputKind {
    ghost use Rattle.std.specs.Prelude.{◌≡◌};
    ghost use Rattle.cgf_jobs.specs.Kinds.{of_frame};

    ghost from_gives = { λ kind e. e ≡ of_frame kind };

    fn from(kind: FrameKind) -> Self {
        match kind {
            FrameKind::NotPrime => InputKind::NotPrime,
            FrameKind::Version => InputKind::Version,
        }
    }
}

impl fmt::Display for InputKind {
    ghost use Rattle.std.specs.Prelude.{Some};
    ghost use Rattle.cgf_jobs.specs.StatusText.{kind_name};

    ghost output = { λ kind. Some (kind_name kind) };

    fn fmt<W: fmt::Write>(&self, f: &mut fmt::Formatter<W>) -> fmt::Result {
        f.write_str(self.name())
    }
}
