use std::error::Error;
use std::fmt;

/// Why a stream is bad: octet 1 of what should be its next message.
#[derive(Clone, Copy, Debug)]
pub enum FrameKind {
    /// It has the protocol type of GTP, and not of GTP'.
    NotPrime,
    /// It names another version than 2.
    Version,
}

impl fmt::Display for FrameKind {
    ghost use Rattle.std.specs.Prelude.{Some};
    ghost use Rattle.gtpp_stream.specs.FaultText.{frame_kind_text};

    ghost output = { λ kind. Some (frame_kind_text kind) };

    fn fmt<W: fmt::Write>(&self, f: &mut fmt::Formatter<W>) -> fmt::Result {
        f.write_str(match self {
            FrameKind::NotPrime => "the protocol type is not that of GTP'",
            FrameKind::Version => "another version of GTP' than 2",
        })
    }
}

impl Error for FrameKind {}

/// What a piece of a stream brought.
#[derive(Clone, Copy)]
pub enum FrameEnd {
    /// A message stands. What is left of the piece comes after it.
    Whole,
    /// The whole piece is used, and no message stands.
    More,
    /// The stream is bad at this octet, counted from 0, and stays so.
    Bad {
        /// Where the octet stands in the stream.
        at: u64,
        /// What is wrong with it.
        kind: FrameKind,
    },
}
