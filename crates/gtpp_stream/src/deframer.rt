// Messages out of a stream.
ghost use Rattle.std.specs.Prelude.{◌≡◌, ℕ, ◌+◌, ◌≤◌, ◌<◌, ◌^◌, ◌++◌, ◌∷◌, [], true, false, List, None, Some, IfOk, take};
ghost use Rattle.gtpp_stream.specs.Frames.{IsWhole, first_fault};
ghost use Rattle.gtpp_stream.specs.Kept.{IsPart};
ghost use Rattle.gtpp_stream.specs.Stream.{Follows, answer_of, fault_before, no_stream};
ghost use Rattle.gtpp_stream.specs.Taking.{Takes};
ghost use Rattle.gtpp_stream.specs.declared.frame.FrameKind.{FrameKind};

use crate::frame::{FrameEnd, FrameKind};
use crate::taking::take_in;
use gtpp_header::{is_gtp, read, version};
use gw_base::NoMemory;
use std::alloc::Global;
use std::marker::Model;

/// The octets of the longest message: its header and 65,535 more.
const MOST_OCTETS: usize = 65_541;

/// The version of GTP' that is spoken here.
const VERSION: u8 = 2;

/// Cuts a stream of octets into messages, however the stream is cut into pieces.
///
/// Its buffer has room for the longest message, and is made with it.
#[derive(Drop)]
pub struct Deframer {
    // Those of the message that has come so far.
    octets: Vec<u8>,
    used: u64,
    is_whole: bool,
    bad: Option<FrameKind>,
}

impl Model for Deframer {
    ghost use Rattle.std.specs.Prelude.{◌≤◌, vec_capacity};
    ghost use Rattle.gtpp_stream.specs.Stream.{Stream};

    ghost Value = { Stream };

    ghost use Rattle.gtpp_stream.specs.Kept.{IsKept};

    ghost view = { λ d. record { used = d.used; octets = d.octets.items; is_whole = d.is_whole; bad = d.bad } };

    ghost invariant = { λ d. IsKept d.used d.octets.items d.is_whole × (65541 ≤ vec_capacity d.octets) };
}

// Why no message begins with these octets, whatever follows, where that is so.
fn first_fault(octets: &[u8]) -> Option<FrameKind>
    ensures { result ≡ first_fault octets.now }
{
    let flags = *octets.first()?;
    if is_gtp(flags) {
        return Some(FrameKind::NotPrime);
    }
    if version(flags) == VERSION {
        None
    } else {
        Some(FrameKind::Version)
    }
}

impl Deframer {
    /// A deframer at the beginning of a stream.
    pub fn new(alloc: Global) -> Result<Deframer, NoMemory>
        ensures empty { IfOk result (λ deframer. deframer ≡ no_stream) }
    {
        Ok(Deframer {
            octets: Vec::with_capacity(alloc, MOST_OCTETS)?,
            used: 0,
            is_whole: false,
            bad: None,
        })
    }

    // Why the stream is bad where a piece begins.
    fn fault_before(&self, piece: &[u8]) -> Option<FrameKind>
        ensures { result ≡ fault_before self.now piece.now }
    {
        if self.bad.is_some() {
            return self.bad;
        }
        if self.octets.is_empty() {
            return first_fault(piece);
        }
        first_fault(&self.octets)
    }

    /// Takes in the next piece of the stream, up to the end of a message, and says how many octets it used. An octet
    /// that can't begin a message isn't used, and each later call answers the same.
    pub fn push(&mut self, piece: &[u8]) -> (usize, FrameEnd)
        requires none_stands { self.old.is_whole ≡ false }
        requires used { self.old.used < 2 ^ 62 }
        ensures answer { result.1 ≡ answer_of (fault_before self.old piece.now) self.new }
        ensures bad { (kind : FrameKind) → fault_before self.old piece.now ≡ Some kind →
            (result.0 ≡ 0) × (self.new ≡ record self.old { bad = Some kind }) }
        ensures takes { fault_before self.old piece.now ≡ None →
            Takes piece.now result.0 self.old.octets self.new.octets × (self.new.bad ≡ self.old.bad) }
        ensures counts { self.new.used ≡ self.old.used + result.0 }
        ensures stands { IsPart self.new.is_whole self.new.octets }
        ensures follows { (given : List ℕ) (messages : List (List ℕ)) → Follows given messages self.old →
            Follows (given ++ take result.0 piece.now) messages self.new }
    {
        crate::laws::a_stream_may_be_cut();
        if let Some(kind) = self.fault_before(piece) {
            self.bad = Some(kind);
            let at = self.used - self.octets.len() as u64;
            return (0, FrameEnd::Bad { at, kind });
        }
        let count = take_in(&mut self.octets, piece);
        self.used += count as u64;
        self.is_whole = read(&self.octets).is_ok();
        if self.is_whole {
            return (count, FrameEnd::Whole);
        }
        (count, FrameEnd::More)
    }

    /// The message that stands.
    pub fn octets(&self) -> &[u8]
        requires { self.now.is_whole ≡ true }
        ensures octets { result.now ≡ self.now.octets }
        ensures whole { IsWhole result.now }
    {
        &self.octets
    }

    /// Lets the message go that stands.
    pub fn next(&mut self)
        requires { self.old.is_whole ≡ true }
        ensures left { self.new ≡ record self.old { octets = []; is_whole = false } }
        ensures follows { (given : List ℕ) (messages : List (List ℕ)) → Follows given messages self.old →
            Follows given (messages ++ self.old.octets ∷ []) self.new }
    {
        self.octets.clear();
        self.is_whole = false;
    }
}
