//! Laws of the messages of a stream. Each holds for every list of octets, and stands on a function that does nothing.
ghost use Rattle.std.specs.Prelude.{◌≡◌, ℕ, List, [], ◌++◌, Some};
ghost use Rattle.gtpp_stream.specs.Frames.{AreFrames, first_fault, frames, rest_of};
ghost use Rattle.gtpp_stream.specs.Stream.{Follows, no_stream};
ghost use Rattle.gtpp_stream.specs.declared.frame.FrameKind.{FrameKind};

/// At the beginning of a stream nothing was given and no message was handed on.
pub fn nothing_was_given()
    ensures { Follows [] [] no_stream }
{}

/// The messages of what comes after a part of a stream are those of the part's rest with it.
pub fn a_stream_may_be_cut()
    ensures frames { (part more : List ℕ) → frames (part ++ more) ≡ frames part ++ frames (rest_of part ++ more) }
    ensures rest { (part more : List ℕ) → rest_of (part ++ more) ≡ rest_of (rest_of part ++ more) }
{
    gtpp_header::laws::further_octets_are_ignored();
}

/// After an octet that can't begin a message none is found.
pub fn a_bad_octet_ends_the_messages()
    ensures { (octets : List ℕ) (kind : FrameKind) → first_fault octets ≡ Some kind →
        (frames octets ≡ []) × (rest_of octets ≡ octets) }
{}

/// The messages of a stream are the longest list of whole messages with which it begins, and no other list is.
pub fn the_messages_are_the_longest_list()
    ensures are { (octets : List ℕ) → AreFrames octets (frames octets) (rest_of octets) }
    ensures only { (octets rest : List ℕ) (messages : List (List ℕ)) → AreFrames octets messages rest →
        (messages ≡ frames octets) × (rest ≡ rest_of octets) }
{
    gtpp_header::laws::further_octets_are_ignored();
}
