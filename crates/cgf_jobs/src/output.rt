//! Writing octets to their end.

ghost use Rattle.std.specs.Prelude.{◌≡◌, OnOk, OnErr};
ghost use Rattle.std.specs.Io.KnownBytes.{Appends};
ghost use Rattle.gw_base.specs.Faults.{Rose};
ghost use Rattle.gw_base.specs.Written.{AppendsFront};

use gw_base::{Failed, Sink};

/// Writes all of these octets. At `Failed` a front of them was written.
#[tactic(auto, using(crate::proofs::Streams::appends_more, crate::proofs::Streams::appends_none, crate::proofs::Streams::appends_all, crate::proofs::Streams::front_more, crate::proofs::Streams::rose_more))]
pub fn write_all<K: Sink>(sink: &mut K, octets: &[u8]) -> Result<(), Failed>
    ensures ok { OnOk result (Appends (K.written sink.old) (K.written sink.new) octets.now) }
    ensures unfailed { OnOk result (K.faults sink.new ≡ K.faults sink.old) }
    ensures err { OnErr result (AppendsFront (K.written sink.old) (K.written sink.new) octets.now) }
    ensures failed { OnErr result (Rose (K.faults sink.old) (K.faults sink.new)) }
{
    let mut at = 0;
    while at < octets.len() {
        let (_, rest) = octets.split_at(at);
        match sink.put(rest) {
            Ok(0) => return Err(Failed),
            Ok(count) => at += count,
            Err(failed) => return Err(failed),
        }
    }
    Ok(())
}
