//! Where the files of a stream are closed, and by which reason.
//!
//! - `limits SIZE RECORDS OPEN`: the limits of each file of the stream.
//! - `record FORMAT LENGTH AT`: the reasons before and behind a record of this format, length and moment.
//! - `tick AT`, `close AT`: the same of a Tick and a Close.

ghost use Rattle.std.specs.Prelude.{IfOk};
ghost use Rattle.file_rotate.specs.Items.{AreLimits};

use crate::words::moment;
use file_rotate::{Cutter, Limits};
use gw_base::CdrKind;
use run_lines::{bad, next, number};
use std::io;

/// The most octets of a file, and the most records.
const MOST_SIZE: u64 = 4_294_836_224;

const MOST_RECORDS: u64 = 4_294_967_295;

/// The profile of the files.
const PROFILE: u8 = 1;

fn limits_of(words: &str) -> io::Result<Limits>
    ensures { IfOk result AreLimits }
{
    let (size, words) = next(words, MOST_SIZE)?;
    let (count, words) = next(words, MOST_RECORDS)?;
    let open_time = number(words, u64::MAX)?;
    if size == 0 {
        return Err(bad());
    }
    if count == 0 {
        return Err(bad());
    }
    Ok(Limits {
        size: size as u32,
        count: count as u32,
        open_time,
    })
}

pub(crate) fn limits(rt: &HostRuntime, cutter: &mut Option<Cutter>, words: &str) -> io::Result<()> {
    let limits = limits_of(words)?;
    *cutter = Some(Cutter::new(limits, PROFILE));
    print!(rt; "{limits:?}")
}

pub(crate) fn record(rt: &HostRuntime, cutter: &mut Cutter, words: &str) -> io::Result<()> {
    let (format, words) = next(words, 7)?;
    let (length, at) = next(words, 65_535)?;
    let at = moment(at)?;
    let kind = CdrKind {
        release: 3,
        version: 0,
        format: format as u8,
        extension: 0,
    };
    print!(rt; "{:?}", cutter.put(kind, length as u16, at))
}

pub(crate) fn mark(
    rt: &HostRuntime,
    cutter: &mut Cutter,
    closes: bool,
    words: &str,
) -> io::Result<()> {
    let at = moment(words)?;
    print!(rt; "{:?}", cutter.mark(closes, at))
}
