ghost use Rattle.std.specs.Prelude.{◌≡◌, ◌+◌, ◌-◌, ◌<◌, Option, None, Some};
ghost use Rattle.std.specs.Option.{ForSome};
ghost use Rattle.file_rotate.specs.Cutting.{IsBelow, kind_change, limit_reached, mark_reason, with_record};
ghost use Rattle.file_rotate.specs.Division.{still};
ghost use Rattle.file_rotate.specs.Items.{AreLimits, same_extension, same_kind};

use crate::limits::Limits;
use cdr_file::{ClosureReason, FiledKind, cdr_header_length, header_length};
use gw_base::Moment;
use gw_base::scan::is_long_ago;

/// What is kept of an open file.
#[derive(Clone, Copy)]
pub(crate) struct OpenFile {
    /// The kind of its records.
    pub kind: FiledKind,
    /// The moment of its first record.
    pub opened: Moment,
    /// How many records it has.
    pub count: u32,
    /// How many octets it has.
    pub octets: u32,
}

/// Why the open file is closed before a record of this kind.
pub(crate) fn kind_change(file: &Option<OpenFile>, kind: FiledKind) -> Option<ClosureReason>
    ensures { result ≡ kind_change file.now kind }
{
    match file {
        Some(file) => {
            if same_kind(file.kind, kind) {
                None
            } else {
                Some(ClosureReason::KindChange)
            }
        }
        None => None,
    }
}

fn same_kind(kind: FiledKind, other: FiledKind) -> bool
    ensures { result ≡ same_kind kind other }
{
    kind.release == other.release
        && kind.version == other.version
        && kind.format == other.format
        && same_extension(kind.extension, other.extension)
}

fn same_extension(extension: Option<u8>, other: Option<u8>) -> bool
    ensures { result ≡ same_extension extension other }
{
    match (extension, other) {
        (None, None) => true,
        (Some(extension), Some(other)) => extension == other,
        (None, Some(_)) | (Some(_), None) => false,
    }
}

/// Why the open file is closed at a Close, or else at a Tick, of this moment.
pub(crate) fn mark_reason(
    file: &Option<OpenFile>,
    limits: Limits,
    closes: bool,
    moment: Moment,
) -> Option<ClosureReason>
    ensures { result ≡ mark_reason limits file.now closes moment }
{
    let Some(file) = file else {
        return None;
    };
    if closes {
        return Some(ClosureReason::Manual);
    }
    if is_long_ago(limits.open_time, moment, file.opened) {
        Some(ClosureReason::OpenTimeLimit)
    } else {
        None
    }
}

/// The open file, if no reason to close it came.
pub(crate) fn still(reason: Option<ClosureReason>, file: Option<OpenFile>) -> Option<OpenFile>
    ensures { result ≡ still reason file None }
{
    match reason {
        None => file,
        Some(_) => None,
    }
}

/// The file with one more record of that many octets, which opens it where none is open.
pub(crate) fn with_record(
    limits: Limits,
    file: Option<OpenFile>,
    kind: FiledKind,
    length: u16,
    moment: Moment,
) -> OpenFile
    requires limits { AreLimits limits }
    requires below { ForSome file (λ f. IsBelow limits f) }
    ensures { result ≡ with_record file kind length moment }
{
    let octets = cdr_header_length(kind) + u32::from(length);
    match file {
        None => OpenFile {
            kind,
            opened: moment,
            count: 1,
            octets: header_length(kind) + octets,
        },
        Some(file) => OpenFile {
            kind: file.kind,
            opened: file.opened,
            count: file.count + 1,
            octets: file.octets + octets,
        },
    }
}

/// Why a file is closed after its last record.
pub(crate) fn limit_reached(limits: Limits, file: &OpenFile) -> Option<ClosureReason>
    ensures reason { result ≡ limit_reached limits file.now }
    ensures below { result ≡ None → IsBelow limits file.now }
{
    if limits.size <= file.octets {
        return Some(ClosureReason::SizeLimit);
    }
    if limits.count <= file.count {
        return Some(ClosureReason::CountLimit);
    }
    None
}
