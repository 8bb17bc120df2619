ghost use Rattle.std.specs.Prelude.{◌≡◌, ◌/◌, ◌%◌, ◌+ℤ◌, ◌*ℤ◌, ◌≤◌, pos, unsigned_abs};
ghost use Rattle.cdr_file.specs.Timestamp.{packed_fields, sign_bit, stamp_of};
ghost use Rattle.jiff_core.specs.Calendar.{IsWithin};
ghost use Rattle.jiff_core.specs.DateTime.{civil_nanos};
ghost use Rattle.jiff_core.specs.Timestamp.{nanos_of_seconds};

use crate::offset::Offset16;
use gw_base::Moment;
use jiff::Timestamp;
use jiff::tz::Offset;
use jiff_core::civil::DateTime;

/// How many numbers a field of one, five or six bits can say.
const ONE_BIT: u32 = 2;

const FIVE_BITS: u32 = 32;

const SIX_BITS: u32 = 64;

/// The timestamp of a moment by a local clock (3GPP TS 32.297, clause 6.1.1), from the top bit: the
/// month in 4 bits, the day of the month in 5, the hour in 5, the minute in 6, the sign of the
/// clock's offset from UTC in 1, which is 1 for plus and for zero, and the hours of the offset in 5
/// and its minutes in 6. It says no year: moment 0 at a negative offset is in December.
pub fn stamp(moment: Moment, offset: Offset16) -> u32
    ensures { result ≡ stamp_of moment offset }
{
    let ahead = offset.minutes();
    packed(local_datetime(moment.seconds(), ahead), ahead)
}

/// What a clock shows that is so many minutes ahead of UTC, so many seconds after the beginning of
/// 1970 in UTC.
fn local_datetime(seconds: u64, ahead: i16) -> DateTime
    requires seconds { seconds ≤ 4102444799 }
    requires ahead { IsWithin 959 ahead }
    ensures { civil_nanos result ≡ nanos_of_seconds (pos seconds +ℤ (ahead *ℤ pos 60)) }
{
    let instant = Timestamp::from_second(seconds as i64).unwrap();
    let offset = Offset::from_seconds(ahead as i32 * 60).unwrap();
    offset.to_datetime(instant).to_plain()
}

/// The fields of a timestamp in their bits.
fn packed(shown: DateTime, ahead: i16) -> u32
    requires ahead { IsWithin 959 ahead }
    ensures { result
        ≡ packed_fields (record { month = shown.date.month; day = shown.date.day })
        shown.time.hour shown.time.minute
        (sign_bit ahead) (unsigned_abs ahead / 60) (unsigned_abs ahead % 60) }
{
    let sign = if ahead < 0 { 0 } else { 1 };
    let distance = ahead.unsigned_abs() as u32;
    let date = shown.date.month as u32 * FIVE_BITS + shown.date.day as u32;
    let time = (date * FIVE_BITS + shown.time.hour as u32) * SIX_BITS + shown.time.minute as u32;
    ((time * ONE_BIT + sign) * FIVE_BITS + distance / 60) * SIX_BITS + distance % 60
}
