ghost use Rattle.std.specs.Prelude.{◌≡◌};
ghost use Rattle.cdr_file.specs.Timestamp.{fields_of};

/// The fields of a timestamp of a CDR file, as they stand in it (3GPP TS 32.297, clause 6.1.1). Each may
/// be any number of its bits: a month of 0 or a minute of 63 is no fault.
#[derive(Clone, Copy, Debug)]
pub struct StampFields {
    /// The month, 4 bits.
    pub month: u8,
    /// The day of the month, 5 bits.
    pub day: u8,
    /// The hour, 5 bits.
    pub hour: u8,
    /// The minute, 6 bits.
    pub minute: u8,
    /// The sign of the offset from UTC: 1 for plus or zero, 0 for minus.
    pub sign: u8,
    /// The hours of the offset, 5 bits.
    pub offset_hours: u8,
    /// The minutes of the offset, 6 bits.
    pub offset_minutes: u8,
}

impl StampFields {
    /// The fields of a timestamp.
    pub fn of(stamp: u32) -> StampFields
        ensures { result ≡ fields_of stamp }
    {
        StampFields {
            month: (stamp / 0x1000_0000) as u8,
            day: (stamp / 0x80_0000 % 32) as u8,
            hour: (stamp / 0x4_0000 % 32) as u8,
            minute: (stamp / 0x1000 % 64) as u8,
            sign: (stamp / 0x800 % 2) as u8,
            offset_hours: (stamp / 0x40 % 32) as u8,
            offset_minutes: (stamp % 64) as u8,
        }
    }
}
