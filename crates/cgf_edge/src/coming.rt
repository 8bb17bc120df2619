// The octets of a file that are written next.

use crate::DiskFile;

/// So many octets behind a write are asked for.
const MARGIN: u64 = 262_144;

/// How many are asked for at once.
const PIECE: u32 = 131_072;

/// How far the system was asked to read the octets that are written next. A write into a page that isn't in memory waits
/// until it is read from the disk.
#[derive(Drop)]
pub struct Coming {
    asked: u64,
}

impl Coming {
    /// None were asked for.
    pub fn new() -> Coming {
        Coming { asked: 0 }
    }

    /// Asks for some octets of a file of this length, which is written at place `at`, where those that were asked for
    /// end soon behind it.
    pub fn ask(&mut self, file: &DiskFile, at: u64, length: u64) {
        let from = self.asked.max(at);
        if from >= length || from - at >= MARGIN {
            return;
        }
        file.will_need(from, PIECE);
        self.asked = from.saturating_add(u64::from(PIECE));
    }
}
