ghost use Rattle.std.specs.Prelude.{◌≡◌, ◌<◌};
ghost use Rattle.cdr_file.specs.SharedOctet.{shared_octet};

/// How many numbers five bits can say.
const FIVE_BITS: u8 = 32;

/// An octet of two numbers, of which the first has the three high bits and the second the five low
/// ones: a release and its version, or a data record format and a TS number.
pub(crate) fn octet_of(high: u8, low: u8) -> u8
    requires high_fits { high < 8 }
    requires low_fits { low < 32 }
    ensures { result ≡ shared_octet high low }
{
    high * FIVE_BITS + low
}
