// What a journal has room for, in octets.
ghost use Rattle.std.specs.Prelude.{◌≡◌, ◌+◌, ◌*◌, if◌then◌else◌};
ghost use Rattle.entry_codec.specs.Room.{capacity_of};

/// What is promised for a held key: a Release or a Cancel of it, and a Close.
const FOR_A_KEY: u128 = 76;

/// What is promised where a Close is due.
const FOR_A_CLOSE: u128 = 30;

/// The octets of an area that no batch has: the header's, and the gate after the last batch.
const TAKEN: u64 = 33;

/// The octets of a journal that are promised where so many keys are held, and so many more.
pub fn promised(held: u64, more: u64, is_close_due: bool) -> u128
    ensures { result ≡ 76 * (held + more) + (if is_close_due then 30 else 0) }
{
    let keys = FOR_A_KEY * (u128::from(held) + u128::from(more));
    if is_close_due {
        keys + FOR_A_CLOSE
    } else {
        keys
    }
}

/// What a journal on so many octets has for its batches: all but the header and the gate after the last batch.
pub fn capacity(size: u64) -> u64
    ensures { result ≡ capacity_of size }
{
    size.saturating_sub(TAKEN)
}
