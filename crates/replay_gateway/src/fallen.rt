// The area of a gateway that is down.
ghost use Rattle.std.specs.Prelude.{◌≤◌};
ghost use Rattle.area_disk.specs.contracts.memory.MemoryAreaArea.TheImpl.{ghosts as area_ghosts};

use area_disk::MemoryArea;

/// An area that is long enough for a journal, and not too long.
#[derive(Drop)]
pub(crate) struct Fallen {
    pub area: MemoryArea,
    ghost long: { 100 ≤ area_ghosts.size area },
    ghost short: { area_ghosts.size area ≤ 268435456 },
}
