// The cells of a window, one after the other in a ring.
ghost use Rattle.std.specs.Prelude.{◌≡◌, ℕ, ◌+◌, ◌-◌, ◌^◌, ◌<◌, ◌≤◌, ◌==◌, ◌&&◌, if◌then◌else◌, length, max, nat_le, nat_lt, slice_index_or, vec_capacity};
ghost use Rattle.gw_base.specs.declared.key_state.KeyState.TheVariants.{Fresh};
ghost use Rattle.seq_window.specs.Stored.{IsMovedUp, cell_below};

use gw_base::KeyState;

/// Where the cell is of the number that is so far below the one whose cell is at `at`, in a ring of `count` cells.
pub(crate) fn cell_below(count: usize, at: usize, below: usize) -> usize
    requires at { at < count }
    requires below { below < count }
    requires small { count < 2 ^ 63 }
    ensures value { result ≡ cell_below count at below }
    ensures inside { result < count }
{
    if below <= at {
        at - below
    } else {
        at + count - below
    }
}

/// What the cell here says, which is fresh where it isn't stored.
#[tactic(auto, using(crate::proofs::RingLemmas::fresh_behind))]
pub(crate) fn cell_at(cells: &[KeyState], at: usize) -> KeyState
    ensures { result ≡ slice_index_or cells.now at Fresh }
{
    if at >= cells.len() {
        return KeyState::Fresh;
    }
    cells[at]
}

// Stores so many cells, for which there is memory.
#[tactic(auto, using(crate::proofs::RingLemmas::reached))]
fn reach(cells: &mut Vec<KeyState>, count: usize)
    requires { count ≤ vec_capacity cells.old }
    ensures cells { (k : ℕ) → slice_index_or cells.new.items k Fresh ≡ slice_index_or cells.old.items k Fresh }
    ensures length { length cells.new.items ≡ max (length cells.old.items) count }
    ensures capacity { vec_capacity cells.old ≤ vec_capacity cells.new }
{
    if cells.len() >= count {
        return;
    }
    match cells.resize(count, KeyState::Fresh) {
        Ok(()) => {}
        Err(_) => unreachable!(),
    }
}

/// Sets the cell here, for which there is memory.
pub(crate) fn set_cell(cells: &mut Vec<KeyState>, at: usize, state: KeyState)
    requires small { at < 2 ^ 63 }
    requires memory { at < vec_capacity cells.old }
    ensures cells { (k : ℕ) → slice_index_or cells.new.items k Fresh ≡
        (if at == k then state else slice_index_or cells.old.items k Fresh) }
    ensures length { length cells.new.items ≡ max (length cells.old.items) (at + 1) }
    ensures capacity { vec_capacity cells.old ≤ vec_capacity cells.new }
{
    reach(cells, at + 1);
    cells[at] = state;
}

// Makes the stored cells of a part fresh.
fn freshen_part(cells: &mut [KeyState], from: usize, to: usize)
    requires { (from ≤ to) × (to ≤ length cells.old) }
    ensures length { length cells.new ≡ length cells.old }
    ensures cells { (k : ℕ) → slice_index_or cells.new k Fresh ≡
        (if nat_le from k && nat_lt k to then Fresh else slice_index_or cells.old k Fresh) }
{
    for k in from..to {
        cells[k] = KeyState::Fresh;
    }
}

// Makes the cells of a part fresh.
fn freshen(cells: &mut [KeyState], from: usize, to: usize)
    ensures length { length cells.new ≡ length cells.old }
    ensures cells { (k : ℕ) → slice_index_or cells.new k Fresh ≡
        (if nat_le from k && nat_lt k to then Fresh else slice_index_or cells.old k Fresh) }
{
    let end = to.min(cells.len());
    if from < end {
        freshen_part(cells, from, end);
    }
}

/// Takes in so many numbers above the greatest one, whose cell is at `at` in a ring of `count` cells, and says where
/// the cell of the last of them is.
pub(crate) fn move_up(cells: &mut [KeyState], count: usize, at: usize, by: u64) -> usize
    requires at { at < count }
    requires small { count < 2 ^ 63 }
    ensures { IsMovedUp count by at result cells.old cells.new }
{
    if by >= count as u64 {
        freshen(cells, 0, count);
        return at;
    }
    let end = at + by as usize;
    if end < count {
        freshen(cells, at + 1, end + 1);
        return end;
    }
    freshen(cells, at + 1, count);
    freshen(cells, 0, end - count + 1);
    end - count
}

/// Makes the cells those of another ring, for which there is memory.
pub(crate) fn copy(cells: &mut Vec<KeyState>, other: &[KeyState])
    requires { length other.now ≤ vec_capacity cells.old }
    ensures cells { cells.new.items ≡ other.now }
    ensures capacity { vec_capacity cells.old ≤ vec_capacity cells.new }
{
    cells.clear();
    match cells.extend_from_slice(other) {
        Ok(()) => {}
        Err(_) => unreachable!(),
    }
}
