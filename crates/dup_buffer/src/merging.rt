// Two lists of copies made one.
ghost use Rattle.std.specs.Prelude.{◌≡◌, ◌+◌, ◌-◌, ◌<◌, ◌≤◌, ◌++◌, false, true, length, slice_index_or, vec_capacity, List};
ghost use Rattle.dup_buffer.specs.Stored.{AreFrom, HaveSame, IsMerging, IsOnce, is_copy_of, rank};
ghost use Rattle.dup_buffer.specs.declared.copy.HeldCopy.{HeldCopy};

use crate::copy::HeldCopy;
use crate::order::copy_at;

// Whether the last of the first `j` late copies comes after the first `i` copies.
fn late_is_last(copies: &[HeldCopy], late: &[HeldCopy], i: usize, j: usize) -> bool
    requires copies { i ≤ length copies.now }
    requires late { j ≤ length late.now }
    requires some { 0 < j }
    ensures late { result ≡ true → (d : HeldCopy) → 0 < i →
        is_copy_of (slice_index_or late.now (j - 1) d).node (slice_index_or late.now (j - 1) d).number
        (slice_index_or copies.now (i - 1) d) ≡ false →
        rank (slice_index_or copies.now (i - 1) d) < rank (slice_index_or late.now (j - 1) d) }
    ensures some { result ≡ false → 0 < i }
    ensures kept { result ≡ false → (d : HeldCopy) →
        rank (slice_index_or late.now (j - 1) d) < rank (slice_index_or copies.now (i - 1) d) }
{
    if i == 0 {
        return true;
    }
    let other = copy_at(copies, i - 1);
    let one = copy_at(late, j - 1);
    !one.is_before(other)
}

// Of the first `i` copies and the first `j` late ones, puts the last to its place behind them. It says how many are
// left of each.
fn place_last(copies: &mut [HeldCopy], late: &[HeldCopy], i: usize, j: usize) -> (usize, usize)
    requires copies { i + j ≤ length copies.old }
    requires late { j ≤ length late.now }
    requires order { AreFrom 0 late.now }
    requires some { 0 < j }
    ensures placed { (kept : List HeldCopy) → IsOnce (kept ++ late.now) → IsMerging kept late.now i j copies.old →
        IsMerging kept late.now result.0 result.1 copies.new }
    ensures fewer { result.0 + result.1 < i + j }
    ensures size { length copies.new ≡ length copies.old }
    ensures late { result.1 ≤ j }
{
    if late_is_last(copies, late, i, j) {
        copies[i + j - 1] = copy_at(late, j - 1);
        return (i, j - 1);
    }
    copies[i + j - 1] = copy_at(copies, i - 1);
    (i - 1, j)
}

/// Takes late copies in among others, for which there is memory. Both lists are in order.
pub(crate) fn merge(copies: &mut Vec<HeldCopy>, late: &[HeldCopy])
    requires memory { length copies.old.items + length late.now ≤ vec_capacity copies.old }
    requires copies { AreFrom 0 copies.old.items }
    requires late { AreFrom 0 late.now }
    requires once { IsOnce (copies.old.items ++ late.now) }
    ensures order { AreFrom 0 copies.new.items }
    ensures same { HaveSame (copies.old.items ++ late.now) copies.new.items }
    ensures capacity { vec_capacity copies.old ≤ vec_capacity copies.new }
{
    let i = copies.len();
    match copies.extend_from_slice(late) {
        Ok(()) => {}
        Err(_) => unreachable!(),
    }
    merge_in(copies, late, i);
}

// Merges the first copies with the late ones, which stand behind them.
fn merge_in(copies: &mut [HeldCopy], late: &[HeldCopy], count: usize)
    requires size { length copies.old ≡ count + length late.now }
    requires late { AreFrom 0 late.now }
    ensures { (kept : List HeldCopy) → length kept ≡ count → AreFrom 0 kept → IsOnce (kept ++ late.now) →
        copies.old ≡ kept ++ late.now → AreFrom 0 copies.new × HaveSame (kept ++ late.now) copies.new }
{
    let mut i = count;
    let mut j = late.len();
    while j > 0 {
        (i, j) = place_last(copies, late, i, j);
    }
}
