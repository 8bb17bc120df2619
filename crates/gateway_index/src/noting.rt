// The steps that a pair notes of its live side, so that its firm side can take them too.
ghost use Rattle.std.specs.Prelude.{◌≡◌, ◌≤◌, true, false, [], ◌∷◌, ◌++◌, ◌⊎◌, vec_capacity, length};

/// How many steps a pair notes at most. Behind more of them a whole side is copied.
pub(crate) const MOST_NOTED: usize = 64;

/// Notes a step behind those that are noted, where there is room for it, and tells whether there is more than is noted.
pub(crate) fn note<T: Copy>(given: &mut Vec<T>, changed: bool, step: T) -> bool
    ensures noted { result ≡ false → (changed ≡ false) × (given.new.items ≡ given.old.items ++ step ∷ []) }
    ensures full { result ≡ true → (changed ≡ true) ⊎ (vec_capacity given.old ≤ length given.old.items) }
{
    if given.len() >= given.capacity() {
        return true;
    }
    given.push_reserved(step);
    changed
}
