// Stretches of an area, and what is done to the octets in them.
ghost use Rattle.std.specs.Prelude.{◌≡◌, ◌+◌, ◌≤◌, length, IfOk};
ghost use Rattle.area_disk.specs.Disk.{overwritten, zeros};
ghost use Rattle.area_disk.specs.Stretch.{SameOutside, EachFits, filled, hull_of};

use std::alloc::{AllocError, Global};

/// A run of octets of an area: so many from this place on.
#[derive(Clone, Copy)]
pub struct Stretch {
    pub at: usize,
    pub count: usize,
}

// So many octets 0.
#[tactic(auto, unfolding(crate::specs::Disk::zeros))]
pub fn zeroed(alloc: Global, length: usize) -> Result<Vec<u8>, AllocError>
    ensures { IfOk result (λ octets. octets.items ≡ zeros length) }
{
    vec![in alloc; 0; length]
}

// Writes these octets over those from place `at` on.
pub fn overwrite(octets: &mut [u8], at: usize, from: &[u8])
    requires { at + length from.now ≤ length octets.old }
    ensures { octets.new ≡ overwritten octets.old at from.now }
{
    octets[at..at + from.len()].copy_from_slice(from);
}

// Makes `to` the same as `from`, which differs from it in these stretches alone.
pub fn copy_stretches(from: &[u8], to: &mut [u8], stretches: &[Stretch])
    requires fit { EachFits (length from.now) stretches.now }
    requires same { SameOutside stretches.now from.now to.old }
    ensures { to.new ≡ from.now }
{
    'stretches: for stretch in stretches {
        let end = stretch.at + stretch.count;
        to[stretch.at..end].copy_from_slice(&from[stretch.at..end]);
    }
}

// Writes one value throughout the stretches.
pub fn fill_stretches(octets: &mut [u8], stretches: &[Stretch], value: u8)
    requires fit { EachFits (length octets.old) stretches.now }
    ensures { octets.new ≡ filled value stretches.now octets.old }
{
    'stretches: for stretch in stretches {
        octets[stretch.at..stretch.at + stretch.count].fill(value);
    }
}

// The shortest stretch that holds all of these.
pub fn hull(stretches: &[Stretch], length: usize) -> Stretch
    requires fit { EachFits length stretches.now }
    ensures hull { result ≡ hull_of stretches.now }
    ensures fits { result.at + result.count ≤ length }
{
    let mut low = usize::MAX;
    let mut high: usize = 0;
    'stretches: for stretch in stretches {
        low = low.min(stretch.at);
        high = high.max(stretch.at + stretch.count);
    }
    Stretch {
        at: low.min(high),
        count: high.saturating_sub(low),
    }
}
