ghost use Rattle.std.specs.Prelude.{◌≡◌, ◌≤◌, ◌<◌, ◌^◌, ◌↔◌, ℕ, IfSome, Option, Some};
ghost use Rattle.gw_base.specs.Nearest.{IsNearest, nearest};

use crate::address::Absolute;

/// The request number that the 16 bits on the wire mean, by the greatest number that the epoch
/// names, if it names one: the nearest one from 32,768 below it to 32,767 above it.
pub fn nearest_number(top: Option<Absolute>, wire: u16) -> Absolute
    requires { IfSome top (λ t. t < 2 ^ 63) }
    ensures { result ≡ nearest top wire }
{
    match top {
        None => 65_536 + u64::from(wire),
        Some(top) => {
            let low = top.saturating_sub(32_768);
            low + (u64::from(wire) + 65_536 - low % 65_536) % 65_536
        }
    }
}

/// From 32,768 on, the nearest number is the one number of the window that the wire can mean.
pub fn nearest_is_the_one()
    ensures { (h w number : ℕ) → w < 65536 → 32768 ≤ h → IsNearest h w number ↔ (number ≡ nearest (Some h) w) }
{}

/// Two different numbers on the wire never mean one number.
pub fn nearest_keeps_apart()
    ensures { (top : Option ℕ) (v w : ℕ) → v < 65536 → w < 65536 → nearest top v ≡ nearest top w → v ≡ w }
{}
