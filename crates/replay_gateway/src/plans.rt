// Plans of a device: which of its calls fails, or stops it.
ghost use Rattle.std.specs.Prelude.{◌≡◌, [], ◌∷◌, IfOk, None, Some};

use area_disk::{Outcome3, Plan, Stop};
use gw_base::NoMemory;
use std::alloc::Global;

/// A plan by which nothing fails.
pub(crate) fn calm(alloc: Global) -> Plan
    ensures fail { result.fail.items ≡ [] }
    ensures read_fail { result.read_fail.items ≡ [] }
    ensures stop { result.stop ≡ None }
{
    Plan {
        fail: Vec::new(alloc),
        read_fail: Vec::new(alloc),
        stop: None,
    }
}

/// A plan by which the counted call with this number, from 1, fails. `NoMemory`: there was no memory for it.
pub fn failing(alloc: Global, call: u64) -> Result<Plan, NoMemory>
    ensures fail { IfOk result (λ plan. plan.fail.items ≡ call ∷ []) }
    ensures read_fail { IfOk result (λ plan. plan.read_fail.items ≡ []) }
    ensures stop { IfOk result (λ plan. plan.stop ≡ None) }
{
    let mut plan = calm(alloc);
    plan.fail.push(call)?;
    Ok(plan)
}

/// A plan by which the counted call with this number, from 1, stops the device, which leaves this of it.
pub fn stopping(alloc: Global, call: u64, outcome: Outcome3) -> Plan
    ensures fail { result.fail.items ≡ [] }
    ensures read_fail { result.read_fail.items ≡ [] }
    ensures stop { result.stop ≡ Some (record { call = call; outcome = outcome }) }
{
    let mut plan = calm(alloc);
    plan.stop = Some(Stop { call, outcome });
    plan
}
