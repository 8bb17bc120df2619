//! A law of the definitions that [`decide`](crate::decide) and [`judge`](crate::judge) cite.

ghost use Rattle.std.specs.Prelude.{◌≡◌, ◌↔◌, Some};
ghost use Rattle.gw_base.specs.declared.key_state.KeyState.{KeyState};
ghost use Rattle.transfer_cmd.specs.Lists.{verdict_cause};
ghost use Rattle.transfer_cmd.specs.Table.{answer_cause, state_given};
ghost use Rattle.transfer_cmd.specs.declared.decision.Ask.{Ask};
ghost use Rattle.transfer_cmd.specs.declared.verdict.Verdict.{Verdict};

use gw_base::cause::ACCEPTED;

/// An answer that calls for an entry is Request accepted; of a list it is so just where it does.
pub fn an_entry_is_accepted()
    ensures sent { (ask : Ask) (state given : KeyState) →
        state_given ask state ≡ Some given → answer_cause ask state ≡ ACCEPTED }
    ensures listed { (verdict : Verdict) →
        (verdict_cause verdict ≡ ACCEPTED) ↔ (verdict ≡ Verdict.Change) }
{}
