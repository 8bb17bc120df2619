// Worked values, computed by the definitions. Each function below does nothing: its contract is what is computed.
ghost use Rattle.std.specs.Prelude.{◌≡◌, ◌∷◌, []};
ghost use Rattle.replay_world.specs.Notices.{ShelfFaulted, Stopped};
ghost use Rattle.replay_world.specs.Worked.{entries_again, entries_opened, failure_armed, sealed_again, sealed_by_write, sealed_opened, shelf_failure_armed, shelf_stop_armed, stop_armed, told_by_commit, told_by_write};
ghost use Rattle.world_script.specs.declared.mode.Mode.TheVariants.{Old, New, Rot};

/// Before the third call nothing of a batch stands after a stop, and from it on what the stop kept.
fn a_stop_at_the_third_call_keeps_what_was_written()
    ensures early { entries_opened (stop_armed 2 New) ≡ (2, 1) ∷ [] }
    ensures old { entries_opened (stop_armed 3 Old) ≡ (2, 1) ∷ [] }
    ensures new { entries_opened (stop_armed 3 New) ≡ (3, 1) ∷ [] }
    ensures last { entries_opened (stop_armed 4 New) ≡ (3, 1) ∷ [] }
    ensures told { told_by_commit (stop_armed 3 New) ≡ Stopped 0 ∷ [] }
{}

/// A batch whose commit failed at the fourth call is found whole, and one that failed earlier is gone.
fn a_failure_at_the_fourth_call_is_found_whole()
    ensures early { entries_again (failure_armed 3) ≡ (2, 0) ∷ [] }
    ensures late { entries_again (failure_armed 4) ≡ (3, 0) ∷ [] }
{}

/// A stop at the last call of a write, the seal, leaves the file sealed where it keeps what was written, and at an
/// earlier call never. A file that wasn't sealed is written anew.
fn a_stop_of_a_shelf_as_worked()
    ensures early { sealed_by_write (shelf_stop_armed 6 New) ≡ 0 ∷ [] }
    ensures old { sealed_by_write (shelf_stop_armed 7 Old) ≡ 0 ∷ [] }
    ensures rot { sealed_by_write (shelf_stop_armed 7 Rot) ≡ 0 ∷ [] }
    ensures new { sealed_by_write (shelf_stop_armed 7 New) ≡ 1 ∷ [] }
    ensures told { told_by_write (shelf_stop_armed 7 New) ≡ Stopped 0 ∷ [] }
    ensures again { sealed_opened (shelf_stop_armed 7 Rot) ≡ 1 ∷ [] }
    ensures once { sealed_opened (shelf_stop_armed 7 New) ≡ 1 ∷ [] }
{}

/// A failure at the seal leaves the file unsealed until it is written anew, and one behind it isn't reached.
fn a_failure_of_a_shelf_as_worked()
    ensures fails { sealed_by_write (shelf_failure_armed 7) ≡ 0 ∷ [] }
    ensures told { told_by_write (shelf_failure_armed 7) ≡ ShelfFaulted 0 ∷ [] }
    ensures again { sealed_again (shelf_failure_armed 7) ≡ 1 ∷ [] }
    ensures beyond { told_by_write (shelf_failure_armed 8) ≡ [] }
{}

#[test]
fn worked_values_are_as_computed() {
    a_stop_at_the_third_call_keeps_what_was_written();
    a_failure_at_the_fourth_call_is_found_whole();
    a_stop_of_a_shelf_as_worked();
    a_failure_of_a_shelf_as_worked();
}
