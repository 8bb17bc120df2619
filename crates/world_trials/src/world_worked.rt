// Worked values, computed by the definitions. Each function below does nothing: its contract is what is computed.
ghost use Rattle.std.specs.Prelude.{◌≡◌, true, false, [], ◌∷◌, length};
ghost use Rattle.once_core.specs.Worked.{after, after_turns, answer_lost, copy_late, entries, octets_sent, opened_by_a_copy, packets, started_again};
ghost use Rattle.once_core.specs.declared.event.Event.TheVariants.{Tick};

/// A node that has just started asks each gateway whether it is alive.
fn a_tick_asks_who_is_alive()
    ensures sent { octets_sent (after 2 (Tick 1 ∷ []))
        ≡ (0x4E ∷ 4 ∷ 0 ∷ 7 ∷ 0 ∷ 0 ∷ 0xFB ∷ 0 ∷ 4 ∷ 10 ∷ 0 ∷ 1 ∷ 1 ∷ [])
        ∷ (0x4E ∷ 4 ∷ 0 ∷ 7 ∷ 0 ∷ 0 ∷ 0xFB ∷ 0 ∷ 4 ∷ 10 ∷ 0 ∷ 1 ∷ 1 ∷ []) ∷ [] }
    ensures counts { entries (after 2 (Tick 1 ∷ [])) ≡ (1, 0) ∷ (1, 0) ∷ [] }
{}

/// The answer to a plain copy is lost, and its duplicate is cancelled.
fn a_lost_answer_files_once()
    ensures entries { entries (after 2 answer_lost) ≡ (3, 0) ∷ (4, 0) ∷ [] }
    ensures packets { packets (after 2 answer_lost) ≡ (true, 1) ∷ [] }
    ensures messages { length (octets_sent (after 2 answer_lost)) ≡ 18 }
{}

/// A plain copy comes after its number was sealed, and its duplicate was released.
fn a_late_copy_files_once()
    ensures entries { entries (after 2 copy_late) ≡ (3, 0) ∷ (4, 0) ∷ [] }
    ensures packets { packets (after 2 copy_late) ≡ (true, 1) ∷ [] }
    ensures messages { length (octets_sent (after 2 copy_late)) ≡ 18 }
{}

/// A plain copy of an earlier start isn't delivered.
fn a_copy_of_an_earlier_start_is_expired()
    ensures entries { entries (after 2 started_again) ≡ (4, 0) ∷ (4, 0) ∷ [] }
    ensures packets { packets (after 2 started_again) ≡ (false, 0) ∷ (true, 1) ∷ [] }
    ensures messages { length (octets_sent (after 2 started_again)) ≡ 23 }
{}

/// At a broken gateway a message is asked for its start after the journal was opened again.
fn an_opening_again_comes_first()
    ensures entries { entries (after_turns 1 opened_by_a_copy) ≡ (3, 0) ∷ [] }
    ensures packets { packets (after_turns 1 opened_by_a_copy) ≡ (false, 0) ∷ [] }
{}

#[test]
fn worked_values_are_as_computed() {
    a_tick_asks_who_is_alive();
    a_lost_answer_files_once();
    a_late_copy_files_once();
    a_copy_of_an_earlier_start_is_expired();
    an_opening_again_comes_first();
}
