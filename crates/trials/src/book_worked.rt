// Worked values, computed by the definitions. Each function below does nothing: its contract is what is computed.
ghost use Rattle.std.specs.Prelude.{◌≡◌, [], ◌∷◌, length};
ghost use Rattle.gtpp_message.specs.Message.{Cancel, Possible, Release, Send};
ghost use Rattle.gtpp_message.specs.Packet.{Empty};
ghost use Rattle.path_mgmt.specs.declared.event.PathEvent.TheVariants.{EchoTold};
ghost use Rattle.gateway_answer.specs.Filed.{filed};
ghost use Rattle.gateway_answer.specs.Preparing.{Path, Request};
ghost use Rattle.gateway_answer.specs.Worked.{causes, just_started, one_record, played};

/// The commands that send, at numbers of each state.
fn sends_are_answered_by_the_state()
    ensures again { causes 16777216 just_started (Request 0 (Send one_record) ∷ Request 0 (Send one_record) ∷ [])
        ≡ 128 ∷ 253 ∷ [] }
    ensures tested { causes 16777216 just_started (Request 0 (Possible Empty) ∷ Request 0 (Possible Empty)
        ∷ Request 0 (Send one_record) ∷ []) ≡ 128 ∷ 128 ∷ 255 ∷ [] }
    ensures then_tested { causes 16777216 just_started (Request 0 (Send one_record) ∷ Request 0 (Possible Empty) ∷ [])
        ≡ 128 ∷ 253 ∷ [] }
    ensures around { causes 16777216 just_started (Request 0 (Send one_record) ∷ Request 65535 (Send one_record)
        ∷ Request 1 (Send one_record) ∷ Request 65534 (Send one_record) ∷ []) ≡ 128 ∷ 128 ∷ 128 ∷ 128 ∷ [] }
{}

/// A possible duplicate is held, released once, and filed once.
fn held_packets_are_released_once()
    ensures causes { causes 16777216 just_started (Request 7 (Possible one_record) ∷ Request 8 (Release (7 ∷ []))
        ∷ Request 9 (Release (7 ∷ [])) ∷ Request 10 (Cancel (7 ∷ [])) ∷ []) ≡ 128 ∷ 128 ∷ 252 ∷ 254 ∷ [] }
    ensures filed { length (filed (played 16777216 just_started
        (Request 7 (Possible one_record) ∷ Request 8 (Release (7 ∷ [])) ∷ []))) ≡ 1 }
    ensures wrong { causes 16777216 just_started (Request 7 (Possible one_record) ∷ Request 8 (Release (7 ∷ 8 ∷ []))
        ∷ Request 9 (Release []) ∷ []) ≡ 128 ∷ 254 ∷ 254 ∷ [] }
{}

/// Where no octet of room is left, what is held can still be released.
fn a_release_has_room_where_a_test_has_none()
    ensures { causes 234 just_started (Request 7 (Possible one_record) ∷ Request 8 (Possible Empty)
        ∷ Request 9 (Possible Empty) ∷ Request 10 (Release (7 ∷ [])) ∷ []) ≡ 128 ∷ 128 ∷ 199 ∷ 128 ∷ [] }
{}

/// A changed restart counter opens an epoch, in which the numbers are fresh.
fn a_changed_counter_opens_an_epoch()
    ensures numbers { causes 16777216 just_started (Path (EchoTold 3 5) ∷ Request 0 (Send one_record)
        ∷ Path (EchoTold 4 6) ∷ Request 0 (Send one_record) ∷ []) ≡ 0 ∷ 128 ∷ 0 ∷ 128 ∷ [] }
    ensures entries { length (played 16777216 just_started
        (Path (EchoTold 3 5) ∷ Path (EchoTold 3 5) ∷ Path (EchoTold 4 6) ∷ [])) ≡ 3 }
{}

#[test]
fn worked_values_are_as_computed() {
    sends_are_answered_by_the_state();
    held_packets_are_released_once();
    a_release_has_room_where_a_test_has_none();
    a_changed_counter_opens_an_epoch();
}
