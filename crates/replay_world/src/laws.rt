//! Laws of replays. Each stands on a function that does nothing.

ghost use Rattle.std.specs.Prelude.{◌≡◌, ◌≤◌, ℕ, List, None, Ok, false, true};
ghost use Rattle.gateway_answer.specs.Items.{items_of};
ghost use Rattle.std.specs.List.{list_any};
ghost use Rattle.once_core.specs.Gateway.{Gateway};
ghost use Rattle.once_core.specs.Once.{Once};
ghost use Rattle.once_core.specs.StandsOnce.{StandsOnce};
ghost use Rattle.once_core.specs.Turn.{turns};
ghost use Rattle.replay_world.specs.Lines.{line_after, refusal_of_line, settled, turns_of};
ghost use Rattle.replay_gateway.specs.GatewayReport.{book_of, gateway_report, gateway_text};
ghost use Rattle.replay_world.specs.Report.{lines_after, refused_from, refusal_of_lines, replayed, turns_from, turns_of_lines};
ghost use Rattle.replay_world.specs.Settled.{AreRead, AreWritten, HasPlayedOut, HaveMachines, StandInFiles};
ghost use Rattle.replay_gateway.specs.AtRest.{IsAllWritten};
ghost use Rattle.replay_gateway.specs.Setup.{Setup, files_in, rules_in, setup_of};
ghost use Rattle.replay_world.specs.Taken.{Allows, IsAsSaid};
ghost use Rattle.replay_gateway.specs.Machine.{Machine};
ghost use Rattle.replay_world.specs.Value.{ReplayValue, begun, replay_of};
ghost use Rattle.replay_world.specs.declared.replay.Played.{Played};
ghost use Rattle.world_script.specs.Sample.{sample_of};
ghost use Rattle.world_script.specs.Script.{is_setting_line, script_in};
ghost use Rattle.world_script.specs.World.{Scene, after_line, are_settings_first, first_scene, takes, takes_all};
ghost use Rattle.world_script.specs.declared.extent.Extent.{Extent};
ghost use Rattle.world_script.specs.declared.kind.ScriptKind.{ScriptKind};
ghost use Rattle.world_script.specs.declared.line.Line.{Line};

use replay_gateway::laws::{
    a_gateway_that_wrote_all_rests, no_file_is_open_where_no_close_is_due,
    what_a_gateway_at_rest_filed_is_read,
};

/// A line moves the world as its turns do, and lines as theirs, one after the other. Settings stay.
#[tactic(auto, using(crate::proofs::LineLemmas::line_world, crate::proofs::LineLemmas::line_setup, crate::proofs::LineLemmas::lines_world))]
pub fn a_line_is_its_turns()
    ensures line { (v : ReplayValue) (said : Line) →
        (line_after v said).world ≡ turns (rules_in v.setup) v.world (turns_of v said) }
    ensures lines { (v : ReplayValue) (lines : List Line) →
        (lines_after v lines).world ≡ turns (rules_in v.setup) v.world (turns_from v lines) }
    ensures setup { (v : ReplayValue) (said : Line) → (line_after v said).setup ≡ v.setup }
{}

/// Whatever the lines of a replay are and whatever they arm, each record of each packet that its node
/// ever resolved is filed once by all gateways together, and each record of any other packet at most
/// once. So it is of the places at which they stand in the files of all gateways, and these files have them there.
pub fn a_replay_files_each_record_once()
    ensures filed { (setup : Setup) (lines : List Line) → 1 ≤ setup.gateways →
        Once (lines_after (begun setup) lines).world }
    ensures stands { (setup : Setup) (lines : List Line) → 1 ≤ setup.gateways →
        StandsOnce (files_in setup) (lines_after (begun setup) lines).world }
    ensures there { (setup : Setup) (lines : List Line) →
        StandInFiles (files_in setup) (lines_after (begun setup) lines).world }
{
    once_core::world_laws::turns_reach_worlds();
    once_core::world_laws::each_record_is_filed_once();
    once_core::world_laws::each_record_stands_once();
    once_core::world_laws::what_stands_at_a_place_was_filed();
    a_line_is_its_turns();
}

/// After a settling each gateway runs, its whole history is firm and written, and no file is open: the files that are
/// sealed have all records that it filed. What is reported of it are the files that all its items make. Each gateway of
/// a replay has a machine.
pub fn a_settling_writes_all_files()
    ensures written { (v : ReplayValue) → HaveMachines v → AreWritten (settled v) }
    ensures reports { (setup : Setup) (place : ℕ) (g : Gateway) (m : Machine) →
        IsAllWritten (files_in setup place) g m →
        gateway_text setup place g m ≡ gateway_report setup place (items_of g.book.firm) (book_of g) }
    ensures machines { (setup : Setup) (lines : List Line) → HaveMachines (lines_after (begun setup) lines) }
{
    no_file_is_open_where_no_close_is_due();
    a_gateway_that_wrote_all_rests();
}

/// What a world surely takes, as the lines before it say, isn't refused: neither the line nor any of
/// its turns. So it is line by line in a replay that is as the scene says, whatever failures are armed
/// there, and of a whole script from its beginning, where its settings stand before its other lines.
pub fn what_a_world_surely_takes_is_not_refused()
    ensures line { (s : Scene) (v : ReplayValue) (said : Line) →
        IsAsSaid s v → is_setting_line said ≡ false → takes s said ≡ true → refusal_of_line v said ≡ None }
    ensures turns { (s : Scene) (v : ReplayValue) (said : Line) →
        IsAsSaid s v → is_setting_line said ≡ false → takes s said ≡ true →
        Allows (rules_in v.setup) v.world (turns_of v said) }
    ensures after { (s : Scene) (v : ReplayValue) (said : Line) →
        IsAsSaid s v → is_setting_line said ≡ false → takes s said ≡ true →
        IsAsSaid (after_line s said) (line_after v said) }
    ensures lines { (s : Scene) (v : ReplayValue) (place : ℕ) (lines : List Line) →
        IsAsSaid s v → list_any is_setting_line lines ≡ false → takes_all s lines ≡ true →
        refused_from place v lines ≡ None }
    ensures script { (lines : List Line) → are_settings_first lines ≡ true → takes_all first_scene lines ≡ true →
        refusal_of_lines lines ≡ None }
    ensures script_turns { (lines : List Line) → are_settings_first lines ≡ true → takes_all first_scene lines ≡ true →
        Allows (rules_in (setup_of lines)) (replay_of lines).world (turns_of_lines lines) }
{}

/// The world refuses no line of a sample, and none of its turns.
pub fn no_line_of_a_sample_is_refused()
    ensures lines { (seed : ℕ) (e : Extent) → refusal_of_lines (sample_of seed e) ≡ None }
    ensures turns { (seed : ℕ) (e : Extent) →
        Allows (rules_in (setup_of (sample_of seed e))) (replay_of (sample_of seed e)).world
        (turns_of_lines (sample_of seed e)) }
{
    world_script::laws::a_sample_is_taken();
    what_a_world_surely_takes_is_not_refused();
}

/// Each record that the gateways of a script filed is read at its place, in the files that are handed out once nothing
/// is left to do.
pub fn what_is_handed_out_is_read()
    ensures { (of : ScriptKind) (text : List ℕ) (lines : List Line) (played : Played) →
        script_in of text ≡ Ok lines → HasPlayedOut (replayed lines) played →
        AreRead (files_in (setup_of lines)) (replayed lines).world played.shelves.items }
{
    what_a_gateway_at_rest_filed_is_read();
}
