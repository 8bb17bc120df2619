//! Laws of scripts. Each stands on a function that does nothing.

ghost use Rattle.std.specs.Prelude.{◌≡◌, ℕ, List, Ok, true};
ghost use Rattle.world_script.specs.Sample.{sample_of};
ghost use Rattle.world_script.specs.Script.{script_in};
ghost use Rattle.world_script.specs.World.{are_settings_first, first_scene, takes_all};
ghost use Rattle.world_script.specs.declared.extent.Extent.{Extent};
ghost use Rattle.world_script.specs.declared.kind.ScriptKind.{ScriptKind};
ghost use Rattle.world_script.specs.declared.line.Line.{Line};

/// The settings of a script that is read stand before its other lines.
#[tactic(auto, using(crate::proofs::ScriptLemmas::settings_first))]
pub fn settings_stand_first()
    ensures { (of : ScriptKind) (text : List ℕ) (lines : List Line) →
        script_in of text ≡ Ok lines → are_settings_first lines ≡ true }
{}

/// Whatever its seed and its extent, a sample begins with its settings, and the world surely takes
/// each of its lines.
#[tactic(auto, using(crate::proofs::SampleTaken::sample_settings, crate::proofs::SampleTaken::sample_taken))]
pub fn a_sample_is_taken()
    ensures settings { (seed : ℕ) (e : Extent) → are_settings_first (sample_of seed e) ≡ true }
    ensures taken { (seed : ℕ) (e : Extent) → takes_all first_scene (sample_of seed e) ≡ true }
{}
