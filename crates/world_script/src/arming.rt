// Lines that arm a gateway's area or its shelf for a stop or a failure.
ghost use Rattle.std.specs.Prelude.{◌≡◌, ℕ, map};
ghost use Rattle.world_script.specs.declared.line.Line.TheVariants as line;
ghost use Rattle.world_script.specs.Saying.{arm_on, arm_said, fail_on, fail_said, said_as};

use crate::fault::InputKind;
use crate::line::Line;
use crate::mode::Mode;
use crate::values::{any_number, mode, number_between};

/// `arm G K MODE`
pub fn arm(words: &[&[u8]]) -> Result<Line, InputKind>
    ensures { result ≡ arm_said line.Arm (map (λ word. word.now) words.now) }
{
    let (gateway, call, mode) = stop(words)?;
    Ok(Line::Arm {
        gateway,
        call,
        mode,
    })
}

/// `armshelf G K MODE`
pub fn arm_shelf(words: &[&[u8]]) -> Result<Line, InputKind>
    ensures { result ≡ arm_said line.ArmShelf (map (λ word. word.now) words.now) }
{
    let (gateway, call, mode) = stop(words)?;
    Ok(Line::ArmShelf {
        gateway,
        call,
        mode,
    })
}

/// The words of a stop: a gateway, a call from 1, and a mode.
#[tactic(auto, using(crate::proofs::ArityLemmas::arm_other, crate::proofs::ArityLemmas::arm_three))]
fn stop(words: &[&[u8]]) -> Result<(u64, u64, Mode), InputKind>
    ensures { (arms : ℕ → ℕ → Mode → Line) → said_as (λ w. arms w.0 w.1 w.2) result
        ≡ arm_said arms (map (λ word. word.now) words.now) }
{
    if words.len() != 3 {
        return Err(InputKind::Arity);
    }
    stop_in(words[0], words[1], words[2])
}

fn stop_in(gateway: &[u8], call: &[u8], left: &[u8]) -> Result<(u64, u64, Mode), InputKind>
    ensures { (arms : ℕ → ℕ → Mode → Line) → said_as (λ w. arms w.0 w.1 w.2) result
        ≡ arm_on arms gateway.now call.now left.now }
{
    let gateway = any_number(gateway).ok_or(InputKind::Number)?;
    let call = number_between(1, u64::MAX, call).ok_or(InputKind::Number)?;
    match mode(left) {
        Some(mode) => Ok((gateway, call, mode)),
        None => Err(InputKind::Number),
    }
}

/// `fail G K`
pub fn fail(words: &[&[u8]]) -> Result<Line, InputKind>
    ensures { result ≡ fail_said line.Fail (map (λ word. word.now) words.now) }
{
    let (gateway, call) = failure(words)?;
    Ok(Line::Fail { gateway, call })
}

/// `failshelf G K`
pub fn fail_shelf(words: &[&[u8]]) -> Result<Line, InputKind>
    ensures { result ≡ fail_said line.FailShelf (map (λ word. word.now) words.now) }
{
    let (gateway, call) = failure(words)?;
    Ok(Line::FailShelf { gateway, call })
}

/// The words of a failure: a gateway, and a call from 1.
#[tactic(auto, using(crate::proofs::ArityLemmas::fail_other, crate::proofs::ArityLemmas::fail_two))]
fn failure(words: &[&[u8]]) -> Result<(u64, u64), InputKind>
    ensures { (fails : ℕ → ℕ → Line) → said_as (λ w. fails w.0 w.1) result
        ≡ fail_said fails (map (λ word. word.now) words.now) }
{
    if words.len() != 2 {
        return Err(InputKind::Arity);
    }
    failure_in(words[0], words[1])
}

fn failure_in(gateway: &[u8], call: &[u8]) -> Result<(u64, u64), InputKind>
    ensures { (fails : ℕ → ℕ → Line) → said_as (λ w. fails w.0 w.1) result
        ≡ fail_on fails gateway.now call.now }
{
    let gateway = any_number(gateway).ok_or(InputKind::Number)?;
    match number_between(1, u64::MAX, call) {
        Some(call) => Ok((gateway, call)),
        None => Err(InputKind::Number),
    }
}
