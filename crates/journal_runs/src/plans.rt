//! What is armed: `CALLS READS`, or `CALLS READS CALL OUTCOME`. The counted calls of the first list fail and the reads of
//! the second, and the call CALL stops and leaves what its outcome says: `old`, `new` or `rot`.

use crate::words::{MOST, numbers};
use area_disk::{Outcome3, Plan, Stop};
use run_lines::{bad, first_word, number};
use std::alloc::Global;
use std::io;

/// The plan of which nothing comes.
pub(crate) fn no_plan(alloc: Global) -> Plan {
    Plan {
        fail: Vec::new(alloc),
        read_fail: Vec::new(alloc),
        stop: None,
    }
}

pub(crate) fn plan_of(alloc: Global, words: &str) -> io::Result<Plan> {
    let (fail, words) = first_word(words);
    let (read_fail, words) = first_word(words);
    let fail = numbers(alloc, fail)?;
    let read_fail = numbers(alloc, read_fail)?;
    let stop = stop_of(words)?;
    Ok(Plan {
        fail,
        read_fail,
        stop,
    })
}

fn stop_of(words: &str) -> io::Result<Option<Stop>> {
    let (call, outcome) = first_word(words);
    if call.is_empty() {
        return Ok(None);
    }
    let call = number(call, MOST)?;
    let outcome = outcome_of(outcome)?;
    Ok(Some(Stop { call, outcome }))
}

pub(crate) fn outcome_of(word: &str) -> io::Result<Outcome3> {
    match word {
        "old" => Ok(Outcome3::Old),
        "new" => Ok(Outcome3::New),
        "rot" => Ok(Outcome3::Rot),
        _ => Err(bad()),
    }
}
