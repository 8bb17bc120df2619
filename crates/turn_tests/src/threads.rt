//! Two passes that take turns one after the other, and on two threads at once.
ghost use Rattle.std.specs.Prelude.{◌≡◌, false, [], None};
ghost use Rattle.turn_cell.specs.Cell.{ArePassesOf, IsPassOf};

use gw_base::Counted;
use std::alloc::Global;
use std::process::Abort;
use std::sync::Wait;
use std::thread::{self, Threads};
use turn_cell::{Pass, Turn, TurnCell};

// A number that turns raise. It tells no lists.
#[derive(Drop)]
struct Tally {
    count: u64,
}

impl Counted for Tally {
    ghost told = { false };

    ghost facts = { λ tally. record {
      size = 0;
      name = [];
      faults = 0;
      cuts = 0;
      entries = tally.count;
      length = tally.count;
      list = [];
      firm = [];
      torn = [];
    } };

    fn length(&self) -> u64 {
        self.count
    }
}

// Raises the number by 1, under no session, and answers what it was.
#[derive(Drop)]
struct Raise;

impl Turn<Tally> for Raise {
    type Answer = u64;

    ghost session = { λ turn. None };

    ghost does = { λ turn found left answer drops added. answer ≡ found.count };

    fn run(self, value: &mut Tally) -> u64 {
        let found = value.count;
        value.count = found.saturating_add(1);
        found
    }
}

// Takes so many turns, and counts those behind which less was seen than the turn left.
fn raise_many<R: Wait>(rt: &R, cell: &TurnCell<Tally>, mut pass: Pass, count: u64) -> (u64, Pass)
    requires { IsPassOf cell.now pass }
    ensures { IsPassOf cell.now result.1 }
{
    let mut behind = 0u64;
    for _ in 0..count {
        let (found, taken) = cell.with(rt, pass, Raise);
        let (seen, looked) = cell.seen(taken);
        if seen <= found {
            behind = behind.wrapping_add(1);
        }
        pass = looked;
    }
    (behind, pass)
}

// Two passes at once.
fn two_at_once<R: Threads + Wait + Sync>(
    rt: &R,
    cell: &TurnCell<Tally>,
    a: Pass,
    b: Pass,
) -> (u64, Pass, Pass)
    requires { IsPassOf cell.now a × IsPassOf cell.now b }
    ensures { IsPassOf cell.now result.1 × IsPassOf cell.now result.2 }
{
    let (one, two) = thread::join(
        rt,
        move ||
            requires { IsPassOf cell.now a }
            ensures { IsPassOf cell.entry.now result.1 }
        { raise_many(rt, cell, a, 500) },
        move ||
            requires { IsPassOf cell.now b }
            ensures { IsPassOf cell.entry.now result.1 }
        { raise_many(rt, cell, b, 500) },
    );
    (one.0.wrapping_add(two.0), one.1, two.1)
}

// The next pass of a list.
fn last_of<R: Abort>(rt: &R, cell: &TurnCell<Tally>, passes: &mut Vec<Pass>) -> Pass
    requires { ArePassesOf cell.now passes.old.items }
    ensures pass { IsPassOf cell.now result }
    ensures others { ArePassesOf cell.now passes.new.items }
{
    let Some(pass) = passes.pop() else {
        panic!(rt; "no pass");
    };
    pass
}

// A cell with the number 7, and its two passes.
fn made<R: Abort>(rt: &R, alloc: Global) -> (TurnCell<Tally>, Vec<Pass>)
    ensures { ArePassesOf result.0 result.1.items }
{
    match TurnCell::new(alloc, Tally { count: 7 }, 2) {
        Ok(made) => made,
        Err(_) => panic!(rt; "no memory"),
    }
}

// Gives a pass back.
fn back<R: Abort>(rt: &R, cell: &TurnCell<Tally>, passes: &mut Vec<Pass>, pass: Pass)
    requires { ArePassesOf cell.now passes.old.items × IsPassOf cell.now pass }
    ensures { ArePassesOf cell.now passes.new.items }
{
    match passes.push(pass) {
        Ok(()) => {}
        Err(_) => panic!(rt; "no memory"),
    }
}

// The cell and the passes that come back where one pass of two is missing.
fn too_early<R: Abort>(
    rt: &R,
    cell: TurnCell<Tally>,
    passes: Vec<Pass>,
) -> (TurnCell<Tally>, Vec<Pass>)
    requires { ArePassesOf cell passes.items }
    ensures cell { result.0 ≡ cell }
    ensures passes { result.1 ≡ passes }
{
    match cell.finish(passes) {
        Ok(_) => panic!(rt; "ended with one pass"),
        Err((missing, cell, passes)) => {
            assert!(rt; missing.wanted == 2 && missing.given == 1);
            (cell, passes)
        }
    }
}

// The number that a cell ends with.
fn ended<R: Abort>(rt: &R, cell: TurnCell<Tally>, passes: Vec<Pass>) -> u64
    requires { ArePassesOf cell passes.items }
{
    match cell.finish(passes) {
        Ok(tally) => tally.count,
        Err(_) => panic!(rt; "not ended"),
    }
}

// The number that a cell ends with, and how often less was seen than should be. One pass of two is refused.
fn raised_by_two<R: Threads + Wait + Sync + Abort>(rt: &R, alloc: Global) -> (u64, u64) {
    let (cell, mut passes) = made(rt, alloc);
    let b = last_of(rt, &cell, &mut passes);
    let a = last_of(rt, &cell, &mut passes);
    let (alone, a) = raise_many(rt, &cell, a, 100);
    let (at_once, a, b) = two_at_once(rt, &cell, a, b);
    back(rt, &cell, &mut passes, a);
    let (cell, mut passes) = too_early(rt, cell, passes);
    back(rt, &cell, &mut passes, b);
    (ended(rt, cell, passes), alone.wrapping_add(at_once))
}

#[test]
fn turns_of_two_passes_come_one_at_a_time_and_a_cell_ends_with_both(rt: HostRuntime) {
    assert_eq!(rt; raised_by_two(&rt, rt.alloc()), (1107, 0));
}
