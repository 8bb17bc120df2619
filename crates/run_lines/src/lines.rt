//! The lines of a group, each with what it is answered.

use crate::groups::tell_groups;
use std::io;

/// What answers the lines of a group, from what the lines before left.
pub trait Answer<R>: Drop + Sized {
    /// What there is before the first line of a group.
    fn begin(rt: &R) -> io::Result<Self>;

    /// Prints what a line is answered, without a line feed.
    fn answer(&mut self, rt: &R, line: &str) -> io::Result<()>;
}

/// Prints a title, and then for each group of the standard input its name, and each of its lines with what it is
/// answered.
pub fn tell_lines<S: Answer<R>, R: Input + Print + AllocGlobal>(
    rt: &R,
    title: &str,
) -> io::Result<()> {
    tell_groups(rt, title, |lines| tell_group::<S, R>(rt, lines))
}

/// Prints each line of a group with what it is answered.
fn tell_group<S: Answer<R>, R: Print>(rt: &R, lines: &str) -> io::Result<()> {
    let mut scene = S::begin(rt)?;
    for line in lines.lines() {
        print!(rt; "{line} => ")?;
        scene.answer(rt, line)?;
        println!(rt; "")?;
    }
    Ok(())
}
