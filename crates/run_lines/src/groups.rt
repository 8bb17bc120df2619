//! The groups of the standard input.

ghost use Rattle.std.specs.Prelude.{◌≡◌, IfErr};
ghost use Rattle.std.specs.IoError.{error_kind};

use crate::words::bad;
use std::io;
use std::io::ErrorKind;

/// What stands in front of the name of each group.
const NAME: &str = "\n== ";

/// The first line of a text, and what stands behind its line feed.
pub fn first_line(text: &str) -> io::Result<(&str, &str)>
    ensures { IfErr result (λ error. error_kind error ≡ ErrorKind.InvalidData) }
{
    text.split_once('\n').ok_or(bad())
}

/// Prints a title, and then for each group of the standard input its name, and what `tell` prints of its lines. A group
/// of which no line ends is bad.
pub fn tell_groups<R: Input + Print + AllocGlobal, F: Fn(&str) -> io::Result<()>>(
    rt: &R,
    title: &str,
    tell: F,
) -> io::Result<()>
    requires { F.IsAlwaysCallable tell }
{
    let text = io::read_to_string(rt.alloc(), rt.reader())?;
    println!(rt; "{title}")?;
    for group in text.split(NAME).skip(1) {
        let (name, lines) = first_line(group)?;
        println!(rt; "{NAME}{name}")?;
        tell(lines)?;
    }
    Ok(())
}
