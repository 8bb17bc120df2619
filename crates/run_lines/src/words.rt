//! Words of a line, and what they say.

ghost use Rattle.std.specs.Prelude.{◌≡◌, ◌≤◌, ◌↔◌, IfErr, IfOk, IsOk, IsSome};
ghost use Rattle.std.specs.IoError.{error_kind};

use std::io;
use std::io::{Error, ErrorKind};

/// What stands where there is nothing.
pub const NOTHING: &str = "-";

/// A line of no form, or one that can't be run.
pub fn bad() -> Error
    ensures { error_kind result ≡ ErrorKind.InvalidData }
{
    Error::from(ErrorKind::InvalidData)
}

/// There was no memory.
pub fn no_memory() -> Error
    ensures { error_kind result ≡ ErrorKind.OutOfMemory }
{
    Error::from(ErrorKind::OutOfMemory)
}

/// What a line acts on, where there is one.
pub fn there<T: Drop>(one: &mut Option<T>) -> io::Result<&mut T>
    ensures there { IsOk result ↔ IsSome one.old }
    ensures bad { IfErr result (λ error. error_kind error ≡ ErrorKind.InvalidData) }
{
    match one {
        Some(one) => Ok(one),
        None => Err(bad()),
    }
}

/// The first word of a text, and the text behind the space after it.
pub fn first_word(text: &str) -> (&str, &str) {
    text.split_once(' ').unwrap_or((text, ""))
}

/// The number that a word says in decimal, at most `most`.
pub fn number(word: &str, most: u64) -> io::Result<u64>
    ensures most { IfOk result (λ number. number ≤ most) }
    ensures bad { IfErr result (λ error. error_kind error ≡ ErrorKind.InvalidData) }
{
    let Ok(number) = word.parse::<u64>() else {
        return Err(bad());
    };
    if number <= most {
        Ok(number)
    } else {
        Err(bad())
    }
}

/// The number that the next word says in decimal, at most `most`, and the text behind it.
pub fn next(text: &str, most: u64) -> io::Result<(u64, &str)>
    ensures most { IfOk result (λ next. next.0 ≤ most) }
    ensures bad { IfErr result (λ error. error_kind error ≡ ErrorKind.InvalidData) }
{
    let (word, text) = first_word(text);
    Ok((number(word, most)?, text))
}
