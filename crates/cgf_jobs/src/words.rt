//! The words of the command line: none of them may be an option, and `clap` tells the command's name from its values.

ghost use Rattle.std.specs.Prelude.{◌≡◌, false, IfErr, IfOk, map, string_bytes};
ghost use Rattle.std.specs.List.{list_any};
ghost use Rattle.clap.specs.Words.{app_of, found_of, kind_of, rows_of};
ghost use Rattle.cgf_jobs.specs.Words.{found_in, is_option, words_app};

use clap::error::ErrorKind;
use clap::{Arg, ArgAction, ArgMatches, Command, Error};
use std::alloc::{AllocError, Global};

/// Whether a word is an option: it begins with a minus sign, and isn't that sign alone, which names the standard input.
pub fn is_option(word: &[u8]) -> bool
    ensures { result ≡ is_option word.now }
{
    match word {
        [] | [_] => false,
        [first, ..] => *first == b'-',
    }
}

/// Whether any of the words is an option.
pub fn has_option(words: &[String]) -> bool
    ensures { result ≡ list_any (λ word. is_option (string_bytes word)) words.now }
{
    words.iter().any(|word| is_option(word.as_bytes()))
}

/// What the words are parsed by: a command's name, and any number of values. There is no help and no version.
fn parser<'a>(alloc: Global) -> Result<Command<'a>, AllocError>
    ensures { IfOk result (λ command. app_of command ≡ words_app) }
{
    let name = Arg::new(alloc, "COMMAND");
    let values = Arg::new(alloc, "VALUES").action(ArgAction::Append);
    Command::new(alloc, "cgf")
        .no_binary_name(true)
        .disable_help_flag(true)
        .disable_version_flag(true)
        .arg(name)?
        .arg(values)
}

/// The command's name and its values, of words that are no options. A parse is refused for want of memory alone.
pub fn parse<'a>(alloc: Global, words: &'a [String]) -> Result<ArgMatches<'a>, Error>
    requires { list_any (λ word. is_option (string_bytes word)) words.now ≡ false }
    ensures found { IfOk result (λ matches. rows_of (found_of matches) ≡ found_in (map string_bytes words.now)) }
    ensures memory { IfErr result (λ error. kind_of error ≡ ErrorKind.OutOfMemory) }
{
    parser(alloc)?.try_get_matches_from(words)
}
