//! Tables of cases.
//!
//! - `doubled KEY KEY ..`: the least of two or four keys that stands twice.
//! - `row KEY`: the row of the table `5 => 50, 1; 0 => 7, 2; 4294967295 => 9, 3` under this key.

use case_table::{Cases, Row, cases};
use run_lines::{first_word, number};
use std::io;

/// The greatest key.
const MOST_KEY: u64 = 4_294_967_295;

fn row_of(word: &str) -> io::Result<Row> {
    let key = number(word, MOST_KEY)? as u32;
    Ok(Row {
        key,
        value: 1,
        mark: 1,
    })
}

/// The rows of the next two keys, and the words behind them.
fn two_rows(words: &str) -> io::Result<([Row; 2], &str)> {
    let (first, words) = first_word(words);
    let (second, words) = first_word(words);
    let first = row_of(first)?;
    let second = row_of(second)?;
    Ok(([first, second], words))
}

pub(crate) fn doubled(rt: &HostRuntime, words: &str) -> io::Result<()> {
    let (front, words) = two_rows(words)?;
    if words.is_empty() {
        return print!(rt; "{:?}", Cases::of(front).err());
    }
    let ([third, fourth], _) = two_rows(words)?;
    let [first, second] = front;
    let rows = [first, second, third, fourth];
    print!(rt; "{:?}", Cases::of(rows).err())
}

pub(crate) fn row(rt: &HostRuntime, words: &str) -> io::Result<()> {
    let table = cases![5 => 50, 1; 0 => 7, 2; u32::MAX => 9, 3];
    let key = number(words, MOST_KEY)? as u32;
    print!(rt; "{:?}", table.find(key))
}
