//! Numbers, and the words that have them.

use crate::command::Span;
use crate::error::Why;
use crate::octets::octets_of;
use std::alloc::Global;

/// After each start.
const NEVER: u64 = 1 << 32;

/// A number.
pub(crate) fn number(word: &str) -> Result<u64, Why> {
    match word.parse::<u64>() {
        Ok(number) => Ok(number),
        Err(_) => Err(Why::NoNumber),
    }
}

/// A number of 32 bits.
pub(crate) fn small_number(word: &str) -> Result<u32, Why> {
    match word.parse::<u32>() {
        Ok(number) => Ok(number),
        Err(_) => Err(Why::NoNumber),
    }
}

/// The number that words are.
pub(crate) fn one_number(words: &[&str]) -> Result<u64, Why> {
    match words {
        [word] => number(word),
        _ => Err(Why::NoCommand),
    }
}

/// The two numbers that words are.
pub(crate) fn two_numbers(words: &[&str]) -> Result<(u64, u64), Why> {
    match words {
        [first, second] => Ok((number(first)?, number(second)?)),
        _ => Err(Why::NoCommand),
    }
}

/// The number that words begin with, and the octets that follow.
pub(crate) fn number_and_octets(alloc: Global, words: &[&str]) -> Result<(u64, Vec<u8>), Why> {
    match words {
        [word, octets @ ..] => Ok((number(word)?, octets_of(alloc, octets)?)),
        _ => Err(Why::NoCommand),
    }
}

/// The two numbers that words begin with, and the octets that follow.
pub(crate) fn two_and_octets(alloc: Global, words: &[&str]) -> Result<(u64, u64, Vec<u8>), Why> {
    match words {
        [first, second, octets @ ..] => Ok((
            number(first)?,
            number(second)?,
            octets_of(alloc, octets)?,
        )),
        _ => Err(Why::NoCommand),
    }
}

/// The span that words give, or all seconds.
pub(crate) fn span_of(words: &[&str]) -> Result<Span, Why> {
    if words.is_empty() {
        return Ok(Span { from: 0, to: NEVER });
    }
    let (from, to) = two_numbers(words)?;
    Ok(Span { from, to })
}
