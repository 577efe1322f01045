//! What the words of a line ask.

use crate::command::{Command, Damage, Event, OfDisk, Question, Widths};
use crate::error::Why;
use crate::octets::octets_of;
use crate::verb::{Verb, verb_of};
use crate::words::{
    number_and_octets, one_number, small_number, span_of, two_and_octets, two_numbers,
};
use std::alloc::Global;

/// The most messages of a batch.
const MOST_MESSAGES: usize = 64;

/// Wide intervals of a day, and segments of a megabyte, or as words ask.
fn widths_of(words: &[&str]) -> Result<Widths, Why> {
    let plain = Widths {
        narrow: 300,
        limit: 1_048_576,
        wide: 86_400,
    };
    match words {
        [] => Ok(plain),
        ["small"] => Ok(Widths {
            limit: 65_535,
            ..plain
        }),
        ["hourly"] => Ok(Widths {
            wide: 3_600,
            ..plain
        }),
        [narrow, limit, wide] => Ok(Widths {
            narrow: small_number(narrow)?,
            limit: small_number(limit)?,
            wide: small_number(wide)?,
        }),
        _ => Err(Why::NoCommand),
    }
}

/// Messages, each of one word.
fn messages_of(alloc: Global, words: &[&str]) -> Result<Vec<Vec<u8>>, Why> {
    if words.is_empty() || words.len() > MOST_MESSAGES {
        return Err(Why::BatchCount);
    }
    let mut messages = Vec::new(alloc);
    for word in words {
        messages.push(octets_of(alloc, &[word])?)?;
    }
    Ok(messages)
}

/// The event that a verb asks, with the words after it.
fn event_of(alloc: Global, verb: Verb, words: &[&str]) -> Result<Event, Why> {
    match (verb, words) {
        (Verb::Append, message) => Ok(Event::Append(octets_of(alloc, message)?)),
        (Verb::Batch, messages) => Ok(Event::Batch(messages_of(alloc, messages)?)),
        (Verb::Seal, []) => Ok(Event::Seal),
        (Verb::Roll, [count]) => Ok(Event::Roll(small_number(count)?)),
        (Verb::Merge, [count]) => Ok(Event::Merge(small_number(count)?)),
        (Verb::Step, []) => Ok(Event::RollStep),
        (Verb::Write, []) => Ok(Event::Write),
        (Verb::Install, []) => Ok(Event::Install),
        (Verb::Give, ["up"]) => Ok(Event::GiveUp),
        (Verb::Retire, []) => Ok(Event::Retire),
        _ => Err(Why::NoCommand),
    }
}

/// The question that words ask.
fn question_of(alloc: Global, words: &[&str]) -> Result<Question, Why> {
    match words {
        ["totals", span @ ..] => Ok(Question::Totals(span_of(span)?)),
        ["flows", span @ ..] => Ok(Question::Flows(span_of(span)?)),
        ["message", message @ ..] => {
            let (n, octets) = number_and_octets(alloc, message)?;
            Ok(Question::Message(n, octets))
        }
        ["counts"] => Ok(Question::Counts),
        ["summary"] => Ok(Question::Summary),
        _ => Err(Why::NoCommand),
    }
}

/// What a verb asks of a disk, with the words after it; none where it asks nothing of it.
fn of_disk(alloc: Global, verb: Verb, words: &[&str]) -> Result<Option<OfDisk>, Why> {
    Ok(Some(match verb {
        Verb::Put => {
            let (file, at, octets) = two_and_octets(alloc, words)?;
            OfDisk::Put(file, at, octets)
        }
        Verb::Fill => {
            let (from, to, octets) = two_and_octets(alloc, words)?;
            OfDisk::Fill(from, to, octets)
        }
        Verb::Cut => {
            let (file, count) = two_numbers(words)?;
            OfDisk::Cut(file, count)
        }
        Verb::Remove => OfDisk::Remove(one_number(words)?),
        Verb::File => {
            let (file, octets) = number_and_octets(alloc, words)?;
            OfDisk::File(file, octets)
        }
        Verb::Length => OfDisk::Length(one_number(words)?),
        Verb::Files if words.is_empty() => OfDisk::Files,
        _ => return Ok(None),
    }))
}

/// Octets in place of those of a file.
fn damage_of(alloc: Global, words: &[&str]) -> Result<Damage, Why> {
    let (file, at, octets) = two_and_octets(alloc, words)?;
    Ok(Damage { file, at, octets })
}

/// What a verb asks, with the words after it.
fn asked_by(alloc: Global, verb: Verb, words: &[&str]) -> Result<Command, Why> {
    match (verb, words) {
        (Verb::Create, sizes) => Ok(Command::Create(widths_of(sizes)?)),
        (Verb::Open, []) => Ok(Command::Open),
        (Verb::See, question) => Ok(Command::See(question_of(alloc, question)?)),
        (Verb::Held, question) => Ok(Command::SeeHeld(question_of(alloc, question)?)),
        (Verb::Hold, []) => Ok(Command::Hold),
        (Verb::Let, ["go"]) => Ok(Command::LetGo),
        (Verb::State, []) => Ok(Command::State),
        (Verb::Room, octets) => Ok(Command::Room(one_number(octets)?)),
        (Verb::Status, []) => Ok(Command::Status),
        (Verb::Roll, ["turn", keep]) => Ok(Command::RollTurn(small_number(keep)?)),
        (Verb::Merge, ["turn", keep]) => Ok(Command::MergeTurn(small_number(keep)?)),
        (Verb::Refresh, []) => Ok(Command::Refresh),
        (Verb::Damage, damage) => Ok(Command::Damage(damage_of(alloc, damage)?)),
        _ => Ok(Command::Event(event_of(alloc, verb, words)?)),
    }
}

/// What words ask.
pub(crate) fn command_of(alloc: Global, words: &[&str]) -> Result<Command, Why> {
    let Some((first, others)) = words.split_first() else {
        return Err(Why::NoCommand);
    };
    let Some(verb) = verb_of(first) else {
        return Err(Why::NoCommand);
    };
    match of_disk(alloc, verb, others)? {
        Some(asked) => Ok(Command::Disk(asked)),
        None => asked_by(alloc, verb, others),
    }
}
