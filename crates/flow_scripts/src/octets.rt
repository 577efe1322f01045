//! Octets by the names of messages or in hexadecimal digits.

use crate::error::Why;
use crate::words::number;
use hex::FromHexError;
use std::alloc::Global;

/// The most octets of a line.
const MOST_OCTETS: usize = 1_048_576;

/// Messages by their names, and some Sets, in hexadecimal digits.
const MESSAGES: [(&str, &str); 19] = [
    // a template of elements 150, 4, 1 and 2, and a flow
    (
        "plain",
        "000A0039 6553F100 00000000 00000007 00020018 01000004 00960004 00040001 00010004 00020004 01000011 6553F100 \
         06 000005DC 0000000A",
    ),
    // without its last octet
    (
        "cut",
        "000A0039 6553F100 00000000 00000007 00020018 01000004 00960004 00040001 00010004 00020004 01000011 6553F100 \
         06 000005DC 000000",
    ),
    // its template
    (
        "template",
        "000A0028 6553F100 00000000 00000007 00020018 01000004 00960004 00040001 00010004 00020004",
    ),
    // the same, after its flow
    (
        "restated",
        "000A0028 6553F100 00000001 00000007 00020018 01000004 00960004 00040001 00010004 00020004",
    ),
    // its template, and a Set whose Length is 3
    (
        "faulty",
        "000A002C 6553F100 00000000 00000007 00020018 01000004 00960004 00040001 00010004 00020004 00040003",
    ),
    // the Set of its template
    (
        "fields",
        "00020018 01000004 00960004 00040001 00010004 00020004",
    ),
    // the Sets of the head of a rolled file
    (
        "head",
        "00020038 01000006 00980008 00990008 00040001 01780008 00010008 00020008 01010005 00980008 00990008 01780008 \
         00010008 00020008 00030012 01020002 00010091 00020180 0001 0102000A 0100 01 0101 01",
    ),
    // its flow
    (
        "record",
        "000A0021 6553F100 00000000 00000007 01000011 6553F100 06 000005DC 0000000A",
    ),
    // the same flow a minute later, 400 and 460 seconds later, and 800 seconds earlier
    (
        "second",
        "000A0021 6553F13C 00000001 00000007 01000011 6553F13C 06 000005DC 0000000A",
    ),
    (
        "third",
        "000A0021 6553F290 00000002 00000007 01000011 6553F290 06 000005DC 0000000A",
    ),
    (
        "fourth",
        "000A0021 6553F2CC 00000003 00000007 01000011 6553F2CC 06 000005DC 0000000A",
    ),
    (
        "fifth",
        "000A0021 6553F2CC 00000004 00000007 01000011 6553F2CC 06 000005DC 0000000A",
    ),
    (
        "earlier",
        "000A0021 6553EDE0 00000004 00000007 01000011 6553EDE0 06 000005DC 0000000A",
    ),
    // the template with octets in 8 octets, and a flow a minute later
    (
        "redefined",
        "000A003D 6553F13C 00000001 00000007 00020018 01000004 00960004 00040001 00010008 00020004 01000015 6553F13C \
         06 00000000000005DC 0000000A",
    ),
    // a withdrawal of all templates
    (
        "withdrawal",
        "000A0018 6553F100 00000001 00000007 00020008 00020000",
    ),
    // two records of the greatest count of octets there is
    (
        "greatest",
        "000A0030 6553F100 00000000 00000007 0002000C 01000001 00010008 01000014 FFFFFFFFFFFFFFFF FFFFFFFFFFFFFFFF",
    ),
    // without Sets
    ("bare", "000A0010 6553F100 00000000 00000007"),
    // as long as a message can be: one Set of a reserved ID
    (
        "longest",
        "000AFFFF 6553F100 00000000 00000007 0004FFEF 00*65515",
    ),
    // one template more
    (
        "another",
        "000A001C 6553F100 00000000 00000007 0002000C 20000001 00010004",
    ),
];

/// The digits that a word means: those of the message with this name, else itself.
fn meant(word: &str) -> &str {
    for (name, digits) in &MESSAGES {
        if *name == word {
            return digits;
        }
    }
    word
}

/// Adds octets after others.
fn add(octets: &mut Vec<u8>, more: &[u8]) -> Result<(), Why> {
    if more.len() > MOST_OCTETS.saturating_sub(octets.len()) {
        return Err(Why::TooManyOctets);
    }
    octets.extend_from_slice(more)?;
    Ok(())
}

/// The octets of hexadecimal digits, at least one.
fn decoded(alloc: Global, digits: &str) -> Result<Vec<u8>, Why> {
    match hex::decode(alloc, digits) {
        Ok(octets) => {
            if octets.is_empty() {
                return Err(Why::NoOctets);
            }
            Ok(octets)
        }
        Err(FromHexError::OutOfMemory) => Err(Why::OutOfMemory),
        Err(_) => Err(Why::NoOctets),
    }
}

/// Adds the octets of hexadecimal digits, as often as the number after a star says, else once.
fn add_digits(alloc: Global, octets: &mut Vec<u8>, digits: &str) -> Result<(), Why> {
    let (once, count) = digits.split_once("*").unwrap_or((digits, "1"));
    let once = decoded(alloc, once)?;
    for _ in 0..number(count)? {
        add(octets, &once)?;
    }
    Ok(())
}

/// Adds a message that defines Templates 256 to 7,755, of one field each: 60,000 octets, the most that a domain may
/// have.
fn add_templates(octets: &mut Vec<u8>) -> Result<(), Why> {
    add(
        octets,
        &[
            0, 10, 0xEA, 0x74, 0x65, 0x53, 0xF1, 0, 0, 0, 0, 0, 0, 0, 0, 7,
        ],
    )?;
    add(octets, &[0, 2, 0xEA, 0x64])?;
    for id in 256..7_756u16 {
        add(octets, &id.to_be_bytes())?;
        add(octets, &[0, 1, 0, 1, 0, 4])?;
    }
    Ok(())
}

/// Adds the entries of 4,095 sealed segments of a message without Sets each, in the files from 3 on.
fn add_entries(octets: &mut Vec<u8>) -> Result<(), Why> {
    for file in 3..4_098u64 {
        add(octets, &[0, 0, 0, 2, 0, 0, 0, 0])?;
        add(octets, &file.to_be_bytes())?;
        add(octets, &[0, 0, 0, 0, 0, 0, 0, 16, 0, 0, 0, 0, 0, 0, 0, 1])?;
    }
    Ok(())
}

/// Adds the octets that a word means.
fn add_word(alloc: Global, octets: &mut Vec<u8>, word: &str) -> Result<(), Why> {
    if word == "templates" {
        return add_templates(octets);
    }
    if word == "entries" {
        return add_entries(octets);
    }
    for digits in meant(word).split_whitespace() {
        add_digits(alloc, octets, digits)?;
    }
    Ok(())
}

/// The octets of words, one after the other.
pub(crate) fn octets_of(alloc: Global, words: &[&str]) -> Result<Vec<u8>, Why> {
    let mut octets = Vec::new(alloc);
    for word in words {
        add_word(alloc, &mut octets, word)?;
    }
    Ok(octets)
}
