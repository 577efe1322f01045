//! Whether a manifest is valid.

ghost use Rattle.std.specs.Prelude.{◌≡◌, ◌≢◌, ◌↔◌, ◌<◌, ◌≤◌, ◌^◌, IsTrue, length};
ghost use Rattle.std.specs.List.{sum_by, AllByRecursion};
ghost use Rattle.flow_manifest.specs.Limits.{most_entries};
ghost use Rattle.flow_manifest.specs.Manifest.{head_of, FitsHead, IsValidManifest, IsInRange, IsInOrder, HaveOwnFiles};
ghost use Rattle.flow_manifest.specs.Manifest.{IsEntry, rank, wide_messages, rolled_messages};

use crate::head::Head;
use crate::limits::{GREATEST_LIMIT, GREATEST_WIDTH, LEAST_LIMIT, MOST_ENTRIES, MOST_MESSAGES};
use crate::manifest::{Entry, Kind, Manifest};

/// One more than the most messages of an archive.
const TOO_MANY_MESSAGES: u128 = MOST_MESSAGES as u128 + 1;

/// The first number that is no slot's.
const FIRST_FILE: u64 = 3;

/// Whether the numbers before the entries are in their ranges.
pub(crate) fn is_in_range(head: &Head) -> bool
    ensures { IsTrue result ↔ IsInRange head.now }
{
    let Head {
        width,
        wide,
        limit,
        count,
        ..
    } = *head;
    if width == 0 {
        return false;
    }
    width <= wide
        && wide <= GREATEST_WIDTH
        && wide % width == 0
        && LEAST_LIMIT <= limit
        && limit <= GREATEST_LIMIT
        && 1 <= count
        && count <= MOST_ENTRIES
}

/// Whether a manifest is valid, once the numbers before the entries are in range.
pub(crate) fn is_valid(manifest: &Manifest) -> bool
    requires fits { FitsHead (head_of manifest.now) }
    requires ranges { IsInRange (head_of manifest.now) }
    ensures { IsTrue result ↔ IsValidManifest manifest.now }
{
    let entries = manifest.entries.as_slice();
    if !are_in_order(entries) {
        return false;
    }
    if !have_own_files(entries) {
        return false;
    }
    if !are_entries(manifest.limit, manifest.next, entries) {
        return false;
    }
    let totals = totals_of(entries);
    if totals.wide != u128::from(manifest.second) {
        return false;
    }
    if totals.rolled != u128::from(manifest.rolled) {
        return false;
    }
    totals.all < TOO_MANY_MESSAGES
}

pub(crate) fn rank(kind: Kind) -> u8
    ensures { result ≡ rank kind }
{
    match kind {
        Kind::Wide => 0,
        Kind::Rolled => 1,
        Kind::Sealed => 2,
        Kind::Active => 3,
    }
}

fn are_in_order(entries: &[Entry]) -> bool
    ensures { IsTrue result ↔ IsInOrder entries.now }
{
    let mut rest = entries;
    while let [entry, others @ ..] = rest {
        let place = rank(entry.kind);
        let Some(next) = others.first() else {
            return place == 3;
        };
        if place == 3 || rank(next.kind) < place {
            return false;
        }
        rest = others;
    }
    false
}

fn have_own_files(entries: &[Entry]) -> bool
    ensures { IsTrue result ↔ HaveOwnFiles entries.now }
{
    let mut rest = entries;
    while let [entry, others @ ..] = rest {
        if !is_elsewhere(entry.file, others) {
            return false;
        }
        rest = others;
    }
    true
}

/// Whether a file is that of none of these entries.
pub(crate) fn is_elsewhere(file: u64, entries: &[Entry]) -> bool
    ensures { IsTrue result ↔ AllByRecursion (λ other. other.file ≢ file) entries.now }
{
    let mut rest = entries;
    while let [entry, others @ ..] = rest {
        if entry.file == file {
            return false;
        }
        rest = others;
    }
    true
}

fn are_entries(limit: u32, next: u64, entries: &[Entry]) -> bool
    ensures { IsTrue result ↔ AllByRecursion (IsEntry limit next) entries.now }
{
    let mut rest = entries;
    while let [entry, others @ ..] = rest {
        if !is_entry(limit, next, *entry) {
            return false;
        }
        rest = others;
    }
    true
}

fn is_entry(limit: u32, next: u64, entry: Entry) -> bool
    ensures { IsTrue result ↔ IsEntry limit next entry }
{
    if entry.file < FIRST_FILE || next <= entry.file {
        return false;
    }
    let prefix = u64::from(entry.prefix);
    match entry.kind {
        Kind::Wide | Kind::Rolled => entry.prefix == 0 && entry.messages >= 1,
        Kind::Sealed => {
            entry.messages >= 1
                && prefix + 16 <= entry.length
                && entry.length <= prefix + u64::from(limit)
        }
        Kind::Active => entry.length == 0 && entry.messages == 0,
    }
}

/// How many messages the entries of some kinds represent.
#[derive(Clone, Copy)]
pub(crate) struct Totals {
    pub(crate) wide: u128,
    pub(crate) rolled: u128,
    pub(crate) all: u128,
}

pub(crate) fn totals_of(entries: &[Entry]) -> Totals
    requires { length entries.now ≤ most_entries }
    ensures wide { result.wide ≡ sum_by (λ e. wide_messages e.kind e.messages) entries.now }
    ensures rolled { result.rolled ≡ sum_by (λ e. rolled_messages e.kind e.messages) entries.now }
    ensures all { result.all ≡ sum_by (λ e. e.messages) entries.now }
{
    let mut wide = 0;
    let mut rolled = 0;
    let mut all = 0;
    for entry in entries {
        wide += wide_messages(*entry);
        rolled += rolled_messages(*entry);
        all += messages_of(*entry);
    }
    Totals { wide, rolled, all }
}

fn messages_of(entry: Entry) -> u128
    ensures is { result ≡ entry.messages }
    ensures below { result < 2 ^ 64 }
{
    u128::from(entry.messages)
}

/// The messages of an entry that the second cut counts.
fn wide_messages(entry: Entry) -> u128
    ensures is { result ≡ wide_messages entry.kind entry.messages }
    ensures below { result < 2 ^ 64 }
{
    match entry.kind {
        Kind::Wide => messages_of(entry),
        Kind::Rolled | Kind::Sealed | Kind::Active => 0,
    }
}

/// The messages of an entry that the cut counts.
fn rolled_messages(entry: Entry) -> u128
    ensures is { result ≡ rolled_messages entry.kind entry.messages }
    ensures below { result < 2 ^ 64 }
{
    match entry.kind {
        Kind::Wide | Kind::Rolled => messages_of(entry),
        Kind::Sealed | Kind::Active => 0,
    }
}
