//! Whether a message may follow the one before.

ghost use Rattle.std.specs.Prelude.{◌≡◌, ◌<◌, ◌⊎◌, ℕ, true, List, [], length, Option};
ghost use Rattle.flow_rolled.specs.Rows.{MayFollow, AllMayFollow};
ghost use Rattle.flow_rolled.specs.Messages.{RolledMessage, Follows, HeadFollows, RowsFollow};
ghost use Rattle.flow_rolled.specs.Octets.{IsRolledMessage};
ghost use Rattle.flow_rolled.specs.Reading.{data_of, Knows, Stands};

use crate::message::{FULL, Message, State};
use crate::order::{compare, continues};
use crate::row::RolledRow;
use std::cmp::Ordering;

/// Whether a row may follow the one before it, if there is one.
fn may_follow(before: Option<RolledRow>, row: &RolledRow) -> bool
    ensures yes { result ≡ true → MayFollow before row.now }
    ensures all { MayFollow before row.now → result ≡ true }
{
    let Some(last) = before else {
        return row.flows > 0;
    };
    continues(&last, row) || (row.flows > 0 && compare(&last.key, &row.key) == Ordering::Less)
}

/// Whether each row may follow the one before it.
fn are_in_order(before: Option<RolledRow>, rows: &[RolledRow]) -> bool
    ensures yes { result ≡ true → AllMayFollow before rows.now }
    ensures all { AllMayFollow before rows.now → result ≡ true }
{
    let mut last = before;
    for row in rows {
        if !may_follow(last, row) {
            return false;
        }
        last = Some(*row);
    }
    true
}

/// Whether a head may follow the message of which this is known.
fn head_follows(state: &State, message: &Message) -> bool
    ensures yes { result ≡ true → (b : RolledMessage) (width : ℕ) → Knows state.now b → message.now.rows.items ≡ []
        → IsRolledMessage width (data_of message.now) → HeadFollows b (data_of message.now) }
    ensures all { (b : RolledMessage) → Knows state.now b → HeadFollows b (data_of message.now) → result ≡ true }
{
    message.sequence == 0
        && message.time == state.time
        && state.count > 0
        && state.domain < message.domain
}

/// Whether further rows of its domain may follow a message of so many.
fn has_room(count: usize) -> bool
    ensures yes { result ≡ true → (count ≡ 0) ⊎ (count ≡ 1000) }
    ensures all { (count ≡ 0) ⊎ (count ≡ 1000) → result ≡ true }
{
    count == 0 || count == FULL
}

/// Whether rows may follow the message of which this is known.
fn rows_follow(state: &State, message: &Message) -> bool
    ensures yes { result ≡ true → (b : RolledMessage) (width : ℕ) → Knows state.now b
        → 0 < length message.now.rows.items
        → IsRolledMessage width (data_of message.now) → RowsFollow width b (data_of message.now) }
    ensures all { (b : RolledMessage) (width : ℕ) → Knows state.now b → RowsFollow width b (data_of message.now)
        → result ≡ true }
{
    if message.time != state.time || message.domain != state.domain {
        return false;
    }
    if message.sequence != state.due || !has_room(state.count) {
        return false;
    }
    are_in_order(state.last, &message.rows)
}

/// Whether a message may follow the one of which this is known, or begin a file.
pub(crate) fn follows(before: Option<State>, message: &Message) -> bool
    ensures yes { result ≡ true → (b : Option RolledMessage) (width : ℕ) → Stands before b
        → IsRolledMessage width (data_of message.now) → Follows width b (data_of message.now) }
    ensures all { (b : Option RolledMessage) (width : ℕ) → Stands before b → Follows width b (data_of message.now)
        → result ≡ true }
{
    let rows = message.rows.as_slice();
    let bare = rows.is_empty();
    match before {
        None => bare && message.sequence == 0,
        Some(state) if bare => head_follows(&state, message),
        Some(state) => rows_follow(&state, message),
    }
}
