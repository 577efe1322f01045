//! A table from the octets of its rolled file.

ghost use Rattle.std.specs.Prelude.{◌≡◌, ◌<◌, ◌+◌, ◌^◌, ◌⊎◌, ℕ, List, ◌++◌, length, Option, None, Some, IfOk, IfErr};
ghost use Rattle.std.specs.Prelude.{OnOk, MatchResult, IfSome, IfNone};
ghost use Rattle.flow_measure.specs.Sums.{Table};
ghost use Rattle.flow_rolled.specs.Rollup.{IsRollup, IsBroken};
ghost use Rattle.flow_rolled.specs.Rows.{AreRows, sums_of};
ghost use Rattle.flow_rolled.specs.Messages.{RolledMessage, Follows};
ghost use Rattle.flow_rolled.specs.Octets.{message_octets, IsRolledMessage};
ghost use Rattle.flow_rolled.specs.Reading.{data_of, Stands, IsStuck, IsRefused, IsDecoded};
ghost use Rattle.flow_rolled.specs.declared.row.RolledRow.{RolledRow};
ghost use Rattle.flow_measure.specs.declared.error.SumError.{SumError};
ghost use Rattle.flow_rolled.specs.declared.error.RolledError.{RolledError};

use crate::error::RolledError;
use crate::judging::follows;
use crate::message::{Message, State};
use crate::message_reading::message_at;
use crate::row::RolledRow;
use crate::summing::sums_in;
use flow_measure::{Rows, SumError};
use std::alloc::{AllocError, Global};

/// The message with which octets begin, and the octets after it, if there is one that may follow the message before.
pub(crate) fn next_message<'a>(
    alloc: Global,
    octets: &'a [u8],
    width: u32,
    before: Option<State>,
) -> Result<Option<(Message, &'a [u8])>, AllocError>
    requires { 0 < width }
    ensures found { IfOk result (λ o. IfSome o (λ x. octets.now ≡ message_octets width (data_of x.0) ++ x.1.now)) }
    ensures part { IfOk result (λ o. IfSome o (λ x. IsRolledMessage width (data_of x.0))) }
    ensures follows { IfOk result (λ o. IfSome o (λ x. (b : Option RolledMessage) → Stands before b
        → Follows width b (data_of x.0))) }
    ensures stuck { IfOk result (λ o. IfNone o ((b : Option RolledMessage) → Stands before b
        → IsStuck width b octets.now)) }
{
    let Some((message, rest)) = message_at(alloc, octets, width)? else {
        return Ok(None);
    };
    if !follows(before, &message) {
        return Ok(None);
    }
    Ok(Some((message, rest)))
}

/// Adds rows to the sums of those before them. No sum can pass its type.
fn add_rows(rows: &mut Rows, list: &[RolledRow]) -> Result<(), SumError>
    requires { (earlier : List RolledRow) × (rows.old.sums ≡ sums_of earlier)
        × AreRows rows.old.width None (earlier ++ list.now) × (length earlier + length list.now < 2 ^ 64) }
    ensures ok { OnOk result ((earlier : List RolledRow) → rows.old.sums ≡ sums_of earlier
        → (rows.new ≡ record { width = rows.old.width; sums = sums_of (earlier ++ list.now) })) }
    ensures err { IfErr result (λ e. e ≡ SumError.OutOfMemory) }
{
    for row in list.iter() {
        rows.put(row.key, sums_in(row))?;
    }
    Ok(())
}

/// The table whose rolled file these octets are, by a width in seconds, with any one Export Time.
///
/// Else 26 NotRolled at the end of the longest sequence of whole messages with which some rolled file begins: at the
/// message that has the first wrong or missing octet, or at the end where the octets end between messages. 11
/// OutOfMemory may come at any place.
pub fn decode_rows(alloc: Global, octets: &[u8], width: u32) -> Result<Rows, RolledError>
    requires { 0 < width }
    // Octets that are taken are a table's rolled file.
    ensures found { IfOk result (λ rows. IsRollup width octets.now rows) }
    // A table's rolled file is taken, unless memory runs out.
    ensures only { (table : Table) → IsRollup width octets.now table → IsDecoded result table }
    // Octets that are refused break off at this place, unless memory ran out.
    ensures refused { IfErr result (λ e. IsRefused e width octets.now) }
{
    let whole = octets.len();
    let mut rows = Rows::new(alloc, width);
    let mut before = None;
    let mut rest = octets;
    while !rest.is_empty() {
        let Some((message, after)) = next_message(alloc, rest, width, before)? else {
            return Err(RolledError::NotRolled(whole - rest.len()));
        };
        if add_rows(&mut rows, &message.rows).is_err() {
            return Err(RolledError::OutOfMemory);
        }
        before = Some(State::behind(&message));
        rest = after;
    }
    if let Some(state) = before {
        if state.count == 0 {
            return Err(RolledError::NotRolled(whole));
        }
    }
    Ok(rows)
}
