//! An archive in memory.

ghost use Rattle.std.specs.Prelude.{◌≡◌, ◌≤◌, IfOk, IfErr};
ghost use Rattle.flow_manifest.specs.Limits.{greatest_width};
ghost use Rattle.flow_measure.specs.History.{IsHistory};
ghost use Rattle.flow_measure.specs.Query.{totals_between};
ghost use Rattle.flow_archive.specs.Plain.{no_messages, IsAppended, IsRefusal};

use crate::error::PlainError;
use flow_codec::{Templates, WalkError, judge_message, walk_message};
use flow_elements::Items;
use flow_manifest::MOST_MESSAGES;
use flow_measure::{Row, Rows, SumError, Totals};
use std::alloc::{AllocError, Global};
use std::marker::Model;
use std::mem::replace;

/// A history of accepted messages, held in memory.
///
/// An append copies the sums, so it costs time by their size.
#[derive(Drop)]
pub struct PlainArchive {
    messages: Vec<Items<u8>>,
    templates: Templates,
    rows: Rows,
}

impl Model for PlainArchive {
    ghost use Rattle.flow_measure.specs.History.{History};
    ghost use Rattle.flow_archive.specs.Plain.{history_of, IsKept};

    ghost Value = { History };

    ghost view = { λ a. history_of a.rows.width a.messages.items };

    ghost invariant = { λ a. IsKept a.messages.items a.templates a.rows };
}

impl PlainArchive {
    /// An archive without messages, whose flows are summed over intervals of this width, in seconds: from 1 to 86,400.
    pub fn new(alloc: Global, width: u32) -> Self
        requires positive { 1 ≤ width }
        requires at_most_a_day { width ≤ greatest_width }
        ensures empty { result ≡ no_messages width }
        ensures history { IsHistory result }
    {
        PlainArchive {
            messages: Vec::new(alloc),
            templates: Templates::new(alloc),
            rows: Rows::new(alloc, width),
        }
    }

    /// Takes in a message that is accepted after those before it, and answers its number, from 1 on.
    /// After an `Err` the archive is as it was. A message's own fault is answered before `NumbersSpent`.
    pub fn append(&mut self, octets: &[u8]) -> Result<u64, PlainError>
        // The history has the message at its end, accepted under the templates of those before it; its number is the
        // count of all.
        ensures appended { IfOk result (λ position. IsAppended position octets.now self.old self.new) }
        // Other octets are refused by their first fault, and an accepted message only where all numbers are spent or
        // memory runs out.
        ensures refused { IfErr result (λ e. IsRefusal e octets.now self.old) }
        ensures kept { IfErr result (λ _. self.new ≡ self.old) }
        // Whatever the answer, the archive afterwards is a history.
        ensures history { IsHistory self.new }
    {
        let alloc = *self.messages.allocator();
        judge_message(&self.templates, alloc, octets)?;
        let count = self.messages.len() as u64;
        if count >= MOST_MESSAGES {
            return Err(PlainError::NumbersSpent);
        }
        let message = Items::from_vec(Vec::from_slice(alloc, octets)?);
        let mut totals = Totals {
            rows: self.rows.try_copy()?,
        };
        self.messages.push(message)?;
        match walk_message(&mut self.templates, alloc, octets, &mut totals) {
            Ok(_) => {}
            Err(WalkError::Sink(SumError::SumSpent)) => unreachable!(),
            Err(_) => {
                drop(totals);
                self.messages.truncate(count as usize);
                return Err(PlainError::OutOfMemory);
            }
        }
        drop(replace(&mut self.rows, totals.rows));
        Ok(count + 1)
    }

    /// The sums of the flows of all messages whose intervals start from `from` on and before `to`, in seconds since
    /// 1970-01-01 00:00 UTC, in the order of their keys.
    pub fn totals(&self, alloc: Global, from: u64, to: u64) -> Result<Vec<Row>, AllocError>
        ensures rows { IfOk result (λ rows. rows.items ≡ totals_between from to self.now) }
        ensures history { IsHistory self.now }
    {
        self.rows.in_span(alloc, from, to)
    }
}
