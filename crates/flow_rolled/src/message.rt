//! One message of a rolled file.

ghost use Rattle.std.specs.Prelude.{◌≡◌, ◌<◌, ◌^◌, ℕ, length, Some};
ghost use Rattle.flow_rolled.specs.Messages.{RolledMessage, due};
ghost use Rattle.flow_rolled.specs.Octets.{IsRolledMessage};
ghost use Rattle.flow_rolled.specs.Reading.{data_of, Stands};

use crate::row::RolledRow;

/// The most rows of a message. Further rows of its domain may follow a message of so many, or a head.
pub(crate) const FULL: usize = 1000;

/// A message of a rolled file: the head of its domain, where it has no rows.
#[derive(Drop)]
pub(crate) struct Message {
    pub time: u32,
    pub sequence: u32,
    pub domain: u32,
    pub rows: Vec<RolledRow>,
}

/// What the next message is judged by.
#[derive(Clone, Copy)]
pub(crate) struct State {
    pub time: u32,
    pub domain: u32,
    pub due: u32,
    pub count: usize,
    pub last: Option<RolledRow>,
}

/// The sequence number that is due after a message with this one and so many rows.
pub(crate) fn due_behind(sequence: u32, count: usize) -> u32
    requires { count < 2 ^ 63 }
    ensures { (b : RolledMessage) → b.sequence ≡ sequence → length b.rows ≡ count → result ≡ due b }
{
    let records = if count == 0 { 2 } else { count };
    ((u64::from(sequence) + records as u64) % 4_294_967_296) as u32
}

impl State {
    /// The state after a message.
    pub(crate) fn behind(message: &Message) -> State
        ensures { (width : ℕ) → IsRolledMessage width (data_of message.now)
            → Stands (Some result) (Some (data_of message.now)) }
    {
        let count = message.rows.len();
        State {
            time: message.time,
            domain: message.domain,
            due: due_behind(message.sequence, count),
            count,
            last: message.rows.last().copied(),
        }
    }
}
