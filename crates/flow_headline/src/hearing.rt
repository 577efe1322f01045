//! Events on any disk, each answer heard at the moment at which it is given.

ghost use Rattle.std.specs.Prelude.{All, Result};
ghost use Rattle.flow_archive.specs.declared.event.Answer.{Answer};
ghost use Rattle.flow_archive.specs.declared.refusal.ArchiveError.{ArchiveError};
ghost use Rattle.flow_archive.specs.Runs.{IsEvent};
ghost use Rattle.flow_archive.specs.Seen.{Seen};
ghost use Rattle.flow_headline.specs.Heard.{IsHeardRun};

use flow_archive::{Answer, Archive, ArchiveError, Event, take_event};
use flow_disk::{Disk, Faults};
use std::alloc::Global;

/// Who is given each answer, at the moment of it.
pub trait Listener<D: Disk> {
    /// What hearing an answer makes of it, which is shown the archive as it is then.
    ghost hears: { Self → Seen D → Result Answer ArchiveError → Self → Type 0 };

    /// Is given an answer, with the archive as it is now.
    fn hear(&mut self, archive: &Archive<D>, answer: &Result<Answer, ArchiveError>)
        ensures { hears self.old archive.now answer.now self.new };
}

/// Takes events in order, on any disk, and gives each answer to a listener before the next event begins. Reads of a
/// job's sources that fail raise `faults`. A batch has from 1 to 64 messages.
pub fn run_heard<D: Disk, L: Listener<D>>(
    alloc: Global,
    archive: &mut Archive<D>,
    events: &[Event],
    faults: &mut Faults<D::Sealed>,
    listener: &mut L,
)
    requires { All IsEvent events.now }
    ensures { IsHeardRun D.Disk L.hears archive.old archive.new events.now listener.old listener.new }
{
    // Its contract says what a stop would leave before the first event.
    let _closed = archive.is_closed();
    'events: for event in events {
        let answer = take_event(archive, alloc, event, faults);
        listener.hear(archive, &answer);
    }
}
