//! Laws of whole jobs and of turns.

ghost use Rattle.flow_turns.specs.Laws.{DueInTurn, JobAnswered, JobInstalled, JobKeeps, TurnsOfAJob, TurnsOfARoll};
ghost use Rattle.flow_turns.specs.Laws.{WholeJob};

use flow_disk::Disk;

/// A job without a refusal, in an archive whose manifest is a valid one, as each archive's is: one file is in place of
/// the oldest of its kind, with as many messages in all, and no job is left.
pub fn whole_job<D: Disk>(_disk: &D)
    ensures installed { JobInstalled D.Disk }
    ensures whole { WholeJob D.Disk }
    ensures answered { JobAnswered D.Disk }
    ensures keeps { JobKeeps D.Disk }
{}

/// The events of one job over all files but the newest are due in turn. Turns without a refusal take them, and no other
/// job is due then.
pub fn turns_of_a_job<D: Disk>(_disk: &D)
    ensures due { DueInTurn D.Disk }
    ensures turns { TurnsOfAJob D.Disk }
    ensures roll { TurnsOfARoll D.Disk }
{}
