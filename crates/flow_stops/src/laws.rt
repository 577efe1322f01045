//! Laws of calls under the lock, and of stops.

ghost use Rattle.flow_stops.specs.Laws.{Acknowledged, AnyCalls, AppendIsCall, CallIsOne, CallsJoin, FedStays, OneCall};
ghost use Rattle.flow_stops.specs.Laws.{OpeningFinds, ReportedIsFound, SeenIsRepresented, StartIsRepresented};
ghost use Rattle.flow_stops.specs.Laws.{StaysRepresented};

use flow_disk::Disk;

/// A stop at any moment while threads call, on every honest disk. Within a call it leaves all steps of before, and then
/// steps of the call; from one value under the lock to a later one, whatever calls came between, all steps of the one,
/// and then steps of the other in their order. What a thread was told of is in all that any later stop leaves; and that
/// is what an opening finds.
pub fn stops_while_threads_run<D: Disk>(_disk: &D)
    ensures call { OneCall D.Disk }
    ensures calls { AnyCalls D.Disk }
    ensures acknowledged { Acknowledged D.Disk }
    ensures fed { FedStays D.Disk }
    ensures opening { OpeningFinds D.Disk }
    ensures reported { ReportedIsFound D.Disk }
{}

/// From which values on this holds, and of which calls: each image represents the archive at a start, at each value
/// that a thread saw under the lock while it was open, and after any calls that leave it open; what a thread says of
/// its call is one call; and calls after calls are calls.
pub fn calls_under_the_lock<D: Disk>(_disk: &D)
    ensures started { StartIsRepresented D.Disk }
    ensures seen { SeenIsRepresented D.Disk }
    ensures represented { StaysRepresented D.Disk }
    ensures joined { CallsJoin D.Disk }
    ensures one { CallIsOne D.Disk }
    ensures append { AppendIsCall D.Disk }
{}
