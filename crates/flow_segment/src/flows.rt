//! The flows of a sealed segment, and their sums.

ghost use Rattle.std.specs.Prelude.{◌≡◌, ◌≤◌, false, List, [], IsTrue, IfOk, IfErr, OnOk, OnErr};
ghost use Rattle.flow_disk.specs.Cause.{HasCause};
ghost use Rattle.flow_measure.specs.declared.flow.Flow.{Flow};
ghost use Rattle.flow_measure.specs.History.{Accepted};
ghost use Rattle.flow_segment.specs.PartFlows.{AreAdded, AreBehind, AreCollected, AreFlowsGiven, ArePartFlows};
ghost use Rattle.flow_segment.specs.PartFlows.{ArePartMessages, greatest_time, HasMessages, IsDamage, IsNotAdded};
ghost use Rattle.flow_segment.specs.PartFlows.{IsPartToldOf};
ghost use Rattle.flow_segment.specs.Segment.{part_octets};

use crate::restated::templates_of;
use crate::sealed::SealedPart;
use crate::sinks::{Adding, Chosen};
use crate::walking::walk_part;
use flow_codec::Templates;
use flow_disk::{Faults, SealedFile, Window};
use flow_measure::{Adder, Flow, Flows};
use flow_refusals::{ReadRefusal, SumRefusal};
use std::alloc::Global;
use std::mem::replace;

/// Adds the flows of the messages of a sealed segment to rows, and takes the messages' templates in: those given are in
/// force before the first message, as `templates_of` or the segment before leaves them. It keeps no list of flows or of
/// messages, and holds one piece of the file at a time, in the memory of `window`, which any part may have been read by
/// before.
///
/// Where the octets are no accepted message it answers `Damaged`, with the file and the place; where there is another
/// count of messages, with the file and its length; `SumSpent` where all messages are accepted and a sum would pass its
/// type; `Fault` exactly where a read has raised `faults`; and `OutOfMemory`. After an `Err` the rows have some of the
/// flows: rows on trial can be taken back. The templates are then those after some accepted messages.
///
/// It answers the greatest Export Time of the messages, in seconds since 1970-01-01 00:00 UTC, and 0 where there are
/// none.
pub fn add_flows<S: SealedFile, T: Adder>(
    alloc: Global,
    part: &SealedPart<S>,
    window: &mut Window,
    templates: &mut Templates,
    adding: &mut Adding<T>,
    faults: &mut Faults<S>,
) -> Result<u32, SumRefusal>
    requires { adding.old.spent ≡ false }
    // On every disk.
    ensures width { OnOk result ((T.table adding.new.rows).width ≡ (T.table adding.old.rows).width) }
    ensures kept { T.kept adding.new.rows ≡ T.kept adding.old.rows }
    ensures going { OnOk result (adding.new.spent ≡ false) }
    ensures templates { AreBehind templates.old templates.new }
    ensures cause { HasCause SumRefusal.Fault faults.old faults.new result }
    // On an honest one: accepted messages fill the part; or why nothing is added.
    ensures found { IsTrue (S.honest part.now.reader) → OnOk result
        (HasMessages (part_octets part.now.prefix part.now.length (S.octets part.now.reader)) templates.old
        part.now.messages) }
    ensures told { IsTrue (S.honest part.now.reader) → IfErr result
        (λ e. IsNotAdded (part_octets part.now.prefix part.now.length (S.octets part.now.reader)) templates.old
        (S.number part.now.reader) part.now.prefix part.now.length part.now.messages e) }
    // Where messages fill the part, their flows are added, unless a sum would pass its type.
    ensures given { IsTrue (S.honest part.now.reader) → (messages : List Accepted)
        → ArePartMessages (part_octets part.now.prefix part.now.length (S.octets part.now.reader)) templates.old
        part.now.messages messages → AreAdded templates.old (T.table adding.old.rows) messages result templates.new
        (T.table adding.new.rows) }
    ensures time { IsTrue (S.honest part.now.reader) → (messages : List Accepted)
        → ArePartMessages (part_octets part.now.prefix part.now.length (S.octets part.now.reader)) templates.old
        part.now.messages messages → IfOk result (λ time. time ≡ greatest_time messages) }
{
    let time = walk_part(alloc, part, window, templates, adding, faults)?;
    if adding.spent {
        return Err(SumRefusal::SumSpent);
    }
    Ok(time)
}

/// Appends the flows of the messages of a sealed segment that start from `from` on and before `to`, in seconds since
/// 1970-01-01 00:00 UTC, to a list, in the order of their records, and takes the messages' templates in: those given
/// are in force before the first message, as `templates_of` or the segment before leaves them.
///
/// It refuses as `add_flows` does, but for sums. After an `Err` the list is empty, and the templates are those after
/// some accepted messages.
pub fn collect_flows<S: SealedFile>(
    alloc: Global,
    part: &SealedPart<S>,
    templates: &mut Templates,
    from: u64,
    to: u64,
    flows: &mut Vec<Flow>,
    faults: &mut Faults<S>,
) -> Result<(), ReadRefusal>
    // On every disk.
    ensures none { OnErr result (flows.new.items ≡ []) }
    ensures templates { AreBehind templates.old templates.new }
    ensures cause { HasCause ReadRefusal.Fault faults.old faults.new result }
    // On an honest one: accepted messages fill the part; or why there are no flows.
    ensures found { IsTrue (S.honest part.now.reader) → OnOk result
        (HasMessages (part_octets part.now.prefix part.now.length (S.octets part.now.reader)) templates.old
        part.now.messages) }
    ensures told { IsTrue (S.honest part.now.reader) → IfErr result
        (λ e. IsDamage (part_octets part.now.prefix part.now.length (S.octets part.now.reader)) templates.old
        (S.number part.now.reader) part.now.prefix part.now.length part.now.messages e) }
    // Where messages fill the part, their flows are given.
    ensures given { IsTrue (S.honest part.now.reader) → (messages : List Accepted)
        → ArePartMessages (part_octets part.now.prefix part.now.length (S.octets part.now.reader)) templates.old
        part.now.messages messages
        → AreCollected templates.old from to flows.old.items messages result templates.new flows.new.items }
{
    let mut chosen = Chosen {
        flows: replace(flows, Vec::new(alloc)),
        from,
        to,
    };
    let mut window = Window::new(alloc, part.prefix, part.length);
    walk_part(alloc, part, &mut window, templates, &mut chosen, faults)?;
    *flows = chosen.flows;
    Ok(())
}

/// The flows of the messages of a sealed segment, in order, under the templates that its prefix restates. Where the
/// octets are no accepted message, or a message of the prefix has data records, it answers `Damaged`, with the file and
/// the place; where there is another count of messages, with the file and its length; `Fault` exactly where a read has
/// raised `faults`; and `OutOfMemory`.
pub fn flows_of<S: SealedFile>(
    alloc: Global,
    part: &SealedPart<S>,
    faults: &mut Faults<S>,
) -> Result<Vec<Flow>, ReadRefusal>
    ensures cause { HasCause ReadRefusal.Fault faults.old faults.new result }
    // On an honest disk: the flows of accepted messages that fill the part; or why there are none.
    ensures found { IsTrue (S.honest part.now.reader) → IfOk result
        (λ flows. ArePartFlows (part_octets 0 part.now.prefix (S.octets part.now.reader))
        (part_octets part.now.prefix part.now.length (S.octets part.now.reader)) part.now.messages flows.items) }
    ensures told { IsTrue (S.honest part.now.reader) → IfErr result
        (λ e. IsPartToldOf (part_octets 0 part.now.prefix (S.octets part.now.reader))
        (part_octets part.now.prefix part.now.length (S.octets part.now.reader)) (S.number part.now.reader)
        part.now.prefix part.now.length part.now.messages e) }
    // Where a part has these flows, they are given.
    ensures given { IsTrue (S.honest part.now.reader) → (list : List Flow)
        → ArePartFlows (part_octets 0 part.now.prefix (S.octets part.now.reader))
        (part_octets part.now.prefix part.now.length (S.octets part.now.reader)) part.now.messages list
        → AreFlowsGiven list result }
{
    let mut templates = templates_of(alloc, part, faults)?;
    let mut flows = Flows::new(alloc);
    let mut window = Window::new(alloc, part.prefix, part.length);
    let walked = walk_part(alloc, part, &mut window, &mut templates, &mut flows, faults);
    drop(window);
    drop(templates);
    match walked {
        Ok(_) => Ok(flows.flows),
        Err(refused) => Err(refused),
    }
}
