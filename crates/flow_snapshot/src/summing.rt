//! Sums of rolled files and of kept messages. Where a sum would pass its type, which honest files never give, the first
//! part is reported as damaged; its file is passed as `first`.

ghost use Rattle.std.specs.Prelude.{◌≡◌, ◌≢◌, IsTrue, IfErr, List, OnOk, map};
ghost use Rattle.std.specs.FinMap.{FinMap};
ghost use Rattle.std.specs.List.{list_all};
ghost use Rattle.flow_disk.specs.Cause.{HasCause};
ghost use Rattle.flow_measure.specs.declared.rows.Sums.{Sums};
ghost use Rattle.flow_measure.specs.History.{Accepted, AreAcceptedFrom, flows_in, templates_from};
ghost use Rattle.flow_measure.specs.Sums.{key_cmp, merged, AllFit};
ghost use Rattle.flow_rolled.specs.Rollup.{IsRollup};
ghost use Rattle.flow_segment.specs.Carry.{octets_of};
ghost use Rattle.flow_segment.specs.PartFlows.{with_flows, ArePartMessages, HasMessages};
ghost use Rattle.flow_segment.specs.Segment.{part_octets};
ghost use Rattle.flow_snapshot.specs.Files.{is_honest, is_honest_sum, rollup_of, segment_of, shared};
ghost use Rattle.flow_snapshot.specs.Found.{AreAccepted};
ghost use Rattle.flow_model.specs.Shelf.{messages_in};
ghost use Rattle.flow_snapshot.specs.Totals.{told_of_file, with_maps, IsMade};
ghost use Rattle.flow_model.specs.Views.{AreRolled};

use crate::kept::hand_over;
use bytes::Bytes;
use flow_codec::Templates;
use flow_disk::{Faults, SealedFile, Window};
use flow_measure::Rows;
use flow_refusals::{ReadRefusal, SumRefusal};
use flow_rolled::{RolledPart, sum_rows};
use flow_segment::{Adding, SealedPart, add_flows};
use std::alloc::Global;
use std::mem::replace;
use std::sync::Arc;

/// A refusal of a file's sums as that of a query.
fn told_of_file(error: SumRefusal, first: u64) -> ReadRefusal
    ensures { result ≡ told_of_file first error }
{
    match error {
        SumRefusal::Damaged(file, at) => ReadRefusal::Damaged(file, at),
        SumRefusal::SumSpent => ReadRefusal::Damaged(first, 0),
        SumRefusal::Fault => ReadRefusal::Fault,
        SumRefusal::OutOfMemory => ReadRefusal::OutOfMemory,
    }
}

/// Adds the sums of a rolled file by the width of the rows.
pub(crate) fn add_file<S: SealedFile>(
    alloc: Global,
    part: &RolledPart<S>,
    rows: &mut Rows,
    first: u64,
    faults: &mut Faults<S>,
) -> Result<(), ReadRefusal>
    ensures width { rows.new.width ≡ rows.old.width }
    ensures cause { HasCause ReadRefusal.Fault faults.old faults.new result }
    // On an honest disk: it is the rolled file of some sums.
    ensures found { IsTrue part.now.honest → OnOk result ((sums : FinMap key_cmp Sums)
        × IsRollup rows.old.width part.now.octets (record { width = rows.old.width; sums = sums })) }
    // Where it is the rolled file of these sums, they are added.
    ensures given { IsTrue part.now.honest → (sums : FinMap key_cmp Sums)
        → IsRollup rows.old.width part.now.octets (record { width = rows.old.width; sums = sums })
        → IsMade first (AllFit (merged rows.old (record { width = rows.old.width; sums = sums })))
        (λ _. rows.new ≡ merged rows.old (record { width = rows.old.width; sums = sums })) result }
{
    let width = rows.width();
    match sum_rows(alloc, faults, part, width, rows) {
        Ok(()) => Ok(()),
        Err(error) => Err(told_of_file(error, first)),
    }
}

/// Adds the sums of rolled files by the width of the rows. Each is read once.
pub(crate) fn add_rolled<S: SealedFile>(
    alloc: Global,
    parts: &[Arc<RolledPart<S>>],
    rows: &mut Rows,
    first: u64,
    faults: &mut Faults<S>,
) -> Result<(), ReadRefusal>
    ensures cause { HasCause ReadRefusal.Fault faults.old faults.new result }
    // On honest disks: all are rolled files.
    ensures found { IsTrue (list_all is_honest_sum (shared parts.now)) → OnOk result
        ((maps : List (FinMap key_cmp Sums)) × AreRolled rows.old.width (map rollup_of (shared parts.now)) maps) }
    // Where they are those of these sums, they are added.
    ensures given { IsTrue (list_all is_honest_sum (shared parts.now)) → (maps : List (FinMap key_cmp Sums))
        → AreRolled rows.old.width (map rollup_of (shared parts.now)) maps
        → IsMade first (AllFit (with_maps maps rows.old)) (λ _. rows.new ≡ with_maps maps rows.old) result }
{
    for part in parts {
        add_file(alloc, part, rows, first, faults)?;
    }
    Ok(())
}

/// Adds the flows of a sealed segment's messages.
pub(crate) fn add_part<S: SealedFile>(
    alloc: Global,
    part: &SealedPart<S>,
    templates: &mut Templates,
    rows: &mut Rows,
    first: u64,
    faults: &mut Faults<S>,
) -> Result<(), ReadRefusal>
    ensures width { rows.new.width ≡ rows.old.width }
    ensures cause { HasCause ReadRefusal.Fault faults.old faults.new result }
    // On an honest disk: accepted messages fill it.
    ensures found { IsTrue (S.honest part.now.reader) → OnOk result
        (HasMessages (part_octets part.now.prefix part.now.length (S.octets part.now.reader)) templates.old
        part.now.messages) }
    // Where these messages fill it, their flows are added.
    ensures given { IsTrue (S.honest part.now.reader) → (messages : List Accepted)
        → ArePartMessages (part_octets part.now.prefix part.now.length (S.octets part.now.reader)) templates.old
        part.now.messages messages
        → IsMade first (AllFit (with_flows (flows_in messages) rows.old))
        (λ _. (templates.new ≡ templates_from templates.old messages)
        × (rows.new ≡ with_flows (flows_in messages) rows.old)) result }
{
    let none = Rows::new(alloc, rows.width());
    let mut adding = Adding {
        rows: replace(rows, none),
        spent: false,
    };
    let mut window = Window::new(alloc, part.prefix, part.length);
    match add_flows(alloc, part, &mut window, templates, &mut adding, faults) {
        Ok(_) => {
            *rows = adding.rows;
            Ok(())
        }
        Err(refusal) => Err(told_of_file(refusal, first)),
    }
}

/// Adds the flows of sealed segments' messages. Each segment is read once, a piece at a time.
pub(crate) fn add_sealed<S: SealedFile>(
    alloc: Global,
    parts: &[Arc<SealedPart<S>>],
    templates: &mut Templates,
    rows: &mut Rows,
    first: u64,
    faults: &mut Faults<S>,
) -> Result<(), ReadRefusal>
    ensures cause { HasCause ReadRefusal.Fault faults.old faults.new result }
    // On honest disks: all messages are accepted after the templates given.
    ensures found { IsTrue (list_all is_honest (shared parts.now)) → OnOk result
        (AreAccepted templates.old (messages_in (map segment_of (shared parts.now)))) }
    // And their flows are added.
    ensures given { IsTrue (list_all is_honest (shared parts.now)) → (messages : List Accepted)
        → AreAcceptedFrom templates.old messages
        → octets_of messages ≡ messages_in (map segment_of (shared parts.now))
        → IsMade first (AllFit (with_flows (flows_in messages) rows.old))
        (λ _. (templates.new ≡ templates_from templates.old messages)
        × (rows.new ≡ with_flows (flows_in messages) rows.old)) result }
{
    for part in parts {
        if part.messages > 0 {
            add_part(alloc, part, templates, rows, first, faults)?;
        }
    }
    Ok(())
}

/// The same of messages in memory.
pub(crate) fn add_active(
    alloc: Global,
    messages: &[Bytes],
    templates: &mut Templates,
    rows: &mut Rows,
    first: u64,
) -> Result<(), ReadRefusal>
    ensures found { OnOk result (AreAccepted templates.old messages.now) }
    ensures given { (list : List Accepted) → AreAcceptedFrom templates.old list → octets_of list ≡ messages.now
        → IsMade first (AllFit (with_flows (flows_in list) rows.old))
        (λ _. (templates.new ≡ templates_from templates.old list)
        × (rows.new ≡ with_flows (flows_in list) rows.old)) result }
    ensures quiet { IfErr result (λ e. e ≢ ReadRefusal.Fault) }
{
    let none = Rows::new(alloc, rows.width());
    let mut adding = Adding {
        rows: replace(rows, none),
        spent: false,
    };
    for message in messages {
        hand_over(alloc, templates, message.as_slice(), &mut adding)?;
    }
    if adding.spent {
        return Err(ReadRefusal::Damaged(first, 0));
    }
    *rows = adding.rows;
    Ok(())
}
