//! Messages that are taken in one after the other: all of them, or none.

ghost use Rattle.std.specs.Prelude.{◌≡◌, ◌⊎◌, OnOk, OnErr, IfErr};
ghost use Rattle.flow_codec.specs.Fault.{IsFault};
ghost use Rattle.flow_codec.specs.declared.error.MessageError.TheVariants.{OutOfMemory};
ghost use Rattle.flow_gate.specs.Steps.{slices};
ghost use Rattle.flow_segment.specs.Batch.{restored, AreTakenNoting, IsFirstFault, IsReady, IsTakenNoting};

use crate::carry::Carry;
use crate::defining::may_define;
use flow_codec::{Losses, MessageError, Templates};
use flow_measure::PartSpan;
use indexmap::IndexMap;
use std::alloc::{AllocError, Global};
use std::mem;

/// What was carried before a batch: the numbers, the Export Time, what was counted, and the templates, of which a
/// copy is made only where a message may define some. Until then those in force are those of before.
#[derive(Drop)]
pub(crate) struct Undo {
    pub(crate) templates: Option<Templates>,
    pub(crate) due: IndexMap<u32, u32>,
    pub(crate) time: u32,
    pub(crate) losses: Option<Losses>,
}

/// Keeps a copy of the templates before a message that may define some, if none is kept.
fn keep_before(undo: &mut Undo, carry: &Carry, octets: &[u8]) -> Result<(), AllocError>
    ensures ready { OnOk result (IsReady undo.new octets.now) }
    ensures same { restored carry.now.templates undo.new ≡ restored carry.now.templates undo.old }
{
    if undo.templates.is_none() && may_define(octets) {
        let copy = carry.copied_templates()?;
        drop(mem::replace(&mut undo.templates, Some(copy)));
    }
    Ok(())
}

/// Takes a message in, and notes when its flows start.
fn take_noting(
    carry: &mut Carry,
    alloc: Global,
    octets: &[u8],
    span: &mut Option<PartSpan>,
) -> Result<(), MessageError>
    ensures taken { OnOk result (IsTakenNoting octets.now carry.old carry.new span.old span.new) }
    ensures refused { IfErr result (λ e. (e ≡ OutOfMemory) ⊎ IsFault octets.now carry.old.templates e) }
    ensures kept { OnErr result (carry.new ≡ carry.old) }
    ensures unnoted { OnErr result (span.new ≡ span.old) }
{
    carry.restate(alloc, octets, span)?;
    Ok(())
}

/// Takes in messages one by one, and keeps what restores the carry before them. After an `Err` some of them are taken
/// in.
fn take_each(
    carry: &mut Carry,
    undo: &mut Undo,
    alloc: Global,
    messages: &[&[u8]],
    span: &mut Option<PartSpan>,
) -> Result<(), MessageError>
    requires { restored carry.old.templates undo.old ≡ carry.old }
    ensures taken { OnOk result (AreTakenNoting (slices messages.now) carry.old carry.new span.old span.new) }
    ensures kept { restored carry.new.templates undo.new ≡ carry.old }
    ensures refused { IfErr result
        (λ e. (e ≡ OutOfMemory) ⊎ IsFirstFault (slices messages.now) carry.old.templates e) }
{
    for message in messages {
        keep_before(undo, carry, message)?;
        take_noting(carry, alloc, message, span)?;
    }
    Ok(())
}

/// The same of messages of which the last one is taken in without keeping anything: it is refused as a whole.
fn take_through(
    carry: &mut Carry,
    undo: &mut Undo,
    alloc: Global,
    messages: &[&[u8]],
    span: &mut Option<PartSpan>,
) -> Result<(), MessageError>
    requires { restored carry.old.templates undo.old ≡ carry.old }
    ensures taken { OnOk result (AreTakenNoting (slices messages.now) carry.old carry.new span.old span.new) }
    ensures kept { OnErr result (restored carry.new.templates undo.new ≡ carry.old) }
    ensures refused { IfErr result
        (λ e. (e ≡ OutOfMemory) ⊎ IsFirstFault (slices messages.now) carry.old.templates e) }
{
    let Some((last, front)) = messages.split_last() else {
        return Ok(());
    };
    take_each(carry, undo, alloc, front, span)?;
    take_noting(carry, alloc, last, span)
}

impl Carry {
    /// Takes in messages, each accepted after those before it, and notes when their flows start, where a span is given;
    /// else answers the first fault of the first one that isn't, or `OutOfMemory` where a growth of memory was refused.
    /// After an `Err` all is as it was.
    ///
    /// One message costs its octets. More cost theirs, and the count of domains; where one but the last may define
    /// templates, those in force are copied, once.
    pub fn take_all(
        &mut self,
        alloc: Global,
        messages: &[&[u8]],
        span: &mut Option<PartSpan>,
    ) -> Result<(), MessageError>
        ensures taken { OnOk result (AreTakenNoting (slices messages.now) self.old self.new span.old span.new) }
        ensures kept { OnErr result (self.new ≡ self.old) }
        ensures unnoted { OnErr result (span.new ≡ span.old) }
        ensures refused { IfErr result
            (λ e. (e ≡ OutOfMemory) ⊎ IsFirstFault (slices messages.now) self.old.templates e) }
    {
        let before = *span;
        if let [message] = messages {
            return take_noting(self, alloc, message, span);
        }
        let mut undo = self.undo()?;
        match take_through(self, &mut undo, alloc, messages, span) {
            Ok(()) => Ok(()),
            Err(fault) => {
                self.put_back(undo);
                *span = before;
                Err(fault)
            }
        }
    }
}
