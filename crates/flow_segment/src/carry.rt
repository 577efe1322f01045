//! What a segment passes to the next one.

ghost use Rattle.std.specs.Prelude.{◌≡◌, ◌⊎◌, ◌<◌, ◌^◌, nat_eq, option_map, None, OnOk, OnErr, IfOk, IfErr};
ghost use Rattle.indexmap.specs.IndexMap.{spare};
ghost use Rattle.flow_codec.specs.Fault.{IsFault};
ghost use Rattle.flow_codec.specs.Message.{IsAccepted};
ghost use Rattle.flow_codec.specs.Raw.{under};
ghost use Rattle.flow_measure.specs.Caveats.{with_caveats};
ghost use Rattle.flow_measure.specs.History.{Accepted};
ghost use Rattle.flow_segment.specs.Batch.{restored};
ghost use Rattle.flow_segment.specs.Carry.{no_carry, prefix_of, AreNext, IsCarry, IsCounted, IsTaken};
ghost use Rattle.flow_segment.specs.Carry.{IsTakenAs, TakesOnly};
ghost use Rattle.flow_segment.specs.Spans.{caveats_if, noted};

use crate::batch::Undo;
use crate::sinks::Noting;
use flow_codec::{
    CaveatCounts, Losses, MessageError, Templates, WalkError, Walked, walk_sets, write_templates,
};
use flow_measure::PartSpan;
use indexmap::IndexMap;
use std::alloc::{AllocError, Global};
use std::marker::Model;
use std::mem;

/// The templates in force after messages, the next Sequence Number of each Observation Domain that has some (RFC 7011,
/// section 3.1), and the Export Time of the last message: what a segment passes to the next one, which restates it.
#[derive(Drop)]
pub struct Carry {
    templates: Templates,
    due: IndexMap<u32, u32>,
    time: u32,
    /// What the messages that were taken in since the last `replace_losses` show of records that aren't read, or are
    /// summed otherwise than their exporter may mean; none before the first: an opening counts nothing. It is passed on
    /// to nobody.
    losses: Option<Losses>,
}

impl Model for Carry {
    ghost use Rattle.flow_segment.specs.Carry.{kept_as, Carry, IsCarry};

    ghost Value = { Carry };

    ghost view = { λ c. kept_as c.templates c.due.entries c.time };

    ghost invariant = { λ c. IsCarry (kept_as c.templates c.due.entries c.time) };
}

impl Carry {
    /// The carry before any message.
    pub fn new(alloc: Global) -> Self
        ensures { result ≡ no_carry 0 }
    {
        Carry {
            templates: Templates::new(alloc),
            due: IndexMap::new(alloc),
            time: 0,
            losses: None,
        }
    }

    /// Takes in a message that is accepted after those before it; else answers its first fault, or `OutOfMemory` where
    /// a growth of memory was refused. After an `Err` all is as it was.
    ///
    /// It walks the message once, and copies no templates.
    pub fn take(&mut self, alloc: Global, octets: &[u8]) -> Result<(), MessageError>
        // The octets are an accepted message, and the carry is the one after it.
        ensures taken { OnOk result (IsTaken octets.now self.old self.new) }
        // An accepted message is taken in, unless memory runs out.
        ensures only { (a : Accepted) → a.octets ≡ octets.now
            → IsAccepted octets.now self.old.templates a.message a.after → TakesOnly a self.old self.new result }
        // Other octets are refused by their first fault.
        ensures refused { IfErr result
            (λ e. (e ≡ MessageError.OutOfMemory) ⊎ IsFault octets.now self.old.templates e) }
        ensures kept { IfErr result (λ _. self.new ≡ self.old) }
    {
        self.restate(alloc, octets, &mut None)?;
        Ok(())
    }

    /// The same, and answers whether the message has no data records: one of a prefix has none. Where a span is given,
    /// the starts of the message's flows are noted in it.
    pub fn restate(
        &mut self,
        alloc: Global,
        octets: &[u8],
        span: &mut Option<PartSpan>,
    ) -> Result<bool, MessageError>
        ensures taken { IfOk result (λ bare. IsTakenAs bare octets.now self.old self.new) }
        ensures only { (a : Accepted) → a.octets ≡ octets.now
            → IsAccepted octets.now self.old.templates a.message a.after → TakesOnly a self.old self.new result }
        ensures refused { IfErr result
            (λ e. (e ≡ MessageError.OutOfMemory) ⊎ IsFault octets.now self.old.templates e) }
        ensures kept { IfErr result (λ _. self.new ≡ self.old) }
        ensures noted { OnOk result ((a : Accepted) → a.octets ≡ octets.now
            → IsAccepted octets.now self.old.templates a.message a.after → span.new ≡ noted a.message span.old) }
        ensures unnoted { IfErr result (λ _. span.new ≡ span.old) }
    {
        self.due.reserve(1)?;
        let counting = self.losses.is_some();
        let (walked, count, caveats) = counted(&mut self.templates, alloc, octets, span, counting)?;
        let header = walked.header;
        self.losses = losses_with(self.losses, &walked, &self.due, caveats);
        let due = header.sequence.wrapping_add(count);
        put_due(&mut self.due, &self.templates, header.domain, due);
        self.time = header.time;
        Ok(is_none(count))
    }

    /// The octets of the next segment's prefix: an IPFIX File (RFC 5655) without data records that restates all this.
    pub fn prefix(&self, alloc: Global) -> Result<Vec<u8>, AllocError>
        ensures octets { IfOk result (λ octets. octets.items ≡ prefix_of self.now) }
        ensures carry { IsCarry self.now }
    {
        let due = pairs_of(alloc, &self.due)?;
        write_templates(&self.templates, alloc, self.time, due.as_slice())
    }

    /// An equal value.
    pub fn try_copy(&self) -> Result<Self, AllocError>
        ensures { IfOk result (λ copy. copy ≡ self.now) }
    {
        let templates = self.templates.try_copy()?;
        match self.due.clone() {
            Ok(due) => Ok(Carry {
                templates,
                due,
                time: self.time,
                losses: self.losses,
            }),
            Err(refused) => {
                drop(templates);
                Err(refused)
            }
        }
    }

    /// What the messages that were taken in show of records that aren't read, or are summed otherwise, counted from what
    /// was put here last; from now on they are counted from these on. Those of a batch that was refused show nothing.
    /// Before its first call nothing is counted, and it answers none.
    pub fn replace_losses(&mut self, losses: Losses) -> Losses
        ensures { self.new ≡ self.old }
    {
        let counted = mem::replace(&mut self.losses, Some(losses));
        counted.unwrap_or(Losses::none())
    }

    /// A copy of the templates.
    pub(crate) fn copied_templates(&self) -> Result<Templates, AllocError>
        ensures { IfOk result (λ copy. copy ≡ self.now.templates) }
    {
        self.templates.try_copy()
    }

    /// What restores the carry as it is now, as long as its templates stay in force.
    pub(crate) fn undo(&self) -> Result<Undo, AllocError>
        ensures kept { IfOk result (λ undo. restored self.now.templates undo ≡ self.now) }
        ensures carry { IsCarry self.now }
    {
        let due = self.due.clone()?;
        let time = self.time;
        let losses = self.losses;
        Ok(Undo {
            templates: None,
            due,
            time,
            losses,
        })
    }

    /// Puts back what was kept.
    pub(crate) fn put_back(&mut self, mut undo: Undo)
        requires { IsCarry (restored self.old.templates undo) }
        ensures { self.new ≡ restored self.old.templates undo }
    {
        if let Some(templates) = undo.templates.take() {
            drop(mem::replace(&mut self.templates, templates));
        }
        drop(mem::replace(&mut self.due, undo.due));
        self.time = undo.time;
        self.losses = undo.losses;
    }
}

/// What is counted before any message, where something is.
fn no_caveats_if(counting: bool) -> Option<CaveatCounts>
    ensures { result ≡ caveats_if counting }
{
    if counting {
        Some(CaveatCounts::none())
    } else {
        None
    }
}

/// What was counted, with what a message shows more, before which the next Sequence Numbers were these; none where
/// nothing is counted.
fn losses_with(
    losses: Option<Losses>,
    walked: &Walked,
    due: &IndexMap<u32, u32>,
    caveats: Option<CaveatCounts>,
) -> Option<Losses>
    ensures { losses ≡ None → result ≡ None }
{
    let so_far = losses?;
    let more = Losses {
        caveats: caveats?,
        ..Losses::of(walked, due.get(&walked.header.domain).copied())
    };
    Some(so_far.and(more))
}

/// Takes a message's templates in, counts its data records modulo 2^32, and notes when its flows start, where a span is
/// given; where it is `counting`, it counts those that are summed otherwise than their exporter may mean.
fn counted(
    templates: &mut Templates,
    alloc: Global,
    octets: &[u8],
    span: &mut Option<PartSpan>,
    counting: bool,
) -> Result<(Walked, u32, Option<CaveatCounts>), MessageError>
    ensures found { IfOk result (λ x. IsCounted octets.now templates.old templates.new x.0.header x.1) }
    ensures only { (a : Accepted) → IsAccepted octets.now templates.old a.message a.after
        → IfErr result (λ e. e ≡ MessageError.OutOfMemory) }
    ensures fault { IfErr result (λ e. (e ≡ MessageError.OutOfMemory) ⊎ IsFault octets.now templates.old e) }
    ensures err { OnErr result (templates.new ≡ templates.old) }
    ensures noted { OnOk result ((a : Accepted) → IsAccepted octets.now templates.old a.message a.after
        → span.new ≡ noted a.message span.old) }
    ensures unnoted { OnErr result (span.new ≡ span.old) }
    ensures caveats { IfOk result (λ x. (a : Accepted) → IsAccepted octets.now templates.old a.message a.after
        → x.2 ≡ option_map (λ c. with_caveats c (under a.message.header a.message.records)) (caveats_if counting)) }
{
    let mut noting = Noting {
        records: 0,
        span: *span,
        caveats: no_caveats_if(counting),
    };
    match walk_sets(templates, alloc, octets, &mut noting) {
        Ok(walked) => {
            *span = noting.span;
            Ok((walked, noting.records, noting.caveats))
        }
        Err(WalkError::Message(fault)) => Err(fault),
        Err(WalkError::Sink(never)) => match never {},
    }
}

/// Whether a count is 0.
fn is_none(count: u32) -> bool
    ensures value { result ≡ nat_eq count 0 }
    ensures range { count < 2 ^ 32 }
{
    count == 0
}

/// Sets a domain's next sequence number, where it has definitions in force.
fn put_due(due: &mut IndexMap<u32, u32>, templates: &Templates, domain: u32, number: u32)
    requires { 0 < spare due.old }
    ensures { AreNext domain number templates.now due.old.entries due.new.entries }
{
    if templates.has_domain(domain) {
        let stored: Result<_, _> = due.insert(domain, number);
        stored.unwrap();
    } else {
        due.shift_remove(&domain);
    }
}

/// The domains and their numbers.
fn pairs_of(alloc: Global, due: &IndexMap<u32, u32>) -> Result<Vec<(u32, u32)>, AllocError>
    ensures { IfOk result (λ pairs. pairs.items ≡ due.now.entries) }
{
    let mut pairs = Vec::with_capacity(alloc, due.len())?;
    for (domain, number) in due {
        pairs.push((*domain, *number))?;
    }
    Ok(pairs)
}
