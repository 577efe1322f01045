//! The templates while a message is read. What its template records change in its own domain is kept beside the
//! templates and applied to them as the last step, so that a refusal leaves them as they were and no message copies a
//! domain.

ghost use Rattle.std.specs.Prelude.{◌≡◌, ◌≤◌, ◌||◌, List, true, false, length, nat_lt, OnOk, OnErr, IfOk};
ghost use Rattle.std.specs.Option.{is_some, option_copied};
ghost use Rattle.flow_codec.specs.Reading.{Gives, templates_at, limited};
ghost use Rattle.flow_codec.specs.Raw.{RawRecord};
ghost use Rattle.flow_codec.specs.Replaced.{replaces, replacing_at};
ghost use Rattle.flow_codec.specs.Templates.{AllTemplates, applied, changed, definition_of, definitions_of};
ghost use Rattle.flow_codec.specs.Templates.{domain_size, is_empty, AreTemplatesInForce};
ghost use Rattle.flow_codec.specs.Working.{current, changed_in, AreOver, AreChanges};
ghost use Rattle.flow_codec.specs.declared.templates.DomainTemplates.{DomainTemplates};

use crate::error::MessageError;
use crate::kind::TemplateKind;
use crate::message::Header;
use crate::overlay::Overlay;
use crate::template_records::{is_ended, template_of};
use crate::templates::{Definition, DomainTemplates, MOST_OCTETS, TemplateRecord, Templates};
use std::alloc::{AllocError, Global};

/// What template records have changed in a domain, and whether it was without definitions before one of them.
#[derive(Drop)]
pub(crate) struct Changed {
    pub(crate) templates: Overlay,
    pub(crate) options: Overlay,
    pub(crate) left: bool,
}

impl Changed {
    /// No change.
    fn new(here: &DomainTemplates) -> Self
        ensures over { AreOver here.now result }
        ensures same { changed_in here.now result ≡ here.now }
        ensures left { result.left ≡ false }
    {
        Changed {
            templates: Overlay::new(&here.templates),
            options: Overlay::new(&here.options),
            left: false,
        }
    }

    /// The definition in force under an ID.
    fn find<'a>(&'a self, here: &'a DomainTemplates, id: u16) -> Option<&'a Definition>
        requires { AreOver here.now self.now }
        ensures { option_copied result ≡ definition_of id (changed_in here.now self.now) }
    {
        match self.templates.get(&here.templates, id) {
            Some(definition) => Some(definition),
            None => self.options.get(&here.options, id),
        }
    }

    /// Applies a template record. After an `Err` the changes are of no use.
    fn apply(
        &mut self,
        alloc: Global,
        here: &DomainTemplates,
        kind: TemplateKind,
        change: TemplateRecord,
    ) -> Result<(), AllocError>
        requires { AreOver here.now self.old }
        ensures over { OnOk result (AreOver here.now self.new) }
        ensures changed { OnOk result
            (changed_in here.now self.new ≡ changed kind change (changed_in here.now self.old)) }
        ensures left { self.new.left ≡ self.old.left }
    {
        match (kind, change) {
            (TemplateKind::Plain, TemplateRecord::Define(id, definition)) => {
                self.templates
                    .change(alloc, &here.templates, id, Some(definition))?;
                self.options.take(alloc, &here.options, id)?;
            }
            (TemplateKind::Options, TemplateRecord::Define(id, definition)) => {
                self.templates.take(alloc, &here.templates, id)?;
                self.options
                    .change(alloc, &here.options, id, Some(definition))?;
            }
            (TemplateKind::Plain, TemplateRecord::Withdraw(id)) => {
                self.templates.take(alloc, &here.templates, id)?;
            }
            (TemplateKind::Options, TemplateRecord::Withdraw(id)) => {
                self.options.take(alloc, &here.options, id)?;
            }
            (TemplateKind::Plain, TemplateRecord::WithdrawAll) => self.templates.clear(),
            (TemplateKind::Options, TemplateRecord::WithdrawAll) => self.options.clear(),
        }
        Ok(())
    }

    /// Applies a template record, and notes whether the domain was without definitions before it. After an `Err` the
    /// changes are of no use.
    fn step(
        &mut self,
        alloc: Global,
        here: &DomainTemplates,
        kind: TemplateKind,
        change: TemplateRecord,
    ) -> Result<(), AllocError>
        requires { AreOver here.now self.old }
        ensures over { OnOk result (AreOver here.now self.new) }
        ensures changed { OnOk result
            (changed_in here.now self.new ≡ changed kind change (changed_in here.now self.old)) }
        ensures left { self.new.left ≡ (self.old.left || is_empty (changed_in here.now self.old)) }
    {
        self.left |= self.is_empty();
        self.apply(alloc, here, kind, change)
    }

    /// Whether no definition is left.
    pub(crate) fn is_empty(&self) -> bool
        ensures { (here : DomainTemplates) → AreOver here self.now → result ≡ is_empty (changed_in here self.now) }
    {
        self.templates.is_empty() && self.options.is_empty()
    }

    /// Whether the template records have more than 60,000 octets.
    fn is_too_large(&self) -> bool
        ensures { (here : DomainTemplates) → AreOver here self.now
            → result ≡ nat_lt 60000 (domain_size (changed_in here self.now)) }
    {
        self.templates.size.saturating_add(self.options.size) > MOST_OCTETS
    }
}

/// The definition in force under an ID, in a domain where `here` was in force before the message.
pub(crate) fn find_in<'a>(
    before: &Templates,
    domain: u32,
    here: &'a DomainTemplates,
    changed: &'a Option<Changed>,
    id: u16,
) -> Option<&'a Definition>
    requires here { here.now ≡ definitions_of domain before.now }
    requires changes { AreChanges domain before.now changed.now }
    ensures { option_copied result ≡ definition_of id (definitions_of domain (current domain before.now changed.now)) }
{
    before.are_in_force();
    match changed {
        Some(changed) => changed.find(here, id),
        None => here.find(id),
    }
}

/// Begins with no change in a domain where `here` is in force, unless changes have begun.
fn begin(before: &Templates, domain: u32, here: &DomainTemplates, changed: &mut Option<Changed>)
    requires here { here.now ≡ definitions_of domain before.now }
    requires changes { AreChanges domain before.now changed.old }
    ensures changes { AreChanges domain before.now changed.new }
    ensures same { current domain before.now changed.new ≡ current domain before.now changed.old }
    ensures some { is_some changed.new ≡ true }
{
    before.are_in_force();
    match changed {
        Some(_) => {}
        None => *changed = Some(Changed::new(here)),
    }
}

/// Applies a template record after the changes so far.
fn step_in(
    alloc: Global,
    before: &Templates,
    domain: u32,
    here: &DomainTemplates,
    changed: &mut Option<Changed>,
    kind: TemplateKind,
    change: TemplateRecord,
) -> Result<(), AllocError>
    requires here { here.now ≡ definitions_of domain before.now }
    requires some { is_some changed.old ≡ true }
    requires changes { AreChanges domain before.now changed.old }
    ensures changes { OnOk result (AreChanges domain before.now changed.new) }
    ensures applied { OnOk result
        (current domain before.now changed.new ≡ applied domain kind change (current domain before.now changed.old)) }
{
    before.are_in_force();
    match changed {
        Some(now) => now.step(alloc, here, kind, change),
        None => Ok(()),
    }
}

/// Applies a template record in a domain where `here` is in force. After an `Err`, `changed` is to be thrown away.
fn apply_in(
    alloc: Global,
    before: &Templates,
    domain: u32,
    here: &DomainTemplates,
    changed: &mut Option<Changed>,
    kind: TemplateKind,
    change: TemplateRecord,
) -> Result<(), AllocError>
    requires here { here.now ≡ definitions_of domain before.now }
    requires changes { AreChanges domain before.now changed.old }
    ensures changes { OnOk result (AreChanges domain before.now changed.new) }
    ensures applied { OnOk result
        (current domain before.now changed.new ≡ applied domain kind change (current domain before.now changed.old)) }
{
    begin(before, domain, here, changed);
    step_in(alloc, before, domain, here, changed, kind, change)
}

/// Whether a template record defines its ID otherwise than the definition that is in force under it, in a domain where
/// `here` was in force before the message.
fn replaces(
    before: &Templates,
    domain: u32,
    here: &DomainTemplates,
    changed: &Option<Changed>,
    change: &TemplateRecord,
) -> bool
    requires here { here.now ≡ definitions_of domain before.now }
    requires changes { AreChanges domain before.now changed.now }
    ensures { result ≡ replaces domain (current domain before.now changed.now) change.now }
{
    let TemplateRecord::Define(id, definition) = change else {
        return false;
    };
    match find_in(before, domain, here, changed, *id) {
        Some(other) => !other.is_same(definition),
        None => false,
    }
}

/// Applies the template records of a Set that ends at `end`, in a domain where `here` is in force, and counts those
/// that replace a definition. After an `Err`, `changed` is to be thrown away.
pub(crate) fn templates_of(
    alloc: Global,
    end: usize,
    before: &Templates,
    domain: u32,
    here: &DomainTemplates,
    kind: TemplateKind,
    changed: &mut Option<Changed>,
    octets: &[u8],
) -> Result<usize, MessageError>
    requires end { length octets.now ≤ end }
    requires here { here.now ≡ definitions_of domain before.now }
    requires changes { AreChanges domain before.now changed.old }
    ensures changes { OnOk result (AreChanges domain before.now changed.new) }
    ensures replaced { IfOk result (λ count. count ≡ replacing_at (length octets.now) end domain kind
        (current domain before.now changed.old) octets.now) }
    ensures few { IfOk result (λ count. count ≤ length octets.now) }
    ensures exact { Gives (λ _. current domain before.now changed.new) result
        (templates_at (length octets.now) end domain kind (current domain before.now changed.old) octets.now) }
{
    let mut replaced = 0;
    let mut rest = octets;
    'records: while !is_ended(rest) {
        let (change, after) = template_of(alloc, kind, end - rest.len(), rest)?;
        if replaces(before, domain, here, changed, &change) {
            replaced += 1;
        }
        apply_in(alloc, before, domain, here, changed, kind, change)?;
        rest = after;
    }
    Ok(replaced)
}

/// Refuses templates that pass a limit: that of the message's own domain first, then that on domains.
pub(crate) fn keep_limits(
    before: &Templates,
    header: &Header,
    changed: &Option<Changed>,
) -> Result<(), MessageError>
    requires { AreChanges header.now.domain before.now changed.now }
    ensures { (records : List RawRecord)
        → Gives (λ _. (
          record { header = header.now; records = records },
          current header.now.domain before.now changed.now,
        )) result
        (limited (record { header = header.now; records = records })
        (current header.now.domain before.now changed.now)) }
{
    before.are_in_force();
    let Some(changed) = changed else {
        return Ok(());
    };
    if changed.is_too_large() {
        return Err(MessageError::TemplatesFull(header.domain));
    }
    if changed.is_empty() {
        return Ok(());
    }
    if before.lacks_room_for(header.domain) {
        return Err(MessageError::DomainsFull);
    }
    Ok(())
}

/// Applies the changes to the templates, and takes them out of `changed`. An `Err` changes nothing in the templates.
pub(crate) fn put_in(
    alloc: Global,
    templates: &mut Templates,
    domain: u32,
    changed: &mut Option<Changed>,
) -> Result<(), AllocError>
    requires changes { AreChanges domain templates.old changed.old }
    requires in_force { AreTemplatesInForce (current domain templates.old changed.old) }
    ensures ok { OnOk result (templates.new ≡ current domain templates.old changed.old) }
    ensures err { OnErr result (templates.new ≡ templates.old) }
{
    match changed {
        Some(changed) => templates.take_in(alloc, domain, changed),
        None => Ok(()),
    }
}
