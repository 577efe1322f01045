//! The templates in force.

ghost use Rattle.std.specs.Prelude.{◌≡◌, ◌↔◌, IsTrue, false, [], OnOk, OnErr, IfOk, ◌<◌, ◌≤◌, ◌^◌, ◌+◌, length, nat_lt};
ghost use Rattle.std.specs.Option.{is_some, option_copied};
ghost use Rattle.std.specs.Map.{lookup};
ghost use Rattle.flow_codec.specs.Caveats.{are_uncounted, elements_of};
ghost use Rattle.flow_codec.specs.Layout.{Layout, IsLayout, is_options, definition_size};
ghost use Rattle.flow_codec.specs.Plan.{plan_of};
ghost use Rattle.flow_codec.specs.Templates.{changed, definition_of, definitions_of, domain_size, is_empty};
ghost use Rattle.flow_codec.specs.Templates.{no_definitions, AreTemplatesInForce, IsOnce};
ghost use Rattle.flow_codec.specs.Working.{put_back, current, changed_in, AreOver};
ghost use Rattle.std.specs.Prelude.{ℕ, Some, nat_eq};
ghost use Rattle.std.specs.HashMap.{spare};
ghost use Rattle.indexmap.specs.IndexMap.{insert_entry};
ghost use Rattle.flow_codec.specs.declared.templates.DomainTemplates.{DomainTemplates};

use crate::caveats::{are_uncounted, elements_of};
use crate::definitions::{Definitions, make_changes};
use crate::kind::TemplateKind;
use crate::plan::{Plan, plan_of};
use crate::short_list::ShortList;
use crate::working::Changed;
use flow_elements::ElementId;
use indexmap::IndexMap;
use std::alloc::{AllocError, Global};
use std::marker::Model;
use std::sync::Arc;

/// The most octets of template records in force in an Observation Domain.
pub(crate) const MOST_OCTETS: u128 = 60000;

/// The most Observation Domains with templates in force.
const MOST_DOMAINS: usize = 64;

/// What the records of one template ID hold (RFC 7011, section 3.4). Copies share it.
#[derive(Debug, Drop)]
pub struct Definition {
    shared: Arc<Parts>,
}

#[derive(Debug, Drop)]
struct Parts {
    options: bool,
    scope: u16,
    fields: ShortList<(ElementId, u16)>,
    plan: Plan,
    size: usize,
    /// Octets or packets are counted by an element that isn't summed.
    uncounted: bool,
    /// The records have a sampling rate.
    sampled: bool,
}

impl Model for Definition {
    ghost use Rattle.std.specs.Prelude.{◌≡◌, ◌<◌, ◌^◌, length};
    ghost use Rattle.std.specs.Arc.{arc_value};
    ghost use Rattle.flow_codec.specs.Layout.{Layout, definition_size};
    ghost use Rattle.flow_codec.specs.Plan.{plan_of};
    ghost use Rattle.flow_codec.specs.Parts.{layout_of};
    ghost use Rattle.flow_codec.specs.Caveats.{are_uncounted, elements_of};

    ghost Value = { Layout };

    ghost view = { λ d. layout_of (arc_value d.shared) };

    ghost invariant = { λ d. (length (arc_value d.shared).fields < 2 ^ 16)
        × ((arc_value d.shared).plan ≡ plan_of (arc_value d.shared).fields)
        × ((arc_value d.shared).size ≡ definition_size (layout_of (arc_value d.shared)))
        × ((arc_value d.shared).size < 2 ^ 20)
        × ((arc_value d.shared).uncounted ≡ are_uncounted (elements_of (arc_value d.shared).fields))
        × ((arc_value d.shared).sampled ≡ (elements_of (arc_value d.shared).fields).rate) };
}

impl Clone for Definition {
    ghost is_clone = { λ a b. b ≡ a };

    fn clone(&self) -> Result<Self, AllocError> {
        Ok(Definition {
            shared: Arc::try_clone(&self.shared)?,
        })
    }
}

/// The octets of a template record of this kind with these fields.
fn size_of(options: bool, fields: &[(ElementId, u16)]) -> usize
    requires { length fields.now < 2 ^ 16 }
    ensures exact { (scope : ℕ)
        → result ≡ definition_size (record { options = options; scope = scope; fields = fields.now }) }
    ensures bound { result < 2 ^ 20 }
{
    let mut size = if options { 6 } else { 4 };
    for (id, _) in fields {
        size += if id.enterprise.is_some() { 8 } else { 4 };
    }
    size
}

impl Definition {
    /// A definition of this kind, whose first `scope` fields are scope fields.
    pub(crate) fn new(
        alloc: Global,
        kind: TemplateKind,
        scope: u16,
        fields: ShortList<(ElementId, u16)>,
    ) -> Result<Self, AllocError>
        requires { length fields < 2 ^ 16 }
        ensures { IfOk result (λ d. d ≡ record { options = is_options kind; scope = scope; fields = fields }) }
    {
        let options = kind.is_options();
        let plan = plan_of(alloc, fields.as_slice())?;
        let size = size_of(options, fields.as_slice());
        let elements = elements_of(fields.as_slice());
        let parts = Parts {
            options,
            scope,
            fields,
            plan,
            size,
            uncounted: are_uncounted(elements),
            sampled: elements.rate,
        };
        Ok(Definition {
            shared: Arc::new(alloc, parts)?,
        })
    }

    /// Whether this is an Options Template.
    pub fn options(&self) -> bool
        ensures { result ≡ self.now.options }
    {
        self.shared.options
    }

    /// The number of scope fields, 0 in a Template.
    pub fn scope(&self) -> u16
        ensures { result ≡ self.now.scope }
    {
        self.shared.scope
    }

    /// Each field's element and Field Length, scope fields first.
    pub fn fields(&self) -> &[(ElementId, u16)]
        ensures { result.now ≡ self.now.fields }
    {
        self.shared.fields.as_slice()
    }

    /// Whether both define the same: kind, scope fields, and each field's element and Field Length.
    pub fn is_same(&self, other: &Definition) -> bool
        ensures { IsTrue result ↔ (self.now ≡ other.now) }
    {
        if self.options() != other.options() || self.scope() != other.scope() {
            return false;
        }
        self.fields() == other.fields()
    }

    /// The octets of its template record.
    pub(crate) fn size(&self) -> usize
        ensures exact { result ≡ definition_size self.now }
        ensures bound { result < 2 ^ 20 }
    {
        self.shared.size
    }

    /// Whether octets or packets are counted by an element alone that isn't summed: postOctetDeltaCount,
    /// octetTotalCount or layer2OctetDeltaCount, postPacketDeltaCount or packetTotalCount.
    pub fn is_uncounted(&self) -> bool
        ensures { result ≡ are_uncounted (elements_of self.now.fields) }
    {
        self.shared.uncounted
    }

    /// Whether the records have a sampling rate: samplingInterval, samplerRandomInterval, or a parameter of a sampling
    /// method (RFC 5477, section 8.2).
    pub fn is_sampled(&self) -> bool
        ensures { result ≡ (elements_of self.now.fields).rate }
    {
        self.shared.sampled
    }

    /// How each record is stepped over.
    pub fn plan(&self) -> &Plan
        ensures { result.now ≡ plan_of self.now.fields }
    {
        &self.shared.plan
    }
}

/// A template record, with its definition where it has one.
#[derive(Debug, Drop)]
pub enum TemplateRecord {
    /// Defines an ID.
    Define(u16, Definition),
    /// Withdraws an ID (RFC 7011, section 8.1).
    Withdraw(u16),
    /// Withdraws all definitions of its kind.
    WithdrawAll,
}

/// The definitions of one Observation Domain, in order.
#[derive(Drop)]
pub struct DomainTemplates {
    pub(crate) templates: Definitions,
    pub(crate) options: Definitions,
}

impl Clone for DomainTemplates {
    ghost is_clone = { λ a b. b ≡ a };

    fn clone(&self) -> Result<Self, AllocError> {
        self.try_copy()
    }
}

impl DomainTemplates {
    pub(crate) fn new(alloc: Global) -> Self
        ensures { result ≡ no_definitions }
    {
        DomainTemplates {
            templates: Definitions::new(alloc),
            options: Definitions::new(alloc),
        }
    }

    pub(crate) fn is_empty(&self) -> bool
        ensures { result ≡ is_empty self.now }
    {
        self.templates.is_empty() && self.options.is_empty()
    }

    /// The definition in force under an ID.
    pub(crate) fn find(&self, id: u16) -> Option<&Definition>
        ensures { option_copied result ≡ definition_of id self.now }
    {
        match self.templates.get(id) {
            Some(definition) => Some(definition),
            None => self.options.get(id),
        }
    }

    pub(crate) fn try_copy(&self) -> Result<Self, AllocError>
        ensures { IfOk result (λ copy. copy ≡ self.now) }
    {
        Ok(DomainTemplates {
            templates: self.templates.try_copy()?,
            options: self.options.try_copy()?,
        })
    }

    /// Applies a message's changes, and takes them out of `changed`. An `Err` changes nothing in the definitions.
    fn make(&mut self, changed: &mut Changed) -> Result<(), AllocError>
        requires over { AreOver self.old changed.old }
        requires size { domain_size (changed_in self.old changed.old) ≤ 60000 }
        ensures ok { OnOk result (self.new ≡ changed_in self.old changed.old) }
        ensures err { OnErr result (self.new ≡ self.old) }
    {
        make_changes(
            &mut self.templates,
            &mut self.options,
            &mut changed.templates,
            &mut changed.options,
        )
    }
}

/// The definitions of all domains, in order.
#[derive(Drop)]
pub struct Templates {
    domains: IndexMap<u32, DomainTemplates>,
    none: DomainTemplates,
}

impl Model for Templates {
    ghost use Rattle.std.specs.Prelude.{◌≡◌, List, ℕ};
    ghost use Rattle.flow_codec.specs.declared.templates.DomainTemplates.{DomainTemplates};
    ghost use Rattle.flow_codec.specs.Templates.{no_definitions, AreTemplatesInForce};

    ghost Value = { List (ℕ × DomainTemplates) };

    ghost view = { λ t. t.domains.entries };

    ghost invariant = { λ t. AreTemplatesInForce t.domains.entries × (t.none ≡ no_definitions) };
}

impl Templates {
    /// No templates.
    pub fn new(alloc: Global) -> Self
        ensures { result ≡ [] }
    {
        Templates {
            domains: IndexMap::new(alloc),
            none: DomainTemplates::new(alloc),
        }
    }

    /// The definition in force in an Observation Domain under an ID.
    pub fn find(&self, domain: u32, id: u16) -> Option<&Definition>
        ensures { option_copied result ≡ definition_of id (definitions_of domain self.now) }
    {
        self.domains.get(&domain)?.find(id)
    }

    /// Whether an Observation Domain has definitions in force.
    pub fn has_domain(&self, domain: u32) -> bool
        ensures { result ≡ is_some (lookup (nat_eq domain) self.now) }
    {
        self.domains.get(&domain).is_some()
    }

    /// The domains in order, each with its definitions.
    pub(crate) fn domains(&self) -> &IndexMap<u32, DomainTemplates>
        ensures entries { result.now.entries ≡ self.now }
        ensures in_force { AreTemplatesInForce self.now }
    {
        &self.domains
    }

    /// An equal value.
    pub fn try_copy(&self) -> Result<Self, AllocError>
        ensures { IfOk result (λ copy. copy ≡ self.now) }
    {
        Ok(Templates {
            domains: self.domains.clone()?,
            none: self.none.clone()?,
        })
    }

    /// The definitions in force in a domain.
    pub(crate) fn here(&self, domain: u32) -> &DomainTemplates
        ensures { result.now ≡ definitions_of domain self.now }
    {
        match self.domains.get(&domain) {
            Some(here) => here,
            None => &self.none,
        }
    }

    /// Whether one more definition in a domain would make more than 64 domains.
    pub(crate) fn lacks_room_for(&self, domain: u32) -> bool
        ensures { (here : DomainTemplates) → result ≡ nat_lt 64 (length (insert_entry nat_eq self.now domain here)) }
    {
        self.domains.len() >= MOST_DOMAINS && self.domains.get(&domain).is_none()
    }

    /// The templates keep their invariant. A call states that for proofs, and does nothing.
    pub(crate) fn are_in_force(&self)
        ensures { AreTemplatesInForce self.now }
    {
        let _ = &self.domains;
    }

    /// Applies a message's changes to its domain, and takes them out of `changed`. The domain goes to the end of the
    /// list where it was without definitions before one of them. All memory is taken first, so an `Err` changes nothing
    /// in the templates.
    pub(crate) fn take_in(
        &mut self,
        alloc: Global,
        domain: u32,
        changed: &mut Changed,
    ) -> Result<(), AllocError>
        requires over { AreOver (definitions_of domain self.old) changed.old }
        requires in_force { AreTemplatesInForce (current domain self.old (Some changed.old)) }
        ensures ok { OnOk result (self.new ≡ current domain self.old (Some changed.old)) }
        ensures err { OnErr result (self.new ≡ self.old) }
    {
        if changed.left || changed.is_empty() {
            return self.take_in_elsewhere(alloc, domain, changed);
        }
        match self.domains.get_index_of(&domain) {
            Some(place) => self.domains[place].make(changed),
            None => self.take_in_elsewhere(alloc, domain, changed),
        }
    }

    /// The same as `take_in`, also where the domain has no place in the list, or leaves it.
    fn take_in_elsewhere(
        &mut self,
        alloc: Global,
        domain: u32,
        changed: &mut Changed,
    ) -> Result<(), AllocError>
        requires over { AreOver (definitions_of domain self.old) changed.old }
        requires in_force { AreTemplatesInForce (current domain self.old (Some changed.old)) }
        ensures ok { OnOk result (self.new ≡ current domain self.old (Some changed.old)) }
        ensures err { OnErr result (self.new ≡ self.old) }
    {
        self.domains.reserve(2)?;
        let mut here = taken_out(&mut self.domains, alloc, domain);
        let left = changed.left;
        match here.make(changed) {
            Ok(()) => {
                put_back(&mut self.domains, domain, left, here);
                Ok(())
            }
            Err(e) => {
                put_back(&mut self.domains, domain, false, here);
                Err(e)
            }
        }
    }
}

/// Puts definitions under a domain, and answers those that it had. There is room for its entry.
fn replaced(
    domains: &mut IndexMap<u32, DomainTemplates>,
    domain: u32,
    here: DomainTemplates,
) -> Option<DomainTemplates>
    requires { 1 ≤ spare domains.old }
    ensures before { result ≡ lookup (nat_eq domain) domains.old.entries }
    ensures entries { domains.new.entries ≡ insert_entry nat_eq domains.old.entries domain here }
    ensures room { spare domains.old ≤ spare domains.new + 1 }
{
    let replaced: Result<_, _> = domains.insert(domain, here);
    replaced.unwrap()
}

/// Takes out the definitions of a domain, and leaves an empty entry in its place. There is room for that entry.
fn taken_out(
    domains: &mut IndexMap<u32, DomainTemplates>,
    alloc: Global,
    domain: u32,
) -> DomainTemplates
    requires { 2 ≤ spare domains.old }
    ensures here { result ≡ definitions_of domain domains.old.entries }
    ensures place { domains.new.entries ≡ insert_entry nat_eq domains.old.entries domain no_definitions }
    ensures room { 1 ≤ spare domains.new }
{
    match replaced(domains, domain, DomainTemplates::new(alloc)) {
        Some(here) => here,
        None => DomainTemplates::new(alloc),
    }
}

/// Puts back the definitions of a domain, at the end of the list where `last` is set. A domain without any leaves it.
fn put_back(
    domains: &mut IndexMap<u32, DomainTemplates>,
    domain: u32,
    last: bool,
    here: DomainTemplates,
)
    requires { 1 ≤ spare domains.old }
    ensures { IsOnce domains.old.entries → domains.new.entries ≡ put_back domain last here domains.old.entries }
{
    if here.is_empty() {
        domains.shift_remove(&domain);
        return;
    }
    if last {
        domains.shift_remove(&domain);
    }
    replaced(domains, domain, here);
}
