//! What is known of every record of a definition before it is read.

ghost use Rattle.std.specs.Prelude.{◌≡◌, ◌<◌, ◌^◌, ◌++◌, Some, None, if◌then◌else◌, length, sum_by, IfOk, OnOk};
ghost use Rattle.flow_codec.specs.Layout.{least_length};
ghost use Rattle.flow_codec.specs.Plan.{role_of, is_counted, step_of, skip_of, steps_of};
ghost use Rattle.flow_codec.specs.Plan.{no_places, noted, are_fixed, plan_of};

use crate::short_list::ShortList;
use flow_elements::ElementId;
use std::alloc::{AllocError, Global};

/// The Field Length of a field of variable length (RFC 7011, section 7).
pub const VARIABLE: u16 = 65535;

/// What a field is counted as in a flow: IANA's elements 1, 2, 4, 150 and 152 (RFC 7012).
#[derive(Clone, Copy, Debug, PartialEq, Eq)]
pub enum Role {
    Octets,
    Packets,
    Protocol,
    Seconds,
    Milliseconds,
}

/// One step over the fields of a record.
#[derive(Clone, Copy, Debug, PartialEq, Eq)]
pub enum FieldStep {
    /// Fields of fixed lengths that count for nothing, by the octets of all of them.
    Skip(usize),
    /// A field of fixed length that counts, and its octets.
    Fixed(Role, u16),
    /// A field of variable length.
    Variable(Option<Role>),
}

/// The octets of a record that one field has: the first of them, counted from 0, and how many.
#[derive(Clone, Copy, Debug, PartialEq, Eq)]
pub struct Place {
    pub at: u32,
    pub len: u16,
}

/// The places of the numbers in a record of fixed lengths: for each role, the first field that counts.
#[derive(Clone, Copy, Debug, PartialEq, Eq)]
pub struct Places {
    pub octets: Option<Place>,
    pub packets: Option<Place>,
    pub protocol: Option<Place>,
    pub seconds: Option<Place>,
    pub milliseconds: Option<Place>,
}

/// What is known of every record of a definition.
#[derive(Debug, Drop)]
pub struct Plan {
    /// The octets of the smallest record.
    pub smallest: usize,
    pub way: Way,
}

/// How each record of a definition is stepped over.
#[derive(Debug, Drop)]
pub enum Way {
    /// No field is of variable length: the places of the numbers. Each record is as long as the smallest.
    ByPlaces(Places),
    /// Step by step: only a skip may pass over no octets, and no two skips are adjacent.
    BySteps(ShortList<FieldStep>),
}

impl Role {
    /// The role of an element, by IANA's numbers alone.
    pub fn of(id: &ElementId) -> Option<Role>
        ensures { result ≡ role_of id.now }
    {
        if id.enterprise.is_some() {
            return None;
        }
        match id.number {
            1 => Some(Role::Octets),
            2 => Some(Role::Packets),
            4 => Some(Role::Protocol),
            150 => Some(Role::Seconds),
            152 => Some(Role::Milliseconds),
            _ => None,
        }
    }

    /// Whether an element of this role counts in a length, in octets.
    pub fn is_counted(self, len: usize) -> bool
        ensures { result ≡ is_counted self len }
    {
        match self {
            Role::Octets | Role::Packets => 1 <= len && len <= 8,
            Role::Protocol => len == 1,
            Role::Seconds => len == 4,
            Role::Milliseconds => len == 8,
        }
    }
}

impl Places {
    /// No places.
    fn none() -> Self
        ensures { result ≡ no_places }
    {
        Places {
            octets: None,
            packets: None,
            protocol: None,
            seconds: None,
            milliseconds: None,
        }
    }

    /// Notes the place of a field, if the field counts and is the first of its role.
    fn note(&mut self, id: &ElementId, place: Place)
        ensures { self.new ≡ noted (role_of id.now) place self.old }
    {
        let Some(role) = Role::of(id) else {
            return;
        };
        if !role.is_counted(place.len as usize) {
            return;
        }
        match role {
            Role::Octets => self.octets = self.octets.or(Some(place)),
            Role::Packets => self.packets = self.packets.or(Some(place)),
            Role::Protocol => self.protocol = self.protocol.or(Some(place)),
            Role::Seconds => self.seconds = self.seconds.or(Some(place)),
            Role::Milliseconds => self.milliseconds = self.milliseconds.or(Some(place)),
        }
    }
}

/// The step over a field.
fn step_of(id: &ElementId, len: u16) -> FieldStep
    ensures { result ≡ step_of id.now len }
{
    let role = Role::of(id);
    if len == VARIABLE {
        return FieldStep::Variable(role);
    }
    match role {
        Some(role) if role.is_counted(len as usize) => FieldStep::Fixed(role, len),
        _ => FieldStep::Skip(len as usize),
    }
}

/// Appends a skip of these octets to the steps, where there are any.
fn push_skip(
    alloc: Global,
    steps: &mut ShortList<FieldStep>,
    skipped: Option<usize>,
) -> Result<(), AllocError>
    ensures { OnOk result (steps.new ≡ steps.old ++ skip_of skipped) }
{
    if let Some(count) = skipped {
        steps.push(alloc, FieldStep::Skip(count))?;
    }
    Ok(())
}

/// The steps over a record of these fields.
fn steps_of(alloc: Global, fields: &[(ElementId, u16)]) -> Result<ShortList<FieldStep>, AllocError>
    requires { length fields.now < 2 ^ 16 }
    ensures { IfOk result (λ steps. steps ≡ steps_of fields.now) }
{
    let mut steps: ShortList<FieldStep> = ShortList::new();
    let mut skipped: Option<usize> = None;
    for (id, len) in fields {
        match step_of(id, *len) {
            FieldStep::Skip(count) => skipped = Some(skipped.unwrap_or(0) + count),
            step => {
                push_skip(alloc, &mut steps, skipped.take())?;
                steps.push(alloc, step)?;
            }
        }
    }
    push_skip(alloc, &mut steps, skipped)?;
    Ok(steps)
}

/// The octets of the smallest record of these fields.
fn smallest_of(fields: &[(ElementId, u16)]) -> usize
    requires { length fields.now < 2 ^ 16 }
    ensures { result ≡ sum_by (λ f. least_length f.1) fields.now }
{
    let mut octets = 0;
    for (_, len) in fields {
        octets += if *len == VARIABLE { 1 } else { *len as usize };
    }
    octets
}

/// The plan of these fields where none is of variable length.
fn fixed_plan_of(fields: &[(ElementId, u16)]) -> Option<Plan>
    requires { length fields.now < 2 ^ 16 }
    ensures { result ≡ if are_fixed fields.now then Some (plan_of fields.now) else None }
{
    let mut at = 0;
    let mut places = Places::none();
    for (id, len) in fields {
        if *len == VARIABLE {
            return None;
        }
        places.note(id, Place { at, len: *len });
        at += *len as u32;
    }
    Some(Plan {
        smallest: at as usize,
        way: Way::ByPlaces(places),
    })
}

/// The plan of a definition's fields.
pub(crate) fn plan_of(alloc: Global, fields: &[(ElementId, u16)]) -> Result<Plan, AllocError>
    requires { length fields.now < 2 ^ 16 }
    ensures { IfOk result (λ plan. plan ≡ plan_of fields.now) }
{
    if let Some(plan) = fixed_plan_of(fields) {
        return Ok(plan);
    }
    Ok(Plan {
        smallest: smallest_of(fields),
        way: Way::BySteps(steps_of(alloc, fields)?),
    })
}
