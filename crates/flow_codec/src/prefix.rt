//! The prefix: templates in force, restated in messages (RFC 7011, sections 3.1 to 3.4).

ghost use Rattle.std.specs.Prelude.{◌≡◌, ◌<◌, ◌≤◌, ◌^◌, ◌+◌, ◌++◌, length, OnOk, IfOk};
ghost use Rattle.std.specs.Int.{w16, w32, to_be_bytes};
ghost use Rattle.std.specs.List.{flat_map, AllByRecursion};
ghost use Rattle.flow_codec.specs.declared.templates.TemplateRecord.TheVariants.{Define};
ghost use Rattle.flow_codec.specs.Layout.{IsSpecifier, IsLayout, specifier, specifiers};
ghost use Rattle.flow_codec.specs.Templates.{IsDomain, IsEntry, entries_size, template};
ghost use Rattle.flow_codec.specs.Message.{set_octets};
ghost use Rattle.flow_codec.specs.Prefix.{template_set, prefix_message, prefix_octets, due_in};

use crate::definitions::Definitions;
use crate::kind::TemplateKind;
use crate::message::{HEADER, VERSION};
use crate::templates::{Definition, DomainTemplates, Templates};
use flow_elements::ElementId;
use std::alloc::{AllocError, Global};

/// The octets of a Set header.
const SET_HEADER: usize = 4;

/// What is added to an element's number where an enterprise number follows (RFC 7011, section 3.2).
const ENTERPRISE_BIT: u16 = 32768;

/// The messages that restate the templates in force: for each Observation Domain one, in their order, with a Template
/// Set of its Templates if it has any, then an Options Template Set of its Options Templates if it has any (RFC 7011,
/// section 3.4), and no padding. Export Time is `time`, in seconds since 1970-01-01 00:00 UTC; the Sequence Number is
/// the number beside the domain in `due`, 0 where it isn't there. Read from no templates on, these messages leave just
/// these templates, in their order. Answers `AllocError` where a growth of memory was refused.
pub fn write_templates(
    templates: &Templates,
    alloc: Global,
    time: u32,
    due: &[(u32, u32)],
) -> Result<Vec<u8>, AllocError>
    ensures { IfOk result (λ octets. octets.items ≡ prefix_octets time due.now templates.now) }
{
    let mut octets = Vec::new(alloc);
    for (domain, here) in templates.domains() {
        put_message(&mut octets, time, due_of(due, *domain), *domain, here)?;
    }
    Ok(octets)
}

/// The number beside a domain, 0 where it isn't there.
fn due_of(due: &[(u32, u32)], domain: u32) -> u32
    ensures { result ≡ due_in due.now domain }
{
    for (other, number) in due {
        if *other == domain {
            return *number;
        }
    }
    0
}

fn put_u16(octets: &mut Vec<u8>, number: u16) -> Result<(), AllocError>
    ensures { OnOk result (octets.new.items ≡ octets.old.items ++ to_be_bytes w16 number) }
{
    octets.extend_from_slice(&number.to_be_bytes())?;
    Ok(())
}

fn put_u32(octets: &mut Vec<u8>, number: u32) -> Result<(), AllocError>
    ensures { OnOk result (octets.new.items ≡ octets.old.items ++ to_be_bytes w32 number) }
{
    octets.extend_from_slice(&number.to_be_bytes())?;
    Ok(())
}

/// Puts a field specifier.
fn put_specifier(octets: &mut Vec<u8>, id: ElementId, length: u16) -> Result<(), AllocError>
    requires { IsSpecifier (id, length) }
    ensures { OnOk result (octets.new.items ≡ octets.old.items ++ specifier (id, length)) }
{
    match id.enterprise {
        None => {
            put_u16(octets, id.number)?;
            put_u16(octets, length)?;
        }
        Some(enterprise) => {
            put_u16(octets, id.number + ENTERPRISE_BIT)?;
            put_u16(octets, length)?;
            put_u32(octets, enterprise)?;
        }
    }
    Ok(())
}

fn put_specifiers(octets: &mut Vec<u8>, fields: &[(ElementId, u16)]) -> Result<(), AllocError>
    requires { AllByRecursion IsSpecifier fields.now }
    ensures { OnOk result (octets.new.items ≡ octets.old.items ++ specifiers fields.now) }
{
    for (id, length) in fields {
        put_specifier(octets, *id, *length)?;
    }
    Ok(())
}

/// Puts the template record that gives a definition.
pub(crate) fn put_definition(
    octets: &mut Vec<u8>,
    kind: TemplateKind,
    id: u16,
    definition: &Definition,
) -> Result<(), AllocError>
    requires { IsLayout kind definition.now }
    ensures { OnOk result (octets.new.items ≡ octets.old.items ++ template kind (Define id definition.now)) }
{
    let fields = definition.fields();
    put_u16(octets, id)?;
    put_u16(octets, fields.len() as u16)?;
    match kind {
        TemplateKind::Plain => {}
        TemplateKind::Options => put_u16(octets, definition.scope())?,
    }
    put_specifiers(octets, fields)?;
    Ok(())
}

/// The octets of the Set of these definitions, with its header. Without any there is none.
fn set_size(kind: TemplateKind, definitions: &Definitions) -> usize
    requires entries { AllByRecursion (IsEntry kind) definitions.now }
    requires size { entries_size definitions.now ≤ 60000 }
    ensures exact { result ≡ length (flat_map set_octets (template_set kind definitions.now)) }
    ensures bound { result ≤ 4 + entries_size definitions.now }
{
    if definitions.is_empty() {
        return 0;
    }
    SET_HEADER + definitions.size() as usize
}

/// Puts the Set of these definitions, where there are any.
fn put_set(
    octets: &mut Vec<u8>,
    kind: TemplateKind,
    definitions: &Definitions,
) -> Result<(), AllocError>
    requires entries { AllByRecursion (IsEntry kind) definitions.now }
    requires size { entries_size definitions.now ≤ 60000 }
    ensures { OnOk result
        (octets.new.items ≡ octets.old.items ++ flat_map set_octets (template_set kind definitions.now)) }
{
    if definitions.is_empty() {
        return Ok(());
    }
    let size = SET_HEADER + definitions.size() as usize;
    put_u16(octets, kind.set_id())?;
    put_u16(octets, size as u16)?;
    definitions.put_records(octets, kind)?;
    Ok(())
}

/// Puts the message that restates a domain's definitions.
fn put_message(
    octets: &mut Vec<u8>,
    time: u32,
    due: u32,
    domain: u32,
    here: &DomainTemplates,
) -> Result<(), AllocError>
    requires { IsDomain (domain, here.now) }
    ensures { OnOk result (octets.new.items ≡ octets.old.items ++ prefix_message time due (domain, here.now)) }
{
    let size = HEADER
        + set_size(TemplateKind::Plain, &here.templates)
        + set_size(TemplateKind::Options, &here.options);
    put_u16(octets, VERSION)?;
    put_u16(octets, size as u16)?;
    put_u32(octets, time)?;
    put_u32(octets, due)?;
    put_u32(octets, domain)?;
    put_set(octets, TemplateKind::Plain, &here.templates)?;
    put_set(octets, TemplateKind::Options, &here.options)?;
    Ok(())
}
