//! Template records (RFC 7011, sections 3.4.1, 3.4.2.2 and 8.1).

ghost use Rattle.std.specs.Prelude.{◌≡◌, ◌+◌, ◌≤◌, length, IfOk};
ghost use Rattle.flow_codec.specs.Reading.{Gives, is_ended, specifier_at, specifiers_at, scope_at, definition_at};
ghost use Rattle.flow_codec.specs.Reading.{template_at};

use crate::error::MessageError;
use crate::kind::TemplateKind;
use crate::numbers::{u16_at, u32_at};
use crate::short_list::ShortList;
use crate::templates::{Definition, TemplateRecord};
use flow_elements::ElementId;
use std::alloc::Global;

/// The Enterprise bit of an element's number: an enterprise number follows.
const ENTERPRISE_BIT: u16 = 32768;

/// The least ID of a template.
const FIRST_TEMPLATE: u16 = 256;

/// The octets of the shortest field specifier.
const SPECIFIER: usize = 4;

/// Whether a Set of template records ends here: fewer than 4 octets are left, or the next ID is 0.
pub(crate) fn is_ended(octets: &[u8]) -> bool
    ensures { result ≡ is_ended octets.now }
{
    octets.len() < 4 || u16::from_be_bytes([octets[0], octets[1]]) == 0
}

/// A field specifier of the template record at `at`, and the octets after it.
#[tactic(auto, unfolding(crate::specs::Reading::specifier_at))]
fn specifier_of(at: usize, octets: &[u8]) -> Result<((ElementId, u16), &[u8]), MessageError>
    ensures exact { Gives (λ x. (x.0, x.1.now)) result (specifier_at at octets.now) }
    ensures len { IfOk result (λ x. length x.1.now + 4 ≤ length octets.now) }
{
    let cut = MessageError::TemplateCut(at);
    let (number, rest) = u16_at(cut, octets)?;
    let (len, rest) = u16_at(cut, rest)?;
    if number < ENTERPRISE_BIT {
        let id = ElementId {
            enterprise: None,
            number,
        };
        return Ok(((id, len), rest));
    }
    let (enterprise, rest) = u32_at(cut, rest)?;
    let id = ElementId {
        enterprise: Some(enterprise),
        number: number - ENTERPRISE_BIT,
    };
    Ok(((id, len), rest))
}

/// The field specifiers of the template record at `at`, and the octets after them.
fn specifiers_of(
    alloc: Global,
    at: usize,
    count: u16,
    octets: &[u8],
) -> Result<(ShortList<(ElementId, u16)>, &[u8]), MessageError>
    ensures exact { Gives (λ x. (x.0, x.1.now)) result (specifiers_at at count octets.now) }
    ensures count { IfOk result (λ x. length x.0 ≡ count) }
    ensures len { IfOk result (λ x. length x.1.now ≤ length octets.now) }
{
    let room = (octets.len() / SPECIFIER).min(count as usize);
    let mut specifiers = ShortList::with_capacity(alloc, room)?;
    let mut rest = octets;
    for _ in 0..count {
        let (specifier, after) = specifier_of(at, rest)?;
        specifiers.push(alloc, specifier)?;
        rest = after;
    }
    Ok((specifiers, rest))
}

/// The Scope Field Count of an Options Template Record, and the octets after it. A Template Record has none.
fn scope_of(
    kind: TemplateKind,
    at: usize,
    count: u16,
    octets: &[u8],
) -> Result<(u16, &[u8]), MessageError>
    ensures exact { Gives (λ x. (x.0, x.1.now)) result (scope_at kind at count octets.now) }
    ensures len { IfOk result (λ x. length x.1.now ≤ length octets.now) }
{
    if kind == TemplateKind::Plain {
        return Ok((0, octets));
    }
    let (scope, rest) = u16_at(MessageError::TemplateCut(at), octets)?;
    if scope == 0 || count < scope {
        return Err(MessageError::ScopeCount(at));
    }
    Ok((scope, rest))
}

/// The template record at `at`, and the octets after it.
#[tactic(auto, unfolding(crate::specs::Reading::template_at))]
pub(crate) fn template_of(
    alloc: Global,
    kind: TemplateKind,
    at: usize,
    octets: &[u8],
) -> Result<(TemplateRecord, &[u8]), MessageError>
    ensures exact { Gives (λ x. (x.0, x.1.now)) result (template_at kind at octets.now) }
    ensures len { IfOk result (λ x. length x.1.now + 4 ≤ length octets.now) }
{
    let cut = MessageError::TemplateCut(at);
    let (id, rest) = u16_at(cut, octets)?;
    let (count, rest) = u16_at(cut, rest)?;
    if id == kind.set_id() && count == 0 {
        return Ok((TemplateRecord::WithdrawAll, rest));
    }
    if id < FIRST_TEMPLATE {
        return Err(MessageError::TemplateId(at));
    }
    if count == 0 {
        return Ok((TemplateRecord::Withdraw(id), rest));
    }
    let (scope, rest) = scope_of(kind, at, count, rest)?;
    let (fields, rest) = specifiers_of(alloc, at, count, rest)?;
    let definition = Definition::new(alloc, kind, scope, fields)?;
    Ok((TemplateRecord::Define(id, definition), rest))
}
