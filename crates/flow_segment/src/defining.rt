//! Messages that define nothing, as the headers of their Sets say.

ghost use Rattle.std.specs.Prelude.{◌≡◌, ◌≢◌, false, IfSome};
ghost use Rattle.flow_segment.specs.Batch.{IsAfterSet, LeavesTemplates};

use flow_codec::TemplateKind;

/// The octets of a message's header (RFC 7011, section 3.1), and of a Set's (section 3.3.2).
const MESSAGE_HEADER: usize = 16;

const SET_HEADER: usize = 4;

/// Whether Sets of this ID hold template records.
fn is_of_templates(id: u16) -> bool
    ensures { result ≡ false → (id ≢ 2) × (id ≢ 3) }
{
    id == TemplateKind::Plain.set_id() || id == TemplateKind::Options.set_id()
}

/// The octets after the Set with which these begin, if it is whole and not one of template records.
fn after_set(octets: &[u8]) -> Option<&[u8]>
    ensures { IfSome result (λ rest. IsAfterSet octets.now rest.now) }
{
    if octets.len() < SET_HEADER {
        return None;
    }
    let (id, others) = octets.split_at(2);
    let (length, _) = others.split_at(2);
    let id = u16::from_be_bytes([id[0], id[1]]);
    let length = u16::from_be_bytes([length[0], length[1]]) as usize;
    if is_of_templates(id) || length < SET_HEADER || length > octets.len() {
        return None;
    }
    Some(&octets[length..])
}

/// Whether octets may be a message that defines or withdraws templates: one of its Sets is of template records, or it
/// doesn't divide into whole Sets. It looks at the Sets' headers alone.
pub(crate) fn may_define(octets: &[u8]) -> bool
    ensures { result ≡ false → LeavesTemplates octets.now }
{
    if octets.len() < MESSAGE_HEADER {
        return true;
    }
    let mut rest = &octets[MESSAGE_HEADER..];
    'sets: while !rest.is_empty() {
        match after_set(rest) {
            Some(after) => rest = after,
            None => return true,
        }
    }
    false
}
