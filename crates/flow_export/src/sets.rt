//! Messages with Sets of template records, as the headers of their Sets say.

ghost use Rattle.std.specs.Prelude.{◌≡◌, ◌≤◌, ◌<◌, length, drop, IfNone, IfSome};
ghost use Rattle.flow_codec.specs.Cutting.{length_of};
ghost use Rattle.flow_export.specs.Span.{holds_templates, is_of_templates};
ghost use Rattle.flow_segment.specs.Batch.{id_of};

use flow_codec::TemplateKind;

/// The octets of a message's header (RFC 7011, section 3.1), and of a Set's (section 3.3.2).
const MESSAGE_HEADER: usize = 16;

const SET_HEADER: usize = 4;

/// Whether Sets of this ID hold template records.
fn is_of_templates(id: u16) -> bool
    ensures { result ≡ is_of_templates id }
{
    id == TemplateKind::Plain.set_id() || id == TemplateKind::Options.set_id()
}

/// The ID of the Set with which octets begin, and the octets after it.
fn next_set(octets: &[u8]) -> Option<(u16, &[u8])>
    ensures id { IfSome result (λ set. set.0 ≡ id_of octets.now) }
    ensures after { IfSome result (λ set. set.1.now ≡ drop (length_of octets.now) octets.now) }
    ensures some { IfSome result (λ _. 4 ≤ length octets.now) }
    ensures none { IfNone result (length octets.now < 4) }
{
    if octets.len() < SET_HEADER {
        return None;
    }
    let (id, others) = octets.split_at(2);
    let (length, _) = others.split_at(2);
    let id = u16::from_be_bytes([id[0], id[1]]);
    let length = u16::from_be_bytes([length[0], length[1]]) as usize;
    Some((id, &octets[length.min(octets.len())..]))
}

/// Whether one of a message's Sets is of template records. It looks at the Sets' headers alone.
pub(crate) fn holds_templates(octets: &[u8]) -> bool
    ensures { result ≡ holds_templates octets.now }
{
    let mut rest = &octets[MESSAGE_HEADER.min(octets.len())..];
    for set in 0..octets.len() {
        match next_set(rest) {
            Some((id, _)) if is_of_templates(id) => return true,
            Some((_, after)) => rest = after,
            None => return false,
        }
    }
    false
}
