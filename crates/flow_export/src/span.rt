//! Which messages are asked for.

ghost use Rattle.std.specs.Prelude.{◌≡◌, ◌≤◌, IfSome};
ghost use Rattle.flow_export.specs.Asked.{last_before};

/// Messages by their numbers, which count all that an archive has taken in, from 1 on: those from `from` on, or else
/// from the first one on that is kept, up to `to`.
#[derive(Clone, Copy, Debug)]
pub struct MessageSpan {
    pub from: Option<u64>,
    pub to: u64,
}

/// The number of the last message before those that are asked for, where messages up to `cut` are in sums alone; none
/// where one of these is asked for.
pub(crate) fn last_before(span: &MessageSpan, cut: u64) -> Option<u64>
    ensures value { result ≡ last_before span.now cut }
    ensures least { IfSome result (λ before. cut ≤ before) }
{
    match span.from {
        None => Some(cut),
        Some(from) if from <= cut => None,
        Some(from) => Some(from - 1),
    }
}
