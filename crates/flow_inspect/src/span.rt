//! The least and the greatest of times.

ghost use Rattle.std.specs.Prelude.{◌≡◌};
ghost use Rattle.flow_inspect.specs.Counting.{hull, widened};

/// The least and the greatest of some times, in seconds since 1970-01-01 00:00 UTC.
#[derive(Clone, Copy)]
pub(crate) struct Span {
    pub(crate) first: u32,
    pub(crate) last: u32,
}

/// The least and the greatest of some times and one more.
pub(crate) fn widened(span: Option<Span>, time: u32) -> Option<Span>
    ensures { result ≡ widened span time }
{
    match span {
        Some(span) => Some(Span {
            first: span.first.min(time),
            last: span.last.max(time),
        }),
        None => Some(Span {
            first: time,
            last: time,
        }),
    }
}

/// The least and the greatest of the times of two spans.
pub(crate) fn hull(span: Option<Span>, more: Option<Span>) -> Option<Span>
    ensures { result ≡ hull span more }
{
    match (span, more) {
        (None, more) => more,
        (Some(span), None) => Some(span),
        (Some(span), Some(more)) => Some(Span {
            first: span.first.min(more.first),
            last: span.last.max(more.last),
        }),
    }
}
