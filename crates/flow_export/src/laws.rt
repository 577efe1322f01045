//! Laws of what is exported.

ghost use Rattle.std.specs.Prelude.{◌≡◌, ℕ, List, take, drop, false, filter, length};
ghost use Rattle.flow_export.specs.Export.{IsExportOf, IsReadAs};
ghost use Rattle.flow_export.specs.Span.{before_first, holds_templates, is_of_span, meets_sums, span_messages};
ghost use Rattle.flow_export.specs.Span.{up_to_last, IsSpanExportOf};
ghost use Rattle.flow_measure.specs.History.{flows_in, templates_from, Accepted, History, IsHistory};
ghost use Rattle.flow_measure.specs.Query.{flows_in_view};
ghost use Rattle.flow_measure.specs.View.{view_of, AreCountsOf, View};
ghost use Rattle.flow_model.specs.Shelf.{Shelf};
ghost use Rattle.flow_model.specs.Views.{IsViewOf};
ghost use Rattle.flow_segment.specs.Batch.{LeavesTemplates};
ghost use Rattle.flow_segment.specs.PartFlows.{flows_within};

/// What is exported of the files of a view is a File that is accepted to its end, also where nothing was read before
/// it: messages without data records, that leave the templates in force before the first message that is asked for,
/// and then this message and those after it, as they were accepted. So its flows are theirs.
pub fn exported_files()
    ensures { (s : Shelf) (v : View) (skip most : ℕ) (text : List ℕ) → IsViewOf s v → IsExportOf s skip most text
        → IsReadAs text (templates_from v.templates (take skip v.kept)) (take most (drop skip v.kept)) }
{}

/// What is exported of a span of time is such a File too, of the messages of the span; and of the flows of these the
/// ones that start in the span are just those of the view, in their order. What is left out between leaves the
/// templates as they are.
pub fn exported_spans()
    ensures file { (s : Shelf) (v : View) (from to : ℕ) (text : List ℕ) → IsViewOf s v → IsSpanExportOf s v from to text
        → IsReadAs text (templates_from v.templates (take (before_first from to v.kept) v.kept))
        (span_messages from to v.kept) }
    ensures flows { (from to : ℕ) (v : View)
        → flows_within from to (flows_in (span_messages from to v.kept)) ≡ flows_in_view from to v }
    ensures between { (from to : ℕ) (kept : List Accepted) → span_messages from to kept ≡ filter (is_of_span from to)
        (drop (before_first from to kept) (take (length (up_to_last from to kept)) kept)) }
    ensures others { (octets : List ℕ) → holds_templates octets ≡ false → LeavesTemplates octets }
{}

/// Where no sums of messages that are in sums alone are over an interval that meets a span, none of their flows starts
/// in it: all flows of a history that do are those of the kept messages.
pub fn unrolled_spans()
    ensures { (from to : ℕ) (h : History) (counts : List ℕ) → IsHistory h → AreCountsOf h counts
        → meets_sums from to (view_of h counts) ≡ false
        → flows_within from to (flows_in h.all) ≡ flows_in_view from to (view_of h counts) }
{}
