//! Laws of flows and of their sums.

ghost use Rattle.std.specs.Prelude.{◌≡◌, ◌≢◌, ℕ, ◌+◌, ◌<◌, ◌≤◌, ◌^◌, ◌%◌, List, [], ◌∷◌, ◌++◌, length, Option, map};
ghost use Rattle.std.specs.Prelude.{filter, nat_le, nat_lt, ◌&&◌, true, IfSome};
ghost use Rattle.std.specs.FinMap as finite;
ghost use Rattle.std.specs.List.{AllByRecursion};
ghost use Rattle.std.specs.List.Sorted.{IsSortedByKey, IsPermutation, IsStableByKey};
ghost use Rattle.flow_measure.specs.declared.flow.Flow.{Flow};
ghost use Rattle.flow_measure.specs.declared.rows.Key.{Key};
ghost use Rattle.flow_measure.specs.declared.rows.Row.{Row};
ghost use Rattle.flow_codec.specs.Message.{in_fields, IsAccepted};
ghost use Rattle.flow_codec.specs.Templates.{AllTemplates};
ghost use Rattle.flow_codec.specs.Raw.{RawMessage, under};
ghost use Rattle.flow_measure.specs.Flows.{FlowFits, flows_of, flows_of_records};
ghost use Rattle.flow_measure.specs.History.{Accepted, AreAcceptedFrom, History, IsHistory, read_from, templates_from};
ghost use Rattle.flow_measure.specs.View.{AreCountsOf, view_of};
ghost use Rattle.flow_measure.specs.Query.{totals_between, totals_in_view, flows_between, flows_in_view, message_at};
ghost use Rattle.flow_measure.specs.Query.{message_in_view, interleaved, rows_of_both};
ghost use Rattle.flow_measure.specs.Sums.{AllFit, sums_by, table_of, merged, widened, key_of, is_key, counted};
ghost use Rattle.flow_measure.specs.Sums.{Table, key_cmp, rows_between, some_total};
ghost use Rattle.flow_measure.specs.Span.{is_outside, span_of, starts_in, starts_of, AreSameWithin, HasNoneWithin};
ghost use Rattle.flow_measure.specs.declared.rows.Sums.{Sums};

/// The sums of flows have at each key the sum of the flows of that key, and nothing where there are none.
pub fn sums_at_a_key()
    ensures { (width : ℕ) (flows : List Flow) (key : Key) → finite.get (sums_by width flows) key
        ≡ some_total (map counted (filter (λ f. is_key key (key_of width f)) flows)) }
{}

/// The sums of some flows and those of others, merged, are the sums of all of them.
pub fn merging()
    ensures { (width : ℕ) (flows more : List Flow) → merged (table_of width flows) (table_of width more)
        ≡ table_of width (flows ++ more) }
{}

/// The sums of flows by a width, widened, are their sums by the wide width.
pub fn widening()
    ensures { (width wide : ℕ) (flows : List Flow) → 0 < width → wide % width ≡ 0
        → widened wide (table_of width flows) ≡ table_of wide flows }
{}

/// The flows of a message's records in octets are those of the same message in fields.
pub fn flows_either_way()
    ensures { (m : RawMessage) → flows_of (in_fields m) ≡ flows_of_records (under m.header m.records) }
{}

/// Fewer than 2^64 flows whose counts fit their types have sums that fit theirs: adding them is never refused by 14.
pub fn few_flows_fit()
    ensures { (width : ℕ) (flows : List Flow) → AllByRecursion FlowFits flows → length flows < 2 ^ 64
        → AllFit (table_of width flows) }
{}

/// Queries of a history are answered by its view alone, however its rolled messages are divided into entries.
pub fn queries_by_view()
    ensures totals { (h : History) (counts : List ℕ) (from to : ℕ) → IsHistory h → AreCountsOf h counts
        → totals_in_view from to (view_of h counts) ≡ totals_between from to h }
    ensures flows { (h : History) (counts : List ℕ) (from to : ℕ) → IsHistory h → AreCountsOf h counts
        → flows_in_view from to (view_of h counts) ≡ flows_between from to h }
    ensures message { (h : History) (counts : List ℕ) (n : ℕ) → IsHistory h → AreCountsOf h counts
        → message_in_view n (view_of h counts) ≡ message_at n h }
{}

/// Accepted messages are read again from their octets alone; one that is accepted after messages that were all read is
/// read after them.
pub fn reading()
    ensures again { (before : AllTemplates) (messages : List Accepted) → AreAcceptedFrom before messages
        → read_from before (map (λ a. a.octets) messages) ≡ messages }
    ensures behind { (before : AllTemplates) (octets : List (List ℕ)) (a : Accepted)
        → length (read_from before octets) ≡ length octets
        → IsAccepted a.octets (templates_from before (read_from before octets)) a.message a.after
        → read_from before (octets ++ a.octets ∷ []) ≡ read_from before octets ++ a ∷ [] }
{}

/// Two lists of rows, interleaved, are what a stable sort by key makes of the first list followed by the second: all
/// their rows in the order of their keys, and of each key the first list's rows, then the second's, as they came.
pub fn interleaving()
    ensures sorted { (steps : ℕ) (rows others : List Row) → length rows + length others ≤ steps
        → IsSortedByKey (λ r. r.key) key_cmp rows → IsSortedByKey (λ r. r.key) key_cmp others
        → IsSortedByKey (λ r. r.key) key_cmp (interleaved steps rows others) }
    ensures rows { (steps : ℕ) (rows others : List Row) → IsPermutation (rows ++ others)
        (interleaved steps rows others) }
    ensures stable { (steps : ℕ) (rows others : List Row) → IsSortedByKey (λ r. r.key) key_cmp rows
        → IsStableByKey (λ r. r.key) key_cmp (rows ++ others) (interleaved steps rows others) }
{}

/// The rows of two tables from one start up to another are in the order of their keys. Where the widths differ, they
/// are all rows of both tables, and of each key the narrow table's row comes first.
pub fn rows_in_order()
    ensures sorted { (from to : ℕ) (narrow wide : Table)
        → IsSortedByKey (λ r. r.key) key_cmp (rows_of_both from to narrow wide) }
    ensures rows { (from to : ℕ) (narrow wide : Table) → narrow.width ≢ wide.width
        → IsPermutation (rows_between from to narrow ++ rows_between from to wide) (rows_of_both from to narrow wide) }
    ensures stable { (from to : ℕ) (narrow wide : Table) → narrow.width ≢ wide.width
        → IsStableByKey (λ r. r.key) key_cmp (rows_between from to narrow ++ rows_between from to wide)
        (rows_of_both from to narrow wide) }
{}

/// Flows whose span is outside of another have no sums and no flow in it, and tables that have the same sums in a span
/// have the same rows in it.
pub fn passing_over()
    ensures flows { (width from to : ℕ) (flows : List Flow) → 0 < width
        → is_outside width from to (span_of (starts_of flows)) ≡ true
        → HasNoneWithin from to (sums_by width flows) }
    ensures each { (from to : ℕ) (flows : List Flow) → is_outside 1 from to (span_of (starts_of flows)) ≡ true
        → filter (λ f. nat_le from f.start && nat_lt f.start to) flows ≡ [] }
    ensures sums { (width from to : ℕ) (sums : finite.FinMap key_cmp Sums) → 0 < width
        → is_outside width from to (span_of (starts_in sums)) ≡ true
        → ((key : Key) → IfSome (finite.get sums key) (λ _. key.start % width ≡ 0)) → HasNoneWithin from to sums }
    ensures rows { (from to : ℕ) (narrow wide others wide_others : Table) → narrow.width ≡ others.width
        → wide.width ≡ wide_others.width → AreSameWithin from to narrow.sums others.sums
        → AreSameWithin from to wide.sums wide_others.sums
        → rows_of_both from to narrow wide ≡ rows_of_both from to others wide_others }
{}
