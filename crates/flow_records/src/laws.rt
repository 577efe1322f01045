//! What the records of a span are, as the contract of a call that does nothing.

ghost use Rattle.std.specs.Prelude.{◌≡◌, ℕ, length};
ghost use Rattle.std.specs.List.{filter_map};
ghost use Rattle.flow_measure.specs.Flows.{flow_of};
ghost use Rattle.flow_measure.specs.Query.{flows_in_view};
ghost use Rattle.flow_measure.specs.View.{View};
ghost use Rattle.flow_records.specs.Records.{records_in_view};

/// The flows of a span are those of its records, one of each.
pub fn records_are_flows()
    ensures flows { (from to : ℕ) (v : View)
        → filter_map flow_of (records_in_view from to v) ≡ flows_in_view from to v }
    ensures count { (from to : ℕ) (v : View)
        → length (records_in_view from to v) ≡ length (flows_in_view from to v) }
{}
