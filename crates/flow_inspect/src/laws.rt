//! What the reports of domains mean.

ghost use Rattle.std.specs.Prelude.{◌≡◌, ℕ, List, Option, nat_eq, unwrap_or};
ghost use Rattle.std.specs.Map.{lookup};
ghost use Rattle.flow_measure.specs.Flows.{start_of};
ghost use Rattle.flow_measure.specs.Caveats.{own_start};
ghost use Rattle.flow_inspect.specs.Counting.{Inspected};
ghost use Rattle.flow_inspect.specs.Reports.{own, report_of, reports_of};

/// What is counted of a domain depends on its own messages alone, in their order.
pub fn each_domain_alone()
    ensures { (domain : ℕ) (messages : List Inspected)
        → lookup (nat_eq domain) (reports_of messages) ≡ report_of (own domain messages) }
{}

/// A flow starts at the start of its record's own, and at the Export Time of its message where it has none.
pub fn own_start_or_export_time()
    ensures { (time : ℕ) (milliseconds seconds : Option ℕ)
        → start_of time milliseconds seconds ≡ unwrap_or (own_start milliseconds seconds) time }
{}
