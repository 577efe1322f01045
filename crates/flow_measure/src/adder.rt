//! What flows are added to.

ghost use Rattle.std.specs.Prelude.{◌≡◌};
ghost use Rattle.flow_measure.specs.Sums.{Table, with_flow, Becomes};

use crate::error::SumError;
use crate::flow::Flow;
use crate::rows::Rows;
use crate::trial::Trial;

/// What flows are added to: rows, for good or on trial.
pub trait Adder {
    /// What no flow changes.
    type Kept;

    // The sums.
    ghost table: { Self → Table };

    // What no flow changes, whether it is added or refused.
    ghost kept: { Self → Self.Kept };

    /// Adds a flow under its key. A refusal changes no sums.
    fn add_flow(&mut self, flow: &Flow) -> Result<(), SumError>
        ensures becomes { Becomes result (with_flow flow.now (table self.old)) (table self.old) (table self.new) }
        ensures kept { kept self.new ≡ kept self.old };
}

impl Adder for Rows {
    type Kept = ();

    ghost table = { λ rows. rows };

    ghost kept = { λ _. tt };

    #[inline(always)]
    fn add_flow(&mut self, flow: &Flow) -> Result<(), SumError> {
        self.add(flow)
    }
}

impl Adder for Trial {
    type Kept = Rows;

    ghost table = { λ trial. trial.1 };

    ghost kept = { λ trial. trial.0 };

    #[inline(always)]
    fn add_flow(&mut self, flow: &Flow) -> Result<(), SumError> {
        self.add(flow)
    }
}
