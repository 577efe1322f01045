//! The command `explain`: what a refusal means, what usually causes it, and what to do.

ghost use Rattle.std.specs.Prelude.{◌≡◌};
ghost use Rattle.flow_refusals.specs.Table.{is_refusal};

use flow_refusals::RefusalCode;
use std::marker::Model;

/// A refusal that is explained. It is seen as its number.
#[derive(Drop)]
pub struct Explanation {
    refusal: RefusalCode,
}

impl Model for Explanation {
    ghost use Rattle.std.specs.Prelude.{ℕ};
    ghost use Rattle.flow_refusals.specs.Table.{row_of};

    ghost Value = { ℕ };

    ghost view = { λ e. (row_of e.refusal).number };
}

impl Explanation {
    ghost use Rattle.std.specs.Prelude.{Some, None, if◌then◌else◌};

    /// That of the refusal of this number, where there is one.
    pub(crate) fn of(number: u64) -> Option<Explanation>
        ensures { result ≡ (if is_refusal number then Some number else None) }
    {
        let refusal = RefusalCode::of_number(number)?;
        Some(Explanation { refusal })
    }

    /// Its lines.
    pub(crate) fn text(&self) -> &'static str {
        self.refusal.explanation()
    }
}
