//! What is asked.

/// What is asked of one, or of several at once.
pub trait Asking<J, X> {
    /// This one may be asked.
    ghost may_ask: { Self → J → Type 0 };

    /// This is an answer of this one.
    ghost answers: { Self → J → X → Type 0 };

    /// Asks this one.
    fn ask(&self, whom: J) -> X
        requires { may_ask self.now whom }
        ensures { answers self.now whom result };
}
