//! The two kinds of template records.

ghost use Rattle.std.specs.Prelude.{◌≡◌};
ghost use Rattle.flow_codec.specs.Layout.{set_id, is_options};

/// The kind of a template record, by the Sets that hold it.
#[derive(Clone, Copy, Debug, PartialEq, Eq)]
pub enum TemplateKind {
    /// A Template Record, in a Set of ID 2.
    Plain,
    /// An Options Template Record, in a Set of ID 3.
    Options,
}

impl TemplateKind {
    /// The ID of the Sets that hold these records (RFC 7011, section 3.3.2).
    pub fn set_id(self) -> u16
        ensures { result ≡ set_id self }
    {
        match self {
            TemplateKind::Plain => 2,
            TemplateKind::Options => 3,
        }
    }

    /// Whether these records define Options Templates.
    pub fn is_options(self) -> bool
        ensures { result ≡ is_options self }
    {
        self == TemplateKind::Options
    }
}
