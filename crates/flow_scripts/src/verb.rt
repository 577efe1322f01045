//! The words that lines begin by.

/// What the first word of a line asks.
#[derive(Clone, Copy)]
pub(crate) enum Verb {
    /// `append`.
    Append,
    /// `batch`.
    Batch,
    /// `create`.
    Create,
    /// `cut`.
    Cut,
    /// `damage`.
    Damage,
    /// `file`.
    File,
    /// `files`.
    Files,
    /// `fill`.
    Fill,
    /// `give up`.
    Give,
    /// `held`.
    Held,
    /// `hold`.
    Hold,
    /// `install`.
    Install,
    /// `length`.
    Length,
    /// `let go`.
    Let,
    /// `merge`, and `merge turn`.
    Merge,
    /// `open`.
    Open,
    /// `put`.
    Put,
    /// `refresh`.
    Refresh,
    /// `remove`.
    Remove,
    /// `retire`.
    Retire,
    /// `roll`, and `roll turn`.
    Roll,
    /// `room`.
    Room,
    /// `seal`.
    Seal,
    /// `see`.
    See,
    /// `state`.
    State,
    /// `status`.
    Status,
    /// `step`.
    Step,
    /// `write`.
    Write,
}

/// Each verb by its word.
const VERBS: [(&str, Verb); 28] = [
    ("append", Verb::Append),
    ("batch", Verb::Batch),
    ("create", Verb::Create),
    ("cut", Verb::Cut),
    ("damage", Verb::Damage),
    ("file", Verb::File),
    ("files", Verb::Files),
    ("fill", Verb::Fill),
    ("give", Verb::Give),
    ("held", Verb::Held),
    ("hold", Verb::Hold),
    ("install", Verb::Install),
    ("length", Verb::Length),
    ("let", Verb::Let),
    ("merge", Verb::Merge),
    ("open", Verb::Open),
    ("put", Verb::Put),
    ("refresh", Verb::Refresh),
    ("remove", Verb::Remove),
    ("retire", Verb::Retire),
    ("roll", Verb::Roll),
    ("room", Verb::Room),
    ("seal", Verb::Seal),
    ("see", Verb::See),
    ("state", Verb::State),
    ("status", Verb::Status),
    ("step", Verb::Step),
    ("write", Verb::Write),
];

/// The verb of a word, where it is one.
pub(crate) fn verb_of(word: &str) -> Option<Verb> {
    for (name, verb) in &VERBS {
        if *name == word {
            return Some(*verb);
        }
    }
    None
}
