//! Who watches over an input while it is fed.

ghost use Rattle.std.specs.Prelude.{IsTrue};

/// Is shown how much is read of an input, and says when feeding is to end.
pub trait FeedWatch {
    /// It was found that feeding is to end.
    ghost asked: { Self → Type 0 };

    /// So many octets more were read.
    fn note_read(&mut self, octets: usize);

    /// Whether feeding is to end. It is asked between two messages, before more is read.
    fn is_asked(&mut self) -> bool
        ensures { IsTrue result → asked self.new };
}
