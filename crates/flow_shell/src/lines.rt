//! The lines of the requests.

ghost use Rattle.std.specs.Prelude.{◌≡◌, ℕ, List, [], Some, true, false, option_and_then, IfOk, IfSome, IsTrue};
ghost use Rattle.std.specs.Io.BufRead.{strip_last};
ghost use Rattle.std.specs.Io.KnownBytes.{IsAtEnd};
ghost use Rattle.std.specs.Str.{IsUtf8};
ghost use Rattle.flow_commands.specs.declared.plan.InputKind.{InputKind};
ghost use Rattle.flow_roller.specs.Asked.{Asked};
ghost use Rattle.flow_shell.specs.Asked.{feed_in, feed_of, request_in, rolling_in, rolling_of, AsksToFeed, AsksToRoll};
ghost use Rattle.flow_shell.specs.Asked.{IsNextLine};

use crate::asked::{ShellRequest, request_of};
use crate::board::Ends;
use flow_roller::Keeping;
use std::io;
use std::io::BufRead;
use std::marker::PhantomData;

/// Takes the line feed off the end of a line.
fn strip_feed(line: &mut Vec<u8>)
    ensures { line.new.items ≡ strip_last 10 line.old.items }
{
    if let Some(b'\n') = line.last() {
        line.pop();
    }
}

/// The lines of an input, of which the one that was read last is at hand. What one of them says was asked for: that so
/// many segments, or rolled files, are kept, and that the File at a path is fed so.
#[derive(Drop)]
pub(crate) struct Lines<K: Keeping, B: Ends, I: BufRead + Drop> {
    input: I,
    line: Vec<u8>,
    /// Whether each line so far was read.
    is_read: bool,
    keeping: PhantomData<K>,
    feeding: PhantomData<B>,
    ghost left: { is_read ≡ true → (any : Asked) → AsksToRoll (I.remaining input) any → ∥ K.asked any ∥₁ },
    ghost here: { (any : Asked) → rolling_in line.items ≡ Some any → ∥ K.asked any ∥₁ },
    ghost feeds_left: { is_read ≡ true
        → (path : List ℕ) (kind : InputKind) → AsksToFeed (I.remaining input) path kind → ∥ B.to_feed path kind ∥₁ },
    ghost feed_here: { (path : List ℕ) (kind : InputKind) → feed_in line.items ≡ Some (path, kind)
        → ∥ B.to_feed path kind ∥₁ },
}

impl<K: Keeping, B: Ends, I: BufRead + Drop> Lines<K, B, I> {
    /// Those of an input, of which none was read.
    #[tactic(auto, using(crate::proofs::Requested::no_line, crate::proofs::Requested::no_feed))]
    pub(crate) fn new(input: I, line: Vec<u8>) -> Lines<K, B, I>
        requires none { line.items ≡ [] }
        requires asked { (any : Asked) → AsksToRoll (I.remaining input) any → ∥ K.asked any ∥₁ }
        requires to_feed { (path : List ℕ) (kind : InputKind) → AsksToFeed (I.remaining input) path kind
            → ∥ B.to_feed path kind ∥₁ }
        ensures { result.is_read ≡ true }
    {
        Lines {
            input,
            line,
            is_read: true,
            keeping: PhantomData,
            feeding: PhantomData,
        }
    }

    /// Reads the next line, without its line feed, and answers whether there is one. After a failed read there is none.
    #[tactic(auto, using(crate::proofs::Requested::no_line, crate::proofs::Requested::no_feed))]
    pub(crate) fn read(&mut self) -> Result<bool, io::Error>
        ensures next { IfOk result (λ more. IsTrue more
            → IsNextLine (I.remaining self.old.input) (I.remaining self.new.input) self.new.line.items) }
        ensures going { IfOk result (λ _. self.new.is_read ≡ self.old.is_read) }
        ensures end { IfOk result (λ more. more ≡ false → IsTrue self.old.is_read → IsAtEnd (I.remaining self.old.input)) }
    {
        self.line.clear();
        if !self.is_read {
            return Ok(false);
        }
        match self.input.read_until(b'\n', &mut self.line) {
            Ok(count) => {
                strip_feed(&mut self.line);
                Ok(count != 0)
            }
            Err(error) => {
                self.line.clear();
                self.is_read = false;
                Err(error)
            }
        }
    }

    /// What the line at hand asks for.
    pub(crate) fn request(&self) -> Option<ShellRequest<'_>>
        ensures value { IsUtf8 self.now.line.items → result ≡ request_in self.now.line.items }
        ensures text { IfSome result (λ _. IsUtf8 self.now.line.items) }
        ensures asked { (any : Asked) → option_and_then rolling_of result ≡ Some any → ∥ K.asked any ∥₁ }
        ensures to_feed { (path : List ℕ) (kind : InputKind) → option_and_then feed_of result ≡ Some (path, kind)
            → ∥ B.to_feed path kind ∥₁ }
    {
        match str::from_utf8(self.line.as_slice()) {
            Ok(text) => request_of(text),
            Err(_) => None,
        }
    }
}
