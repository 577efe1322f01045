//! Messages that are held together.

ghost use Rattle.std.specs.Prelude.{◌≡◌, ◌++◌, ◌∷◌, ◌<◌, [], length, vec_capacity, vec_len, IfOk, OnErr, OnOk};
ghost use Rattle.flow_gate.specs.Steps.{slices};

use std::alloc::{AllocError, Global};
use std::marker::Model;

/// The octets that the first message makes room for: those of one read, which are a usual batch.
const USUAL_OCTETS: usize = 65_536;

/// The messages that the first one makes room for.
const USUAL_MESSAGES: usize = 64;

/// Messages that were read together, one after the other in one piece of memory.
#[derive(Drop)]
pub(crate) struct HeldMessages {
    /// Their octets.
    octets: Vec<u8>,
    /// Where each of them ends.
    ends: Vec<usize>,
}

impl Model for HeldMessages {
    ghost use Rattle.std.specs.Prelude.{ℕ, List, length};
    ghost use Rattle.flow_feed.specs.Held.{cut_at, AreEnds};

    ghost Value = { List (List ℕ) };

    ghost view = { λ h. cut_at 0 h.octets.items h.ends.items };

    ghost invariant = { λ h. AreEnds 0 h.ends.items (length h.octets.items) };
}

/// Makes room for one end more; where there are none, for those of a usual batch, and for its octets.
fn make_room(octets: &mut Vec<u8>, ends: &mut Vec<usize>) -> Result<(), AllocError>
    ensures octets { octets.new.items ≡ octets.old.items }
    ensures ends { ends.new.items ≡ ends.old.items }
    ensures room { OnOk result (vec_len ends.new < vec_capacity ends.new) }
{
    if ends.is_empty() {
        octets.reserve(USUAL_OCTETS)?;
        return ends.reserve(USUAL_MESSAGES);
    }
    ends.reserve(1)
}

impl HeldMessages {
    /// No messages. It takes no memory.
    pub(crate) fn new(alloc: Global) -> Self
        ensures { result ≡ [] }
    {
        HeldMessages {
            octets: Vec::new(alloc),
            ends: Vec::new(alloc),
        }
    }

    /// How many there are.
    pub(crate) fn len(&self) -> usize
        ensures { result ≡ length self.now }
    {
        self.ends.len()
    }

    /// Holds a copy of a message, after the others.
    pub(crate) fn push(&mut self, message: &[u8]) -> Result<(), AllocError>
        ensures held { OnOk result (self.new ≡ self.old ++ message.now ∷ []) }
        ensures kept { OnErr result (self.new ≡ self.old) }
    {
        make_room(&mut self.octets, &mut self.ends)?;
        self.octets.extend_from_slice(message)?;
        self.ends.push_reserved(self.octets.len());
        Ok(())
    }

    /// The octets of each, where they are held.
    pub(crate) fn slices(&self, alloc: Global) -> Result<Vec<&[u8]>, AllocError>
        ensures { IfOk result (λ octets. slices octets.items ≡ self.now) }
    {
        let mut slices = Vec::with_capacity(alloc, self.ends.len())?;
        let mut start = 0;
        for end in &self.ends {
            slices.push_reserved(&self.octets[start..*end]);
            start = *end;
        }
        Ok(slices)
    }
}
