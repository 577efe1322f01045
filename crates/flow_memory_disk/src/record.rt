// The record of the calls that changed a file.
ghost use Rattle.std.specs.Prelude.{◌≡◌, ◌||◌, nat_lt, ◌+◌, ◌<◌, ◌≤◌, length, IfOk, vec_len, vec_capacity, [], ◌∷◌};
ghost use Rattle.std.specs.Prelude.{◌++◌};
ghost use Rattle.flow_memory_disk.specs.Record.{count_all, calls_of, call_of, octet_count};

use crate::deed::Deed;
use crate::reserved::append;
use crate::room::Room;
use std::alloc::{AllocError, Global};

/// The calls that changed a file, in their order, and the octets of the writes among them, one after the other.
#[derive(Drop)]
pub(crate) struct Record {
    deeds: Vec<Deed>,
    octets: Vec<u8>,
    ghost whole: { count_all deeds.items ≡ length octets.items },
}

/// Whether so many more would pass a limit.
fn passes(had: usize, more: usize, limit: usize) -> bool
    ensures { result ≡ nat_lt limit (had + more) }
{
    more > limit || had > limit - more
}

impl Record {
    /// An empty record with room for so many calls and octets.
    pub(crate) fn new(alloc: Global, calls: usize, octets: usize) -> Result<Self, AllocError>
        ensures calls { IfOk result (λ made. calls_of made.deeds.items made.octets.items ≡ []) }
        ensures none { IfOk result (λ made. (vec_len made.deeds ≡ 0) × (vec_len made.octets ≡ 0)) }
        ensures deeds { IfOk result (λ made. calls ≤ vec_capacity made.deeds) }
        ensures octets { IfOk result (λ made. octets ≤ vec_capacity made.octets) }
    {
        Ok(Record {
            deeds: Vec::with_capacity(alloc, calls)?,
            octets: Vec::with_capacity(alloc, octets)?,
        })
    }

    /// Whether so many calls and octets more would pass this room.
    pub(crate) fn lacks(&self, room: Room, calls: usize, octets: usize) -> bool
        ensures { result ≡ (nat_lt room.calls (vec_len self.now.deeds + calls)
            || nat_lt room.written (vec_len self.now.octets + octets)) }
    {
        passes(self.deeds.len(), calls, room.calls)
            || passes(self.octets.len(), octets, room.written)
    }

    /// Takes a call up, with the octets that it wrote.
    pub(crate) fn push(&mut self, deed: Deed, octets: &[u8])
        requires calls { vec_len self.old.deeds < vec_capacity self.old.deeds }
        requires octets { vec_len self.old.octets + length octets.now ≤ vec_capacity self.old.octets }
        requires count { octet_count deed ≡ length octets.now }
        ensures calls { calls_of self.new.deeds.items self.new.octets.items ≡ calls_of self.old.deeds.items
            self.old.octets.items ++ call_of deed octets.now ∷ [] }
        ensures len { vec_len self.new.deeds ≡ vec_len self.old.deeds + 1 }
        ensures capacity { vec_capacity self.new.deeds ≡ vec_capacity self.old.deeds }
        ensures octets { vec_capacity self.old.octets ≤ vec_capacity self.new.octets }
        ensures written { vec_len self.new.octets ≡ vec_len self.old.octets + length octets.now }
    {
        append(&mut self.octets, octets);
        self.deeds.push_reserved(deed);
    }

    /// Forgets all calls.
    pub(crate) fn clear(&mut self)
        ensures calls { calls_of self.new.deeds.items self.new.octets.items ≡ [] }
        ensures none { (vec_len self.new.deeds ≡ 0) × (vec_len self.new.octets ≡ 0) }
        ensures deeds { vec_capacity self.old.deeds ≤ vec_capacity self.new.deeds }
        ensures octets { vec_capacity self.old.octets ≤ vec_capacity self.new.octets }
    {
        self.deeds.clear();
        self.octets.clear();
    }
}
