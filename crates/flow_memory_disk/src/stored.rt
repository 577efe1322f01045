// A file of the disk, with what a stop may leave of it.
ghost use Rattle.std.specs.Arc.{arc_value};
ghost use Rattle.std.specs.Prelude.{◌≡◌, ◌<◌, ◌≤◌, ◌^◌, true, false, [], length, vec_len, vec_capacity};

use crate::choice::Choice;
use crate::fill::fill;
use crate::reserved::{append, replace};
use std::alloc::{AllocError, Global};
use std::sync::Arc;

/// A file: what it reads as, what it was last settled as, the ranges written since, and what it read as when the record
/// began. Each of its lists has all its room from the start.
#[derive(Drop)]
pub(crate) struct StoredFile {
    pub(crate) number: u64,
    pub(crate) octets: Vec<u8>,
    last: Vec<u8>,
    first: Vec<u8>,
    touched: Vec<(u64, u64)>,
    fast: usize,
    loose: bool,
    settled: bool,
    frozen: bool,
    pub(crate) listed: bool,
    copy: Arc<Vec<u8>>,
    room: usize,
    writes: usize,
    ghost octets_fit: { vec_len octets ≤ room },
    ghost last_fits: { vec_len last ≤ room },
    ghost limit: { room ≤ 2 ^ 62 },
    ghost fast_within: { fast ≤ vec_len last },
    ghost octets_room: { room ≤ vec_capacity octets },
    ghost last_room: { room ≤ vec_capacity last },
    ghost first_room: { room ≤ vec_capacity first },
    ghost writes_room: { writes ≤ vec_capacity touched },
    ghost copy_room: { room ≤ vec_capacity (arc_value copy) },
    ghost settled_octets: { settled ≡ true → last.items ≡ octets.items },
    ghost settled_fast: { settled ≡ true → fast ≡ length octets.items },
    ghost settled_touched: { settled ≡ true → touched.items ≡ [] },
    ghost settled_end: { settled ≡ true → loose ≡ false },
}

impl StoredFile {
    ghost use Rattle.std.specs.Prelude.{◌+◌, ◌++◌, ◌∷◌, IfOk, IfSome, IfNone, OnSome, IsTrue, ◌↔◌, take, max};
    ghost use Rattle.flow_disk.specs.Disk.{put_at, touched_at, loosened_at, settled_at, given_up};
    ghost use Rattle.flow_memory_disk.specs.Stored.{held_in, marks_in, room_in};
    ghost use Rattle.flow_memory_disk.specs.Stopped.{image_of};
    ghost use Rattle.flow_memory_disk.specs.Stopping.{CanStop};

    /// Makes a file no call has named yet, with room for so many octets and so many writes between two syncs.
    pub(crate) fn new(alloc: Global, room: usize, writes: usize) -> Result<Self, AllocError>
        requires { room ≤ 2 ^ 62 }
        ensures { IfOk result (λ made. room_in made ≡ (room, writes)) }
    {
        Ok(StoredFile {
            number: 0,
            octets: Vec::with_capacity(alloc, room)?,
            last: Vec::with_capacity(alloc, room)?,
            first: Vec::with_capacity(alloc, room)?,
            touched: Vec::with_capacity(alloc, writes)?,
            fast: 0,
            loose: false,
            settled: true,
            frozen: false,
            listed: false,
            copy: Arc::new(alloc, Vec::with_capacity(alloc, room)?)?,
            room,
            writes,
        })
    }

    /// Gives a file a number, as one that was never written.
    pub(crate) fn begin(&mut self, number: u64)
        ensures number { self.new.number ≡ number }
        ensures room { room_in self.new ≡ room_in self.old }
        ensures held { held_in self.new ≡ settled_at [] }
        ensures first { self.new.first.items ≡ [] }
        ensures marks { marks_in self.new ≡ record { size = 0; settled = true; frozen = false; listed = false } }
    {
        self.number = number;
        self.octets.clear();
        self.last.clear();
        self.first.clear();
        self.touched.clear();
        self.fast = 0;
        self.loose = false;
        self.settled = true;
        self.frozen = false;
        self.listed = false;
    }

    /// How many ranges were written since it was last settled.
    pub(crate) fn touched_count(&self) -> usize
        ensures { result ≡ vec_len self.now.touched }
    {
        self.touched.len()
    }

    /// Writes octets over those at a place, and past the end.
    pub(crate) fn write(&mut self, at: u64, octets: &[u8])
        requires place { at ≤ vec_len self.old.octets }
        requires octets { at + length octets.now ≤ self.old.room }
        requires touched { vec_len self.old.touched < self.old.writes }
        ensures held { held_in self.new ≡ touched_at (held_in self.old) at (length octets.now)
            (put_at self.old.octets.items at octets.now) }
        ensures marks { marks_in self.new ≡ record {
          size =
              max (length self.old.octets.items) (at + length octets.now);
          settled = false;
          frozen =
              self.old.frozen;
          listed = true;
        } }
        ensures first { self.new.first.items ≡ self.old.first.items }
        ensures number { self.new.number ≡ self.old.number }
        ensures room { room_in self.new ≡ room_in self.old }
    {
        put(&mut self.octets, at as usize, octets);
        self.touched.push_reserved((at, octets.len() as u64));
        self.loose = self.loose || self.fast < at as usize + octets.len();
        self.settled = false;
        self.listed = true;
    }

    /// Cuts it to so many octets.
    pub(crate) fn cut(&mut self, count: u64)
        requires { count ≤ vec_len self.old.octets }
        ensures held { held_in self.new ≡ loosened_at (held_in self.old) count (take count self.old.octets.items) }
        ensures marks { marks_in self.new ≡ record {
          size = count;
          settled = false;
          frozen = self.old.frozen;
          listed =
              true;
        } }
        ensures first { self.new.first.items ≡ self.old.first.items }
        ensures number { self.new.number ≡ self.old.number }
        ensures room { room_in self.new ≡ room_in self.old }
    {
        self.octets.truncate(count as usize);
        self.fast = self.fast.min(count as usize);
        self.loose = true;
        self.settled = false;
        self.listed = true;
    }

    /// Settles what it reads as.
    pub(crate) fn sync(&mut self)
        ensures held { held_in self.new ≡ settled_at self.old.octets.items }
        ensures marks { marks_in self.new ≡ record {
          size = length self.old.octets.items;
          settled = true;
          frozen =
              self.old.frozen;
          listed = true;
        } }
        ensures first { self.new.first.items ≡ self.old.first.items }
        ensures number { self.new.number ≡ self.old.number }
        ensures room { room_in self.new ≡ room_in self.old }
    {
        replace(&mut self.last, &self.octets);
        self.touched.clear();
        self.fast = self.octets.len();
        self.loose = false;
        self.settled = true;
        self.listed = true;
    }

    /// Begins its removal: a stop may leave anything.
    pub(crate) fn abandon(&mut self)
        ensures held { held_in self.new ≡ given_up (held_in self.old) self.old.octets.items }
        ensures marks { marks_in self.new ≡ record {
          size = length self.old.octets.items;
          settled = false;
          frozen =
              self.old.frozen;
          listed = self.old.listed;
        } }
        ensures first { self.new.first.items ≡ self.old.first.items }
        ensures number { self.new.number ≡ self.old.number }
        ensures room { room_in self.new ≡ room_in self.old }
    {
        self.fast = 0;
        self.loose = true;
        self.settled = false;
    }

    /// Ends its removal.
    pub(crate) fn remove(&mut self)
        ensures held { held_in self.new ≡ settled_at [] }
        ensures marks { marks_in self.new ≡ record { size = 0; settled = true; frozen = false; listed = false } }
        ensures first { self.new.first.items ≡ self.old.first.items }
        ensures number { self.new.number ≡ self.old.number }
        ensures room { room_in self.new ≡ room_in self.old }
    {
        self.octets.clear();
        self.last.clear();
        self.touched.clear();
        self.fast = 0;
        self.loose = false;
        self.settled = true;
        self.frozen = false;
        self.listed = false;
    }

    /// Freezes it: gives a copy of its octets that no later call changes. None where an earlier copy is still there.
    pub(crate) fn freeze(&mut self) -> Option<Arc<Vec<u8>>>
        ensures copy { IfSome result (λ copy. (arc_value copy).items ≡ self.old.octets.items) }
        ensures held { held_in self.new ≡ held_in self.old }
        ensures done { OnSome result (marks_in self.new ≡ record {
          size = length self.old.octets.items;
          settled =
              self.old.settled;
          frozen = true;
          listed = self.old.listed;
        }) }
        ensures none { IfNone result (marks_in self.new ≡ marks_in self.old) }
        ensures first { self.new.first.items ≡ self.old.first.items }
        ensures number { self.new.number ≡ self.old.number }
        ensures room { room_in self.new ≡ room_in self.old }
    {
        let copy = Arc::get_mut(&mut self.copy)?;
        replace(copy, &self.octets);
        let shared = Arc::try_clone(&self.copy).ok()?;
        self.frozen = true;
        Some(shared)
    }

    /// Whether a stop may leave this of it: `Filled` needs an octet, and where its end is loose those of `Longer` must
    /// fit the room.
    pub(crate) fn can_stop(&self, choice: Choice<'_>) -> bool
        ensures { IsTrue result ↔ CanStop self.now choice.entry }
    {
        match choice {
            Choice::Kept => true,
            Choice::Settled => true,
            Choice::Filled(octets) => !octets.is_empty(),
            Choice::Longer(octets) => {
                !self.loose || octets.len() <= self.room && self.fast <= self.room - octets.len()
            }
        }
    }

    /// Leaves it as a stop does, settled and not frozen.
    pub(crate) fn stop(&mut self, choice: Choice<'_>)
        requires { CanStop self.old choice }
        ensures held { held_in self.new ≡ settled_at (image_of choice.entry (held_in self.old)) }
        ensures marks { marks_in self.new ≡ record {
          size = length (image_of choice.entry (held_in self.old));
          settled = true;
          frozen = false;
          listed = self.old.listed;
        } }
        ensures first { self.new.first.items ≡ image_of choice.entry (held_in self.old) }
        ensures number { self.new.number ≡ self.old.number }
        ensures room { room_in self.new ≡ room_in self.old }
    {
        self.settled = false;
        match choice {
            Choice::Kept => {}
            Choice::Settled => replace(&mut self.octets, &self.last),
            Choice::Filled(octets) => fill(&mut self.octets, self.fast, &self.touched, octets),
            Choice::Longer(octets) => {
                if self.loose {
                    replace(&mut self.octets, &self.last[..self.fast]);
                    append(&mut self.octets, octets);
                } else {
                    replace(&mut self.octets, &self.last);
                }
            }
        }
        self.settle();
    }

    /// Takes what it reads as for all that a stop may leave of it, and for what it read as when the record began.
    fn settle(&mut self)
        ensures held { held_in self.new ≡ settled_at self.old.octets.items }
        ensures marks { marks_in self.new ≡ record {
          size = length self.old.octets.items;
          settled = true;
          frozen =
              false;
          listed = self.old.listed;
        } }
        ensures first { self.new.first.items ≡ self.old.octets.items }
        ensures number { self.new.number ≡ self.old.number }
        ensures room { room_in self.new ≡ room_in self.old }
    {
        replace(&mut self.last, &self.octets);
        replace(&mut self.first, &self.octets);
        self.touched.clear();
        self.fast = self.octets.len();
        self.loose = false;
        self.settled = true;
        self.frozen = false;
    }
}

ghost use Rattle.std.specs.Prelude.{◌+◌};
ghost use Rattle.flow_disk.specs.Disk.{put_at};

/// Puts octets over those at a place, and past the end.
fn put(list: &mut Vec<u8>, at: usize, octets: &[u8])
    requires place { at ≤ vec_len list.old }
    requires room { at + length octets.now ≤ vec_capacity list.old }
    ensures items { list.new.items ≡ put_at list.old.items at octets.now }
    ensures capacity { vec_capacity list.old ≤ vec_capacity list.new }
{
    if octets.len() < list.len() - at {
        list[at..at + octets.len()].copy_from_slice(octets);
    } else {
        list.truncate(at);
        append(list, octets);
    }
}
