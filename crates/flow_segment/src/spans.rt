//! What is known of the flows of a sealed segment without reading it.

ghost use Rattle.std.specs.Prelude.{◌≡◌, ◌<◌, true, IsTrue};
ghost use Rattle.flow_segment.specs.Segment.{part_octets};
ghost use Rattle.flow_segment.specs.Spans.{is_known_outside, IsPassedOver};

use crate::sealed::SealedPart;
use flow_disk::SealedFile;

impl<S: SealedFile> SealedPart<S> {
    /// Whether it is known that no interval, of `width` seconds, that starts from `from` on and before `to` holds a
    /// flow of this segment, both in seconds since 1970-01-01 00:00 UTC. Nothing is read.
    pub fn is_outside(&self, width: u32, from: u64, to: u64) -> bool
        requires { 0 < width }
        ensures known { result ≡ is_known_outside self.now.span width from to }
        // On an honest disk such a segment reads whole.
        ensures whole { result ≡ true → IsTrue (S.honest self.now.reader) → IsPassedOver width from to
            (part_octets 0 self.now.prefix (S.octets self.now.reader))
            (part_octets self.now.prefix self.now.length (S.octets self.now.reader)) self.now.messages }
    {
        match self.span {
            Some(span) => span.is_outside(width, from, to),
            None => false,
        }
    }
}
