//! How many messages files hold.

ghost use Rattle.std.specs.Prelude.{◌≡◌, length, map, min};
ghost use Rattle.flow_snapshot.specs.Files.{rollup_of, segment_of, shared};
ghost use Rattle.flow_model.specs.Shelf.{messages_in, rollup_message_count};

use flow_disk::SealedFile;
use flow_rolled::RolledPart;
use flow_segment::SealedPart;
use std::sync::Arc;

/// How many messages were rolled into these files; the greatest number where they are more.
pub(crate) fn rolled_count<S: SealedFile>(parts: &[Arc<RolledPart<S>>]) -> u64
    ensures { result ≡ min (rollup_message_count (map rollup_of (shared parts.now))) 18446744073709551615 }
{
    let mut count: u64 = 0;
    for part in parts {
        count = count.saturating_add(part.messages());
    }
    count
}

/// How many messages these segments have; the greatest number where they are more.
pub(crate) fn sealed_count<S: SealedFile>(parts: &[Arc<SealedPart<S>>]) -> u64
    ensures { result ≡ min (length (messages_in (map segment_of (shared parts.now)))) 18446744073709551615 }
{
    let mut count: u64 = 0;
    for part in parts {
        count = count.saturating_add(part.messages);
    }
    count
}
