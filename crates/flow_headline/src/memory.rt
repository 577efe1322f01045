//! A disk in memory that a stop leaves.

ghost use Rattle.std.specs.Prelude.{◌≡◌, ◌≤◌, IfSome, None};
ghost use Rattle.flow_memory_disk.specs.declared.disk.MemoryDisk as memory;
ghost use Rattle.flow_memory_disk.specs.Memory.{moment_of};
ghost use Rattle.flow_memory_disk.specs.Stopping.{CanCrash};
ghost use Rattle.flow_headline.specs.Machine.{memory_disk};
ghost use Rattle.flow_headline.specs.Openings.{IsLeftBy};

use flow_memory_disk::{Choice, MemoryDisk};

/// What a stop leaves of a disk in memory by a choice, as it is said of what a stop leaves of any disk; `None` where no
/// stop leaves what is chosen.
pub fn left_in_memory(disk: MemoryDisk, choice: Choice<'_>) -> Option<MemoryDisk>
    ensures left { IfSome result (λ left. (early : memory.MemoryDisk) → moment_of early ≤ moment_of disk
        → IsLeftBy memory_disk early disk left) }
    ensures none { result ≡ None → CanCrash disk.files.items choice.entry → ⊥ }
{
    if !disk.can_crash(choice) {
        return None;
    }
    Some(disk.crash(choice))
}
