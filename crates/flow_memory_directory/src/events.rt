// What happens to a directory beside calls.
ghost use Rattle.std.specs.Prelude.{◌≡◌, ℕ, ◌+◌, ◌<◌, ◌++◌, ◌∷◌, [], true, false, length, get_or, reverse, IfOk, OnOk};
ghost use Rattle.flow_disk.specs.Disk.{IsDiskImage};
ghost use Rattle.flow_directory.specs.File.{held_of};
ghost use Rattle.flow_memory_directory.specs.Memory.{files_of};
ghost use Rattle.flow_memory_directory.specs.Nodes.{NodeRestores};
ghost use Rattle.flow_memory_directory.specs.Restored.{IsRestored, IsQuietFile, Appends};

use crate::deed::Deed;
use crate::error::MemoryError;
use crate::memory::{Failing, MemoryDirectory};
use crate::node::Node;
use std::alloc::Global;

impl MemoryDirectory {
    /// A directory without files, with room for so many.
    pub fn new(alloc: Global, count: usize) -> Result<Self, MemoryError>
        ensures { IfOk result (λ directory. (n : ℕ) → (files_of directory n).linked ≡ false) }
    {
        let mut nodes = Vec::new(alloc);
        'places: for _place in 0..count {
            nodes.push(Node::absent(alloc))?;
        }
        Ok(MemoryDirectory {
            alloc,
            nodes,
            log: Vec::new(alloc),
            failing: Failing::NEVER,
            drops: false,
        })
    }

    /// The directory after the power was cut: of each file the device's octets are left, which are among what a stop
    /// may leave. Nothing waits, nothing is lost and nothing is lent.
    pub fn power_cut(self) -> Result<MemoryDirectory, MemoryError>
        ensures image { IfOk result
            (λ after. IsDiskImage (held_of (files_of self)) (λ n. (files_of after n).held.reads)) }
        ensures restored { IfOk result
            (λ after. (n : ℕ) → n < length self.nodes.items → IsRestored (files_of after n)) }
        ensures quiet { IfOk result (λ after. (n : ℕ) → IsQuietFile (files_of after n)) }
    {
        let MemoryDirectory {
            alloc,
            nodes: old,
            mut log,
            ..
        } = self;
        let mut nodes = Vec::new(alloc);
        'places: for place in 0..old.len() {
            restore(alloc, &old[place], place as u64, &mut nodes, &mut log)?;
        }
        Ok(MemoryDirectory {
            alloc,
            nodes,
            log,
            failing: Failing::NEVER,
            drops: false,
        })
    }
}

/// Adds a node as the power cut leaves it.
fn restore(
    alloc: Global,
    old: &Node,
    file: u64,
    nodes: &mut Vec<Node>,
    log: &mut Vec<Deed>,
) -> Result<(), MemoryError>
    ensures { OnOk result (Appends old.now file nodes.old.items nodes.new.items log.old.items log.new.items) }
{
    let node = old.restored(alloc)?;
    let octets = node.octets.to_vec(alloc)?;
    log.push(Deed::Settled(file, octets))?;
    nodes.push(node)?;
    Ok(())
}
