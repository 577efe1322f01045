// A sync of the directory, of each file.
ghost use Rattle.flow_memory_directory.specs.Nodes.{AllNodes, NodeEnters, NodeMisses};

use crate::node::Node;

/// Each name that was made or taken away is so on the device.
pub(crate) fn enter_all(nodes: &mut Vec<Node>)
    ensures { AllNodes NodeEnters nodes.old.items nodes.new.items }
{
    'nodes: for place in 0..nodes.len() {
        nodes[place].enter();
    }
}

/// Each name that was made or taken away is lost.
pub(crate) fn miss_all(nodes: &mut Vec<Node>)
    ensures { AllNodes NodeMisses nodes.old.items nodes.new.items }
{
    'nodes: for place in 0..nodes.len() {
        nodes[place].miss();
    }
}
