ghost use Rattle.std.specs.Prelude.{◌≡◌, ◌∷◌, [], ◌++◌, length, reverse};
ghost use Rattle.std.specs.Prelude.{IfOk, is_ok, if◌then◌else◌};
ghost use Rattle.dy_flat.specs.NodeMeaning.{node_of};

use crate::flat_nodes::Node;
use crate::growing::Growing;
use crate::lent_nodes::LentNode;
use dy_term::Memory;
use std::alloc::Global;
use std::marker::Model;

/// Nodes that are built, with the texts and names that they have.
#[derive(Debug, Drop)]
pub(crate) struct Run {
    pub(crate) nodes: Vec<Node>,
    pub(crate) contents: Growing,
}

impl Model for Run {
    ghost use Rattle.std.specs.Prelude.{◌≡◌, List, Some, map};
    ghost use Rattle.dy_flat.specs.Runs.{Node};
    ghost use Rattle.dy_flat.specs.MirrorCodes.{run_code};

    ghost Value = { List Node };

    ghost coded = { run_code };

    ghost use Rattle.dy_flat.specs.Meaning.{read_all, known_nodes};

    ghost view = { λ r. known_nodes (read_all r.contents.contents r.nodes.items) };

    ghost invariant = { λ r.
        read_all r.contents.contents r.nodes.items
        ≡ map Some (known_nodes (read_all r.contents.contents r.nodes.items)) };
}

fn add(nodes: &mut Vec<Node>, node: Node) -> Result<(), Memory>
    ensures { nodes.new.items ≡ (if is_ok result then nodes.old.items ++ node ∷ [] else nodes.old.items) }
{
    match nodes.push(node) {
        Ok(()) => Ok(()),
        Err(_) => Err(Memory),
    }
}

impl Run {
    pub(crate) fn new(alloc: Global) -> Run
        ensures { result ≡ [] }
    {
        Run {
            nodes: Vec::new(alloc),
            contents: Growing::new(alloc),
        }
    }

    /// An empty run with room for this number of nodes.
    pub(crate) fn with_room(alloc: Global, nodes: usize) -> Result<Run, Memory>
        ensures { IfOk result (λ run. run ≡ []) }
    {
        Ok(Run {
            nodes: Vec::with_capacity(alloc, nodes)?,
            contents: Growing::new(alloc),
        })
    }

    pub(crate) fn len(&self) -> usize
        ensures { result ≡ length self.now }
    {
        self.nodes.len()
    }

    /// Adds a node.
    pub(crate) fn push(&mut self, node: LentNode) -> Result<(), Memory>
        ensures { IfOk result (λ _. self.new ≡ self.old ++ node_of node.entry ∷ []) }
    {
        let placed = self.contents.place_node(node)?;
        add(&mut self.nodes, placed)
    }

    /// Turns the order of the nodes round.
    pub(crate) fn reverse(&mut self)
        ensures { self.new ≡ reverse self.old }
    {
        self.nodes.reverse();
    }
}
