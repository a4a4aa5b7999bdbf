ghost use Rattle.std.specs.Prelude.{◌≡◌, ◌∷◌, [], ◌++◌, IfOk, IsSome, Some, map};
ghost use Rattle.dy_flat.specs.Meaning.{read};
ghost use Rattle.dy_flat.specs.Runs.{run_of};
ghost use Rattle.dy_flat.specs.Views.{tree_of};

use crate::contents::Contents;
use crate::flat_nodes::Node;
use crate::flat_terms::FlatTerm;
use crate::lent_nodes::lend;
use crate::runs::Run;
use crate::views::View;
use dy_term::Memory;
use std::alloc::Global;

/// A lent term, in memory of its own. The one refusal is out of memory.
pub fn copy_of(alloc: Global, view: View) -> Result<FlatTerm, Memory>
    ensures { IfOk result (λ made. made ≡ tree_of view.entry) }
{
    let mut run = Run::with_room(alloc, view.nodes.len())?;
    run.push_view(view)?;
    Ok(FlatTerm::of_run(run))
}

impl Run {
    /// Adds a node of other contents.
    fn push_copied(&mut self, node: Node, contents: &Contents) -> Result<(), Memory>
        requires { IsSome (read contents.now node) }
        ensures { IfOk result (λ _. map Some self.new ≡ map Some self.old ++ read contents.now node ∷ []) }
    {
        self.push(lend(node, contents))
    }

    /// Adds the nodes of a term.
    pub(crate) fn push_view(&mut self, view: View) -> Result<(), Memory>
        ensures { IfOk result (λ _. self.new ≡ self.old ++ run_of (tree_of view.entry)) }
    {
        for node in view.nodes {
            self.push_copied(*node, view.contents)?;
        }
        Ok(())
    }
}
