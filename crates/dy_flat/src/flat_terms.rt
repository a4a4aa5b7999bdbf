use crate::contents::Contents;
use crate::flat_nodes::Node;
use crate::runs::Run;
use crate::views::View;
use dy_term::Memory;
use std::alloc::Global;
use std::marker::Model;

/// A term, as the run of its nodes in preorder, with each of its texts and names once. Contracts see the tree.
///
/// A term of n nodes takes 8 n bytes and 33 for each different text and name, beside 72 of its own. One that was
/// built may keep as much again free for texts and names. One of `from_tree` may keep as much for nodes, and one of
/// `copy` keeps nothing free. What would make a term with too many nodes before a part, texts or names answers
/// `Memory`. The least number that does not fit is 2^32. Only `from_tree` and `to_tree` are recursive, as deep as the
/// term.
#[derive(Debug, Drop)]
pub struct FlatTerm {
    nodes: Vec<Node>,
    contents: Contents,
}

impl Model for FlatTerm {
    ghost use Rattle.dy_term.specs.Terms.{Term};
    ghost use Rattle.dy_flat.specs.MirrorCodes.{term_code};

    ghost Value = { Term };

    ghost coded = { term_code };

    ghost use Rattle.dy_flat.specs.Runs.{term_of};
    ghost use Rattle.dy_flat.specs.Meaning.{IsWhole, read_all, known_nodes};

    ghost view = { λ t. term_of (known_nodes (read_all t.contents t.nodes.items)) };

    ghost invariant = { λ t. IsWhole t.contents t.nodes.items };
}

impl FlatTerm {
    ghost use Rattle.std.specs.Prelude.{◌≡◌, IfOk};
    ghost use Rattle.dy_flat.specs.Runs.{IsRun, term_of};
    ghost use Rattle.dy_flat.specs.Views.{tree_of};

    /// The run of a whole term, as that term.
    pub(crate) fn of_run(run: Run) -> FlatTerm
        requires { IsRun run }
        ensures { result ≡ term_of run }
    {
        let Run { nodes, contents } = run;
        FlatTerm {
            nodes,
            contents: contents.into_contents(),
        }
    }

    /// Lends the whole term.
    pub fn whole(&self) -> View<'_>
        ensures { tree_of result ≡ self.now }
    {
        View {
            nodes: self.nodes.as_slice(),
            contents: &self.contents,
        }
    }

    /// An equal term, in memory of its own. The one refusal is out of memory.
    pub fn copy(&self, alloc: Global) -> Result<FlatTerm, Memory>
        ensures { IfOk result (λ made. made ≡ self.now) }
    {
        Ok(FlatTerm {
            nodes: Vec::from_clones(alloc, self.nodes.as_slice())?,
            contents: self.contents.copy(alloc)?,
        })
    }
}
