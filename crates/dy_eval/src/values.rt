ghost use Rattle.std.specs.Prelude.{◌≡◌, IfOk, map};
ghost use Rattle.std.specs.Option.{option_map};
ghost use Rattle.dy_flat.specs.Views.{tree_of};
ghost use Rattle.dy_eval.specs.Values.{if_small, are_small};
ghost use Rattle.dy_eval.specs.ValueMeaning.{term_of};

use dy_flat::{FlatTerm, View, copy_of, nodes};
use dy_term::Memory;
use dy_term::limits::MAX_NODES;
use std::alloc::Global;

/// The value of an expression: lent from what is written in place of a name, or made.
#[derive(Debug, Drop)]
pub(crate) enum Value<'a> {
    Lent(View<'a>),
    Made(FlatTerm),
}

impl<'a> Value<'a> {
    /// Lends the value.
    pub(crate) fn view(&self) -> View<'_>
        ensures { tree_of result ≡ term_of self.now }
    {
        match self {
            Value::Lent(view) => *view,
            Value::Made(term) => term.whole(),
        }
    }

    /// The value in memory of its own. It refuses out of memory alone.
    pub(crate) fn into_term(self, alloc: Global) -> Result<FlatTerm, Memory>
        ensures { IfOk result (λ made. made ≡ term_of self.entry) }
    {
        match self {
            Value::Lent(view) => copy_of(alloc, view),
            Value::Made(term) => Ok(term),
        }
    }
}

/// A lent term as a value, if it has at most 1,024 nodes.
pub(crate) fn lent_if_small<'a>(view: View<'a>) -> Option<Value<'a>>
    ensures { option_map term_of result ≡ if_small (tree_of view.entry) }
{
    if nodes(view) <= MAX_NODES {
        Some(Value::Lent(view))
    } else {
        None
    }
}

/// A term that was made as a value, if it has at most 1,024 nodes.
pub(crate) fn made_if_small<'a>(term: FlatTerm) -> Option<Value<'a>>
    ensures { option_map term_of result ≡ if_small term }
{
    if nodes(term.whole()) <= MAX_NODES {
        Some(Value::Made(term))
    } else {
        None
    }
}

/// Whether terms have at most 1,024 nodes together.
pub(crate) fn are_small(terms: &[View]) -> bool
    ensures { result ≡ are_small (map tree_of terms.now) }
{
    let mut room = MAX_NODES;
    for term in terms {
        let count = nodes(*term);
        if count > room {
            return false;
        }
        room -= count;
    }
    true
}
