ghost use Rattle.std.specs.Prelude.{◌≡◌, map};
ghost use Rattle.dy_syntax.specs.Scopes as scopes;
ghost use Rattle.dy_syntax.specs.Meaning.{id_of, nm_of};
ghost use Rattle.dy_syntax.specs.MirrorMeaning.{where_of, scope_of};

use crate::names::{Id, Nm};
use dy_term::Word;
use sqlite_items::Items;
use std::alloc::Global;

/// Where something stands.
#[derive(Debug, Drop)]
pub(crate) enum Where {
    InCase,
    InEvent,
    InState { lasting: bool },
    InHandler { goes_on: bool, stores: bool },
    Elsewhere,
}

/// Where something stands, the words that are names there, and the words that are bound there.
#[derive(Debug, Drop)]
pub(crate) struct Scope {
    pub(crate) place: Where,
    pub(crate) names: Items<Id>,
    pub(crate) bound: Items<Id>,
}

/// Whether `self` stands for a principal.
pub(crate) fn has_self(place: &Where) -> bool
    ensures { result ≡ scopes.has_self (where_of place.now) }
{
    matches!(place, Where::InState { .. } | Where::InHandler { .. })
}

/// Whether the word stands among these.
pub(crate) fn is_among(word: &Word, ids: &[Id]) -> bool
    ensures { result ≡ scopes.is_among word.now (scopes.words_of (map id_of ids.now)) }
{
    for id in ids {
        if word.same(&id.word) {
            return true;
        }
    }
    false
}

pub(crate) fn is_name(scope: &Scope, name: &Nm) -> bool
    ensures { result ≡ scopes.is_name (scope_of scope.now) (nm_of name.now) }
{
    match name {
        Nm::Named(id) => is_among(&id.word, scope.names.as_slice()),
        Nm::Me { .. } => has_self(&scope.place),
    }
}

pub(crate) fn is_bound(scope: &Scope, name: &Nm) -> bool
    ensures { result ≡ scopes.is_bound (scope_of scope.now) (nm_of name.now) }
{
    match name {
        Nm::Named(id) => is_among(&id.word, scope.bound.as_slice()),
        Nm::Me { .. } => has_self(&scope.place),
    }
}

/// A place where no names are.
pub(crate) fn no_scope(alloc: Global) -> Scope
    ensures { scope_of result ≡ scopes.no_scope }
{
    Scope {
        place: Where::Elsewhere,
        names: Items::new(alloc),
        bound: Items::new(alloc),
    }
}
