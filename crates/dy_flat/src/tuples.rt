ghost use Rattle.std.specs.Prelude.{◌≡◌, List, [], ◌∷◌, MatchOption, length, IfSome, IfNone};
ghost use Rattle.dy_term.specs.Terms.{Term, Lit};
ghost use Rattle.dy_term.specs.Sameness.{is_same};
ghost use Rattle.dy_term.specs.Tuples.{tagged_tuple};
ghost use Rattle.dy_flat.specs.Views.{tree_of};
ghost use Rattle.dy_flat.specs.MirrorTuples as mirror;
ghost use Rattle.dy_flat.specs.MirrorTuples.{fields_left};

use crate::parts::{Parts, first, second, take_apart};
use crate::views::View;
use dy_term::{Text, sameness_is_equality};

/// Fields of a tuple, which are lent one by one.
#[derive(Clone, Copy)]
pub struct Fields<'a> {
    /// The first of the fields, and those after it, as pairs that are nested to the right.
    rest: View<'a>,
    left: usize,
}

impl<'a> Fields<'a> {
    /// The next field, if one is left.
    pub fn next(&mut self) -> Option<View<'a>>
        ensures { MatchOption result ((fields_left self.old ≡ []) × (fields_left self.new ≡ []))
            (λ field. fields_left self.old ≡ tree_of field ∷ fields_left self.new) }
    {
        let rest = self.rest;
        if self.left == 0 {
            return None;
        }
        if self.left == 1 {
            self.left = 0;
            return Some(rest);
        }
        match take_apart(rest) {
            Parts::Pair(field, more) => {
                self.rest = more;
                self.left -= 1;
                Some(field)
            }
            _ => {
                self.left = 0;
                None
            }
        }
    }
}

/// Whether the term is this literal.
fn is_tag(view: View, tag: &Text) -> bool
    ensures { result ≡ is_same (tree_of view.entry) (Lit tag.now) }
{
    match take_apart(view) {
        Parts::Lit(text) => text.same(tag),
        _ => false,
    }
}

/// Whether so many pairs are nested to the right.
fn has_pairs(view: View, count: usize) -> bool
    ensures { result ≡ mirror.has_pairs count (tree_of view.entry) }
{
    let mut rest = view;
    for _passed in 0..count {
        rest = match second(rest) {
            Some(more) => more,
            None => return false,
        };
    }
    true
}

/// Whether the term is a tuple of this tag and so many fields.
fn is_tuple(view: View, tag: &Text, count: usize) -> bool
    ensures { result ≡ mirror.is_tuple tag.now count (tree_of view.entry) }
{
    if count == 0 {
        return is_tag(view, tag);
    }
    match take_apart(view) {
        Parts::Pair(first, rest) => is_tag(first, tag) && has_pairs(rest, count - 1),
        _ => false,
    }
}

/// Lends the fields of a tuple of this tag and so many fields. `None` exactly where the term is none.
pub fn tuple_fields<'a>(view: View<'a>, tag: &Text, count: usize) -> Option<Fields<'a>>
    ensures fields { IfSome result (λ fields. tree_of view.entry ≡ tagged_tuple tag.now (fields_left fields)) }
    ensures count { IfSome result (λ fields. length (fields_left fields) ≡ count) }
    ensures none { IfNone result ((fields : List Term) → length fields ≡ count →
        tree_of view.entry ≡ tagged_tuple tag.now fields → ⊥) }
{
    sameness_is_equality();
    if !is_tuple(view, tag, count) {
        return None;
    }
    if count == 0 {
        return Some(Fields {
            rest: view,
            left: 0,
        });
    }
    Some(Fields {
        rest: second(view)?,
        left: count,
    })
}
