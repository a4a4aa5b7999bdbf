ghost use Rattle.std.specs.Prelude.{◌≡◌, ◌++◌, map, length, IfOk};
ghost use Rattle.std.specs.Option.{option_map};
ghost use Rattle.dy_flat.specs.Views.{tree_of};
ghost use Rattle.dy_syntax.specs.Meaning.{id_of, pattern_of};
ghost use Rattle.dy_eval.specs.EffectMeaning.{as_effect};
ghost use Rattle.dy_eval.specs.Patterns.{fits_one, fits, variable_in, written_by_one, written_by, match_patterns};
ghost use Rattle.dy_eval.specs.NamesMeaning.{names_of};

use crate::effects::Effect;
use crate::lookups::principal_in;
use crate::names::Names;
use crate::written::Written;
use dy_flat::{FlatTerm, View, copy_of, same};
use dy_syntax::{Id, Pattern};
use dy_term::Memory;
use std::alloc::Global;

/// Whether a field fits a pattern.
fn fits_one(names: &Names, pattern: &Pattern, field: View) -> bool
    ensures { result ≡ fits_one (names_of names.now) (pattern_of pattern.now) (tree_of field.entry) }
{
    match pattern {
        Pattern::Bind(_) => true,
        Pattern::Named { .. } => principal_in(field).is_some(),
        Pattern::Equal { to, .. } => same(field, names.bytes_for(to)),
    }
}

/// Whether the fields are as many as the patterns, and each fits its own.
pub(crate) fn fits(names: &Names, patterns: &[Pattern], fields: &[View]) -> bool
    ensures { result ≡ fits (names_of names.now) (map pattern_of patterns.now) (map tree_of fields.now) }
{
    if patterns.len() != fields.len() {
        return false;
    }
    for at in 0..patterns.len() {
        if !fits_one(names, &patterns[at], fields[at]) {
            return false;
        }
    }
    true
}

/// A field in place of a word. It refuses out of memory alone.
fn in_place(alloc: Global, name: &Id, field: View) -> Result<Written, Memory>
    ensures word { IfOk result (λ made. made.word ≡ name.now.word) }
    ensures bytes { IfOk result (λ made. made.bytes ≡ tree_of field.entry) }
{
    Ok(Written {
        word: name.word.copy(),
        bytes: copy_of(alloc, field)?,
    })
}

/// The variable of a pattern that takes the value.
fn variable_in(pattern: &Pattern) -> Option<&Id>
    ensures { option_map (λ id. id_of id.now) result ≡ variable_in (pattern_of pattern.now) }
{
    match pattern {
        Pattern::Bind(name) => Some(name),
        Pattern::Named { name, .. } => Some(name),
        Pattern::Equal { .. } => None,
    }
}

/// Adds what a pattern writes in place of its variable. It refuses out of memory alone.
fn write_one(
    alloc: Global,
    made: &mut Vec<Written>,
    pattern: &Pattern,
    field: View,
) -> Result<(), Memory>
    ensures { IfOk result (λ _. made.new.items
        ≡ made.old.items ++ written_by_one (pattern_of pattern.now) (tree_of field.entry)) }
{
    if let Some(name) = variable_in(pattern) {
        made.push(in_place(alloc, name, field)?)?;
    }
    Ok(())
}

/// What patterns write in place of their variables, each of its own field. It refuses out of memory alone.
fn written_by(alloc: Global, patterns: &[Pattern], fields: &[View]) -> Result<Vec<Written>, Memory>
    requires { length patterns.now ≡ length fields.now }
    ensures { IfOk result (λ made.
        made.items ≡ written_by (map pattern_of patterns.now) (map tree_of fields.now)) }
{
    let mut made = Vec::new(alloc);
    for at in 0..patterns.len() {
        write_one(alloc, &mut made, &patterns[at], fields[at])?;
    }
    Ok(made)
}

/// Matches patterns against fields. It refuses out of memory alone.
pub(crate) fn match_patterns(
    names: &Names,
    patterns: &[Pattern],
    fields: &[View],
) -> Result<Effect, Memory>
    ensures { IfOk result (λ effect.
        as_effect effect ≡ match_patterns (names_of names.now) (map pattern_of patterns.now) (map tree_of fields.now)) }
{
    if fits(names, patterns, fields) {
        Ok(Effect::Writes(written_by(names.alloc, patterns, fields)?))
    } else {
        Ok(Effect::Fails)
    }
}

/// Lends terms. It refuses out of memory alone.
pub(crate) fn lent_terms(alloc: Global, terms: &[FlatTerm]) -> Result<Vec<View<'_>>, Memory>
    ensures { IfOk result (λ made. map tree_of made.items ≡ terms.now) }
{
    let mut made = Vec::new(alloc);
    for term in terms {
        made.push(term.whole())?;
    }
    Ok(made)
}

/// Matches patterns against the fields of a state. It refuses out of memory alone.
pub(crate) fn match_terms(
    names: &Names,
    patterns: &[Pattern],
    fields: &[FlatTerm],
) -> Result<Effect, Memory>
    ensures { IfOk result (λ effect.
        as_effect effect ≡ match_patterns (names_of names.now) (map pattern_of patterns.now) fields.now) }
{
    let lent = lent_terms(names.alloc, fields)?;
    match_patterns(names, patterns, lent.as_slice())
}
