ghost use Rattle.std.specs.Prelude.{◌≡◌, map, length, IfOk};
ghost use Rattle.std.specs.Option.{option_map};
ghost use Rattle.dy_flat.specs.Views.{tree_of};
ghost use Rattle.dy_flat.specs.PartMeaning.{part_of};
ghost use Rattle.dy_flat.specs.MirrorTuples.{fields_left};
ghost use Rattle.dy_syntax.specs.Meaning.{quote_of, pattern_of};
ghost use Rattle.dy_eval.specs.EffectMeaning.{as_effect};
ghost use Rattle.dy_eval.specs.Patterns.{fields_in, match_tuple};
ghost use Rattle.dy_eval.specs.Effects as effects;
ghost use Rattle.dy_eval.specs.NamesMeaning.{names_of};
ghost use Rattle.dy_eval.specs.ViewMeaning.{trees_of};

use crate::effects::Effect;
use crate::names::Names;
use crate::patterns::match_patterns;
use dy_flat::{Fields, Parts, View, same, take_apart, tuple_fields};
use dy_syntax::{Pattern, Quote};
use dy_term::{Memory, Text, sameness_is_equality};
use std::alloc::Global;

/// The fields of a tuple that are not lent yet. It refuses out of memory alone.
fn rest_of<'a>(alloc: Global, fields: Fields<'a>) -> Result<Vec<View<'a>>, Memory>
    ensures { IfOk result (λ made. map tree_of made.items ≡ fields_left fields.entry) }
{
    let mut left = fields;
    let mut made = Vec::new(alloc);
    while let Some(field) = left.next() {
        made.push(field)?;
    }
    Ok(made)
}

/// The fields of a tuple of this tag and so many fields. `None` exactly where the term is none. It refuses out of
/// memory alone.
fn fields_in<'a>(
    alloc: Global,
    term: View<'a>,
    tag: &Text,
    count: usize,
) -> Result<Option<Vec<View<'a>>>, Memory>
    ensures { IfOk result (λ made.
        option_map trees_of made ≡ fields_in tag.now count (tree_of term.entry)) }
{
    sameness_is_equality();
    match tuple_fields(term, tag, count) {
        None => Ok(None),
        Some(fields) => Ok(Some(rest_of(alloc, fields)?)),
    }
}

/// Matches patterns against the fields of a message, which must be a tuple of this tag with as many fields. It refuses
/// out of memory alone.
pub(crate) fn match_tuple(
    names: &Names,
    tag: &Quote,
    patterns: &[Pattern],
    message: Option<View>,
) -> Result<Effect, Memory>
    ensures { IfOk result (λ effect. as_effect effect ≡ match_tuple (names_of names.now) (quote_of tag.now)
        (map pattern_of patterns.now) (part_of message.entry)) }
{
    let Some(message) = message else {
        return Ok(Effect::Fails);
    };
    match fields_in(names.alloc, message, &tag.text, patterns.len())? {
        None => Ok(Effect::Fails),
        Some(fields) => match_patterns(names, patterns, fields.as_slice()),
    }
}

/// What was signed by the key that belongs to a verification key. `None` exactly where the first term is no signature
/// by that key.
pub(crate) fn verified_message<'a>(signed: View<'a>, key: View) -> Option<View<'a>>
    ensures { part_of result ≡ effects.verified_message (tree_of signed.entry) (tree_of key.entry) }
{
    let Parts::Sign(own, message) = take_apart(signed) else {
        return None;
    };
    let Parts::Vk(wanted) = take_apart(key) else {
        return None;
    };
    if same(own, wanted) {
        Some(message)
    } else {
        None
    }
}
