ghost use Rattle.std.specs.Prelude.{◌≡◌, map, IfOk, MatchOption};
ghost use Rattle.dy_syntax.specs.Meaning.{on_part_of, pattern_of};
ghost use Rattle.dy_eval.specs.EffectMeaning.{as_effect};
ghost use Rattle.dy_eval.specs.Past.{go_on, recall, HasEachVersionOnce};
ghost use Rattle.dy_eval.specs.NamesMeaning.{names_of};
ghost use Rattle.dy_eval.specs.StoredMeaning.{stored_of};
ghost use Rattle.dy_eval.specs.MirrorPast.{FoundNext};
ghost use Rattle.dy_entry.specs.LookUps.{HasNoNext};

use crate::effects::Effect;
use crate::names::Names;
use crate::past::{Past, Stored};
use crate::patterns::{fits, lent_terms, match_patterns, match_terms};
use dy_label::states_are_in_one_order;
use dy_syntax::{OnPart, Pattern};
use dy_term::{Memory, Word};

/// Takes the newest version of the session, which must have the tag and match. It refuses out of memory alone.
pub(crate) fn go_on<P: Past>(names: &Names, past: &P, on: &OnPart) -> Result<Effect, Memory>
    ensures { IfOk result (λ effect.
        as_effect effect ≡ go_on (P.trace past.now) (names_of names.now) (on_part_of on.now)) }
{
    let newest = past.newest(&names.principal, names.session);
    let Some(index) = past.state_at(&names.principal, names.session, newest) else {
        return Ok(Effect::Fails);
    };
    let Some(stored) = past.state(index) else {
        return Ok(Effect::Fails);
    };
    if !stored.tag.same(&on.state.word) {
        return Ok(Effect::Fails);
    }
    match_terms(names, on.pats.as_slice(), stored.fields)
}

/// The next state of this tag in the order of look-ups, after a session and version, or from the first on where none
/// is given.
fn next_stored<'a, P: Past>(
    names: &Names,
    past: &'a P,
    tag: &Word,
    from: Option<(u32, u32)>,
) -> Option<Stored<'a>>
    ensures { MatchOption result
        (HasNoNext (P.trace past.now) names.now.principal tag.now from)
        (λ stored. FoundNext (P.trace past.now) names.now.principal tag.now from (stored_of stored)) }
{
    let index = past.find_state(&names.principal, tag, from)?;
    past.state(index)
}

/// Takes, of the states of this tag that match, that of the least session and, within it, of the greatest version. It
/// refuses out of memory alone.
pub(crate) fn recall<P: Past>(
    names: &Names,
    past: &P,
    tag: &Word,
    patterns: &[Pattern],
) -> Result<Effect, Memory>
    requires { HasEachVersionOnce (P.trace past.now) }
    ensures { IfOk result (λ effect.
        as_effect effect ≡ recall (P.trace past.now) (names_of names.now) tag.now (map pattern_of patterns.now)) }
{
    states_are_in_one_order();
    let mut from = None;
    while let Some(stored) = next_stored(names, past, tag, from) {
        let fields = lent_terms(names.alloc, stored.fields)?;
        if fits(names, patterns, fields.as_slice()) {
            return match_patterns(names, patterns, fields.as_slice());
        }
        from = Some((stored.session, stored.version));
    }
    Ok(Effect::Fails)
}
