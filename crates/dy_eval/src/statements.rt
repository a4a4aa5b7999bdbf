ghost use Rattle.std.specs.Prelude.{◌≡◌, map, IfOk};
ghost use Rattle.std.specs.Option.{option_and_then};
ghost use Rattle.dy_syntax.specs.Meaning.{id_of, quote_of, nm_of, act_of, expr_of, pattern_of};
ghost use Rattle.dy_eval.specs.EffectMeaning.{as_effect};
ghost use Rattle.dy_eval.specs.Effects as effects;
ghost use Rattle.dy_eval.specs.Patterns.{match_tuple};
ghost use Rattle.dy_flat.specs.Openings.{aead_message_with};
ghost use Rattle.dy_eval.specs.Past.{HasEachVersionOnce, HasRoomForNext, key_of};
ghost use Rattle.dy_eval.specs.Names.{bytes_at, bytes_for, principal_for};
ghost use Rattle.dy_eval.specs.Values as values;
ghost use Rattle.dy_eval.specs.NamesMeaning.{names_of};
ghost use Rattle.dy_eval.specs.LineMeaning.{line_of};
ghost use Rattle.dy_term.specs.Terms as trees;
ghost use Rattle.dy_term.specs.Tuples.{tagged_tuple};
ghost use Rattle.dy_term.specs.Sameness.{is_same};
ghost use Rattle.dy_syntax.specs.Statements as s;

use crate::effects::Effect;
use crate::expressions::value;
use crate::lines::Line;
use crate::names::Names;
use crate::openings::{match_tuple, verified_message};
use crate::past::Past;
use crate::puts::{certifies, makes_nonce, sends, stores, triggers};
use crate::stored_states::{go_on, recall};
use crate::written::Written;
use dy_flat::{FlatTerm, aead_message_with, mac, penc_message, same, tuple};
use dy_label::Kind;
use dy_syntax::{Act, Expr, Id, Nm, Pattern, Quote};
use dy_term::{Memory, Word};
use std::alloc::Global;

/// Bytes in place of a word. It refuses out of memory alone.
fn writes(alloc: Global, word: &Word, bytes: FlatTerm) -> Result<Effect, Memory>
    ensures { IfOk result (λ effect. as_effect effect ≡ effects.writes word.now (Some bytes)) }
{
    let mut written = Vec::new(alloc);
    written.push(Written {
        word: word.copy(),
        bytes,
    })?;
    Ok(Effect::Writes(written))
}

/// What a statement that must hold does.
fn holds(alloc: Global, test: bool) -> Effect
    ensures { as_effect result ≡ effects.holds test }
{
    if test {
        Effect::Writes(Vec::new(alloc))
    } else {
        Effect::Fails
    }
}

/// `let`: the value of an expression in place of a word. It refuses out of memory alone.
fn lets(names: &Names, name: &Id, expr: &Expr) -> Result<Effect, Memory>
    ensures { IfOk result (λ effect. as_effect effect ≡ effects.writes name.now.word
        (values.if_small (values.value (names_of names.now) (expr_of expr.now)))) }
{
    match value(names, expr)? {
        None => Ok(Effect::Fails),
        Some(value) => writes(names.alloc, &name.word, value.into_term(names.alloc)?),
    }
}

/// `find`: the first certified key of a principal for a usage in place of a word. It refuses out of memory alone.
fn finds<P: Past>(
    names: &Names,
    past: &P,
    usage: &Id,
    owner: &Nm,
    name: &Id,
) -> Result<Effect, Memory>
    ensures { IfOk result (λ effect. as_effect effect ≡ effects.writes name.now.word
        (option_and_then (λ principal. key_of (P.trace past.now) principal usage.now.word)
        (principal_for (names_of names.now) (nm_of owner.now)))) }
{
    let Some(principal) = names.principal_for(owner) else {
        return Ok(Effect::Fails);
    };
    let Some(index) = past.find_cert(principal, &usage.word) else {
        return Ok(Effect::Fails);
    };
    match past.cert(index) {
        None => Ok(Effect::Fails),
        Some(key) => writes(names.alloc, &name.word, key.copy(names.alloc)?),
    }
}

/// `open`: matches the message of authenticated encryption with this key and these associated data. It refuses out of
/// memory alone.
fn opens(
    names: &Names,
    sealed: &Id,
    key: &Id,
    tag: &Quote,
    patterns: &[Pattern],
    ad: &Expr,
) -> Result<Effect, Memory>
    ensures { IfOk result (λ effect. as_effect effect ≡ match_tuple (names_of names.now) (quote_of tag.now)
        (map pattern_of patterns.now)
        (option_and_then (aead_message_with (bytes_at (names_of names.now) sealed.now.word)
        (bytes_at (names_of names.now) key.now.word))
        (values.if_small (values.value (names_of names.now) (expr_of ad.now))))) }
{
    let Some(data) = value(names, ad)? else {
        return Ok(Effect::Fails);
    };
    let message = aead_message_with(
        names.bytes_at(&sealed.word),
        names.bytes_at(&key.word),
        data.view(),
    );
    match_tuple(names, tag, patterns, message)
}

/// `check`: whether a value is the code of a tuple by a key. It refuses out of memory alone.
fn checks(names: &Names, code: &Id, key: &Id, tag: &Quote, args: &[Nm]) -> Result<Effect, Memory>
    ensures { IfOk result (λ effect. as_effect effect
        ≡ effects.holds (is_same (bytes_at (names_of names.now) code.now.word)
        (trees.Mac (bytes_at (names_of names.now) key.now.word)
        (tagged_tuple (quote_of tag.now).text (map (bytes_for (names_of names.now)) (map nm_of args.now)))))) }
{
    let fields = names.bytes_for_all(args)?;
    let message = tuple(names.alloc, &tag.text, fields.as_slice())?;
    let wanted = mac(names.alloc, names.bytes_at(&key.word), message.whole())?;
    let test = same(names.bytes_at(&code.word), wanted.whole());
    Ok(holds(names.alloc, test))
}

/// What a statement does. It refuses out of memory alone.
fn effect_of<P: Past>(names: &Names, past: &P, kind: Kind, act: &Act) -> Result<Effect, Memory>
    requires once { HasEachVersionOnce (P.trace past.now) }
    requires room { HasRoomForNext (P.trace past.now) names.now.principal names.now.session }
    ensures { IfOk result (λ effect.
        as_effect effect ≡ effects.effect_of (P.trace past.now) (names_of names.now) kind (act_of act.now)) }
{
    match act {
        Act::New { name, usage, label } => makes_nonce(names, past, kind, name, usage, label),
        Act::Let { name, value } => lets(names, name, value),
        Act::Event(atom) => triggers(names, atom),
        Act::Send(value) => sends(names, value),
        Act::Store { state, fields } => stores(names, past, state, fields.as_slice()),
        Act::Certify { key, usage } => certifies(names, kind, key, usage),
        Act::Find { usage, owner, name } => finds(names, past, usage, owner, name),
        Act::Recall { state, pats } => recall(names, past, &state.word, pats.as_slice()),
        Act::Split { value, tag, pats } => {
            let message = Some(names.bytes_at(&value.word));
            match_tuple(names, tag, pats.as_slice(), message)
        }
        Act::Opened {
            value,
            key,
            tag,
            pats,
            ad,
            ..
        } => opens(names, value, key, tag, pats.as_slice(), ad),
        Act::Popened {
            value,
            key,
            tag,
            pats,
            ..
        } => {
            let message = penc_message(names.bytes_at(&value.word), names.bytes_at(&key.word));
            match_tuple(names, tag, pats.as_slice(), message)
        }
        Act::Verify {
            value,
            key,
            tag,
            pats,
            ..
        } => {
            let message = verified_message(names.bytes_at(&value.word), names.bytes_at(&key.word));
            match_tuple(names, tag, pats.as_slice(), message)
        }
        Act::Check {
            value,
            key,
            tag,
            args,
            ..
        } => checks(names, value, key, tag, args.as_slice()),
        Act::Same(left, right) => {
            let test = same(names.bytes_for(left), names.bytes_for(right));
            Ok(holds(names.alloc, test))
        }
    }
}

/// What a line does. It refuses out of memory alone.
pub(crate) fn effect<P: Past>(names: &Names, past: &P, line: &Line) -> Result<Effect, Memory>
    requires once { HasEachVersionOnce (P.trace past.now) }
    requires room { HasRoomForNext (P.trace past.now) names.now.principal names.now.session }
    ensures { IfOk result (λ effect.
        as_effect effect ≡ effects.effect (P.trace past.now) (names_of names.now) (line_of line.now)) }
{
    match line {
        Line::GoesOn(on) => go_on(names, past, on),
        Line::Does(kind, act) => effect_of(names, past, *kind, act),
    }
}
