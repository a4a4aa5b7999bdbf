ghost use Rattle.std.specs.Prelude.{◌≡◌, ◌+◌, ◌<◌, ◌^◌, map, IfOk};
ghost use Rattle.std.specs.Option.{option_map, option_and_then};
ghost use Rattle.dy_flat.specs.Views.{tree_of};
ghost use Rattle.dy_syntax.specs.Meaning.{id_of, use_of, label_of, expr_of, atom_of};
ghost use Rattle.dy_syntax.specs.Statements as s;
ghost use Rattle.dy_entry.specs.LookUps.{newest};
ghost use Rattle.dy_eval.specs.EffectMeaning.{as_effect};
ghost use Rattle.dy_eval.specs.Effects.{effect_of, public_key, puts, puts_all};
ghost use Rattle.dy_eval.specs.Names.{bytes_at, bytes_for};
ghost use Rattle.dy_eval.specs.declared.items.Item.TheVariants.{Message, Event, State, Cert};
ghost use Rattle.dy_eval.specs.Past.{HasRoomForNext};
ghost use Rattle.dy_eval.specs.Values.{value, if_small};
ghost use Rattle.dy_eval.specs.NamesMeaning.{names_of};

use crate::effects::Effect;
use crate::expressions::{value, values, views};
use crate::items::Item;
use crate::names::Names;
use crate::past::Past;
use crate::readers::{label_for, usage_for};
use crate::values::are_small;
use dy_flat::{FlatTerm, View, copy_of, nodes, pk, vk};
use dy_label::Kind;
use dy_syntax::{AtomText, Expr, Id, LabelText, UseText};
use dy_term::Memory;
use dy_term::limits::MAX_NODES;
use sqlite_items::Items;
use std::alloc::Global;

/// Lent terms in memory of their own. It refuses out of memory alone.
fn copies(alloc: Global, terms: &[View]) -> Result<Items<FlatTerm>, Memory>
    ensures { IfOk result (λ made. made ≡ map tree_of terms.now) }
{
    let mut made = Items::new(alloc);
    for term in terms {
        made.push(copy_of(alloc, *term)?)?;
    }
    Ok(made)
}

/// `new`: puts a nonce with the label and the usage that the texts denote. It refuses out of memory alone.
pub(crate) fn makes_nonce<P: Past>(
    names: &Names,
    past: &P,
    kind: Kind,
    name: &Id,
    usage: &UseText,
    label: &LabelText,
) -> Result<Effect, Memory>
    requires { HasRoomForNext (P.trace past.now) names.now.principal names.now.session }
    ensures { IfOk result (λ effect. as_effect effect ≡ effect_of (P.trace past.now) (names_of names.now) kind
        (s.New (id_of name.now) (use_of usage.now) (label_of label.now))) }
{
    let newest = past.newest(&names.principal, names.session);
    let label = label_for(names, newest, label)?;
    let usage = usage_for(names, kind, usage)?;
    Ok(Effect::Puts(Item::Fresh(label, usage), Some(name.word.copy())))
}

/// `send`: puts a message. It refuses out of memory alone.
pub(crate) fn sends(names: &Names, expr: &Expr) -> Result<Effect, Memory>
    ensures { IfOk result (λ effect. as_effect effect
        ≡ puts Message (if_small (value (names_of names.now) (expr_of expr.now)))) }
{
    match value(names, expr)? {
        None => Ok(Effect::Fails),
        Some(value) => {
            let message = value.into_term(names.alloc)?;
            Ok(Effect::Puts(Item::Message(message), None))
        }
    }
}

/// `event`: puts an event, if its arguments have at most 1,024 nodes together. It refuses out of memory alone.
pub(crate) fn triggers(names: &Names, atom: &AtomText) -> Result<Effect, Memory>
    ensures { IfOk result (λ effect. as_effect effect ≡ puts_all (Event (atom_of atom.now).event.word)
        (map (bytes_for (names_of names.now)) (atom_of atom.now).args)) }
{
    let args = names.bytes_for_all(atom.args.as_slice())?;
    if !are_small(args.as_slice()) {
        return Ok(Effect::Fails);
    }
    let args = copies(names.alloc, args.as_slice())?;
    Ok(Effect::Puts(Item::Event(atom.event.word.copy(), args), None))
}

/// `store`: puts the next version, if its fields have at most 1,024 nodes together. It refuses out of memory alone.
pub(crate) fn stores<P: Past>(
    names: &Names,
    past: &P,
    state: &Id,
    fields: &[Expr],
) -> Result<Effect, Memory>
    requires { HasRoomForNext (P.trace past.now) names.now.principal names.now.session }
    ensures { IfOk result (λ effect. as_effect effect ≡ puts_all
        (State (newest (P.trace past.now) names.now.principal names.now.session + 1) state.now.word)
        (map (value (names_of names.now)) (map expr_of fields.now))) }
{
    let Some(fields) = values(names, fields)? else {
        return Ok(Effect::Fails);
    };
    let lent = views(names.alloc, fields.as_slice())?;
    if !are_small(lent.as_slice()) {
        return Ok(Effect::Fails);
    }
    let version = past.newest(&names.principal, names.session) + 1;
    let fields = copies(names.alloc, lent.as_slice())?;
    Ok(Effect::Puts(Item::State(version, state.word.copy(), fields), None))
}

/// The public key that is certified of a key. `None` exactly where the kind has none. It refuses out of memory alone.
fn public_key(alloc: Global, kind: Kind, key: View) -> Result<Option<FlatTerm>, Memory>
    ensures { IfOk result (λ made. made ≡ public_key kind (tree_of key.entry)) }
{
    match kind {
        Kind::Pke => Ok(Some(pk(alloc, key)?)),
        Kind::Sig => Ok(Some(vk(alloc, key)?)),
        _ => Ok(None),
    }
}

/// `certify`: puts a certificate. It refuses out of memory alone.
pub(crate) fn certifies(names: &Names, kind: Kind, key: &Id, usage: &Id) -> Result<Effect, Memory>
    ensures { IfOk result (λ effect. as_effect effect ≡ puts (Cert usage.now.word)
        (option_and_then if_small (public_key kind (bytes_at (names_of names.now) key.now.word)))) }
{
    match public_key(names.alloc, kind, names.bytes_at(&key.word))? {
        Some(made) if nodes(made.whole()) <= MAX_NODES => {
            Ok(Effect::Puts(Item::Cert(usage.word.copy(), made), None))
        }
        _ => Ok(Effect::Fails),
    }
}
