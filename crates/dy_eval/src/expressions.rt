ghost use Rattle.std.specs.Prelude.{◌≡◌, map, IfOk};
ghost use Rattle.std.specs.Option.{option_map};
ghost use Rattle.dy_term.specs.Tuples.{tagged_tuple};
ghost use Rattle.dy_flat.specs.Views.{tree_of};
ghost use Rattle.dy_syntax.specs.Meaning.{expr_of, quote_of, args_of};
ghost use Rattle.dy_eval.specs.Values as values;
ghost use Rattle.dy_eval.specs.Values.{if_small};
ghost use Rattle.dy_eval.specs.MirrorValues.{all_if_small};
ghost use Rattle.dy_eval.specs.ValueMeaning.{term_of, terms_of};
ghost use Rattle.dy_eval.specs.NamesMeaning.{names_of};

use crate::names::Names;
use crate::values::{Value, lent_if_small, made_if_small};
use dy_flat::{View, aead, hash, kdf, lit, mac, pair, penc, pk, sign, tuple, vk};
use dy_syntax::{Expr, Tuple};
use dy_term::Memory;
use std::alloc::Global;

/// Lends values.
pub(crate) fn views<'a>(alloc: Global, values: &'a [Value<'a>]) -> Result<Vec<View<'a>>, Memory>
    ensures { IfOk result (λ made. map tree_of made.items ≡ map term_of values.now) }
{
    let mut made = Vec::new(alloc);
    for value in values {
        made.push(value.view())?;
    }
    Ok(made)
}

/// The values of expressions, in order. `None` exactly where one has more than 1,024 nodes. It refuses out of memory
/// alone.
#[cycle(value)]
pub(crate) fn values<'a>(names: &'a Names, exprs: &[Expr]) -> Result<Option<Vec<Value<'a>>>, Memory>
    ensures { IfOk result (λ made. option_map terms_of made ≡
        all_if_small (map (values.value (names_of names.now)) (map expr_of exprs.now))) }
{
    let mut made = Vec::new(names.alloc);
    for expr in exprs {
        match value(names, expr)? {
            Some(value) => made.push(value)?,
            None => return Ok(None),
        }
    }
    Ok(Some(made))
}

/// A tuple of the values of its expressions. `None` exactly where it has more than 1,024 nodes. It refuses out of
/// memory alone.
#[cycle(value)]
fn tuple_value<'a>(names: &'a Names, parts: &Tuple) -> Result<Option<Value<'a>>, Memory>
    ensures { IfOk result (λ made. option_map term_of made ≡ if_small
        (tagged_tuple (quote_of parts.now.tag).text (values.values (names_of names.now) (args_of parts.now)))) }
{
    let Some(fields) = values(names, parts.args.as_slice())? else {
        return Ok(None);
    };
    let lent = views(names.alloc, fields.as_slice())?;
    Ok(made_if_small(tuple(names.alloc, &parts.tag.text, lent.as_slice())?))
}

/// The value of an expression. `None` exactly where it has more than 1,024 nodes. It refuses out of memory alone.
#[cycle(value)]
pub(crate) fn value<'a>(names: &'a Names, expr: &Expr) -> Result<Option<Value<'a>>, Memory>
    ensures { IfOk result (λ made.
        option_map term_of made ≡ if_small (values.value (names_of names.now) (expr_of expr.now))) }
{
    let alloc = names.alloc;
    match expr {
        Expr::Nm(name) => Ok(lent_if_small(names.bytes_for(name))),
        Expr::Lit(quote) => Ok(made_if_small(lit(alloc, &quote.text)?)),
        Expr::Tuple(parts) => tuple_value(names, parts),
        Expr::Pair(_, first, second) => {
            let Some(first) = value(names, first)? else {
                return Ok(None);
            };
            let Some(second) = value(names, second)? else {
                return Ok(None);
            };
            Ok(made_if_small(pair(alloc, first.view(), second.view())?))
        }
        Expr::Pk(_, key) => Ok(made_if_small(pk(alloc, names.bytes_for(key))?)),
        Expr::Vk(_, key) => Ok(made_if_small(vk(alloc, names.bytes_for(key))?)),
        Expr::Penc(_, key, _, parts) => {
            let Some(message) = tuple_value(names, parts)? else {
                return Ok(None);
            };
            Ok(made_if_small(penc(alloc, names.bytes_for(key), message.view())?))
        }
        Expr::Aead(_, key, _, parts, ad) => {
            let Some(message) = tuple_value(names, parts)? else {
                return Ok(None);
            };
            let Some(data) = value(names, ad)? else {
                return Ok(None);
            };
            Ok(made_if_small(aead(alloc, names.bytes_for(key), message.view(), data.view())?))
        }
        Expr::Sign(_, key, _, parts) => {
            let Some(message) = tuple_value(names, parts)? else {
                return Ok(None);
            };
            Ok(made_if_small(sign(alloc, names.bytes_for(key), message.view())?))
        }
        Expr::Mac(_, key, _, parts) => {
            let Some(message) = tuple_value(names, parts)? else {
                return Ok(None);
            };
            Ok(made_if_small(mac(alloc, names.bytes_for(key), message.view())?))
        }
        Expr::Kdf(_, key, context, input) => {
            let Some(input) = value(names, input)? else {
                return Ok(None);
            };
            Ok(made_if_small(kdf(alloc, names.bytes_for(key), &context.text, input.view())?))
        }
        Expr::Hash(_, message) => {
            let Some(message) = value(names, message)? else {
                return Ok(None);
            };
            Ok(made_if_small(hash(alloc, message.view())?))
        }
    }
}
