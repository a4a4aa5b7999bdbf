ghost use Rattle.std.specs.Prelude.{◌≡◌, map, IfOk};
ghost use Rattle.dy_syntax.specs.Meaning.{id_of, quote_of, nm_of, use_of, atom_of, label_of, expr_of, args_of};
ghost use Rattle.dy_syntax.specs.Meaning.{pattern_of, on_part_of, act_of};

use dy_syntax::{Act, AtomText, Expr, Id, LabelText, Nm, OnPart, Pattern, Quote, Tuple, UseText};
use dy_term::Memory;
use sqlite_items::Items;
use std::alloc::Global;

fn quote_copy(quote: &Quote) -> Quote
    ensures { quote_of result ≡ quote_of quote.now }
{
    Quote {
        text: quote.text.copy(),
        line: quote.line,
    }
}

fn name_copy(name: &Nm) -> Nm
    ensures { nm_of result ≡ nm_of name.now }
{
    match name {
        Nm::Named(id) => Nm::Named(id.copy()),
        Nm::Me { line } => Nm::Me { line: *line },
    }
}

fn names_copy(alloc: Global, names: &[Nm]) -> Result<Items<Nm>, Memory>
    ensures { IfOk result (λ made. map nm_of made ≡ map nm_of names.now) }
{
    let mut made = Items::new(alloc);
    for name in names {
        made.push(name_copy(name))?;
    }
    Ok(made)
}

fn use_copy(alloc: Global, usage: &UseText) -> Result<UseText, Memory>
    ensures { IfOk result (λ made. use_of made ≡ use_of usage.now) }
{
    Ok(UseText {
        usage: usage.usage.copy(),
        args: names_copy(alloc, usage.args.as_slice())?,
    })
}

fn atom_copy(alloc: Global, atom: &AtomText) -> Result<AtomText, Memory>
    ensures { IfOk result (λ made. atom_of made ≡ atom_of atom.now) }
{
    Ok(AtomText {
        event: atom.event.copy(),
        args: names_copy(alloc, atom.args.as_slice())?,
    })
}

fn label_copy(alloc: Global, label: &LabelText) -> Result<LabelText, Memory>
    ensures { IfOk result (λ made. label_of made ≡ label_of label.now) }
{
    Ok(match label {
        LabelText::Public(line) => LabelText::Public(*line),
        LabelText::Nobody(line) => LabelText::Nobody(*line),
        LabelText::Session(line) => LabelText::Session(*line),
        LabelText::Next(line) => LabelText::Next(*line),
        LabelText::Prior(line) => LabelText::Prior(*line),
        LabelText::Here(line) => LabelText::Here(*line),
        LabelText::One(name) => LabelText::One(name_copy(name)),
        LabelText::Join(line, left, right) => {
            let left = label_copy(alloc, left)?;
            let right = label_copy(alloc, right)?;
            LabelText::Join(*line, Box::new(alloc, left)?, Box::new(alloc, right)?)
        }
        LabelText::Meet(line, left, right) => {
            let left = label_copy(alloc, left)?;
            let right = label_copy(alloc, right)?;
            LabelText::Meet(*line, Box::new(alloc, left)?, Box::new(alloc, right)?)
        }
    })
}

#[cycle(expr_copy)]
fn exprs_copy(alloc: Global, exprs: &[Expr]) -> Result<Vec<Expr>, Memory>
    ensures { IfOk result (λ made. map expr_of made.items ≡ map expr_of exprs.now) }
{
    let mut made = Vec::new(alloc);
    for expr in exprs {
        made.push(expr_copy(alloc, expr)?)?;
    }
    Ok(made)
}

#[cycle(expr_copy)]
fn tuple_copy(alloc: Global, tuple: &Tuple) -> Result<Tuple, Memory>
    ensures tag { IfOk result (λ made. quote_of made.tag ≡ quote_of tuple.now.tag) }
    ensures args { IfOk result (λ made. args_of made ≡ args_of tuple.now) }
{
    Ok(Tuple {
        tag: quote_copy(&tuple.tag),
        args: exprs_copy(alloc, tuple.args.as_slice())?,
    })
}

#[cycle(expr_copy)]
fn boxed_copy(alloc: Global, expr: &Expr) -> Result<Box<Expr>, Memory>
    ensures { IfOk result (λ made. expr_of made.value ≡ expr_of expr.now) }
{
    Ok(Box::new(alloc, expr_copy(alloc, expr)?)?)
}

/// An equal expression in memory of its own. It refuses out of memory alone.
#[cycle(expr_copy)]
fn expr_copy(alloc: Global, expr: &Expr) -> Result<Expr, Memory>
    ensures { IfOk result (λ made. expr_of made ≡ expr_of expr.now) }
{
    Ok(match expr {
        Expr::Nm(name) => Expr::Nm(name_copy(name)),
        Expr::Lit(quote) => Expr::Lit(quote_copy(quote)),
        Expr::Tuple(tuple) => Expr::Tuple(tuple_copy(alloc, tuple)?),
        Expr::Pair(line, first, second) => Expr::Pair(
            *line,
            boxed_copy(alloc, first)?,
            boxed_copy(alloc, second)?,
        ),
        Expr::Pk(line, key) => Expr::Pk(*line, name_copy(key)),
        Expr::Vk(line, key) => Expr::Vk(*line, name_copy(key)),
        Expr::Penc(line, key, usage, tuple) => Expr::Penc(
            *line,
            name_copy(key),
            use_copy(alloc, usage)?,
            tuple_copy(alloc, tuple)?,
        ),
        Expr::Aead(line, key, usage, tuple, ad) => Expr::Aead(
            *line,
            name_copy(key),
            use_copy(alloc, usage)?,
            tuple_copy(alloc, tuple)?,
            boxed_copy(alloc, ad)?,
        ),
        Expr::Sign(line, key, usage, tuple) => Expr::Sign(
            *line,
            name_copy(key),
            use_copy(alloc, usage)?,
            tuple_copy(alloc, tuple)?,
        ),
        Expr::Mac(line, key, usage, tuple) => Expr::Mac(
            *line,
            name_copy(key),
            use_copy(alloc, usage)?,
            tuple_copy(alloc, tuple)?,
        ),
        Expr::Kdf(line, key, context, input) => Expr::Kdf(
            *line,
            name_copy(key),
            quote_copy(context),
            boxed_copy(alloc, input)?,
        ),
        Expr::Hash(line, message) => Expr::Hash(*line, boxed_copy(alloc, message)?),
    })
}

fn pattern_copy(pattern: &Pattern) -> Pattern
    ensures { pattern_of result ≡ pattern_of pattern.now }
{
    match pattern {
        Pattern::Bind(name) => Pattern::Bind(name.copy()),
        Pattern::Named { line, name } => Pattern::Named {
            line: *line,
            name: name.copy(),
        },
        Pattern::Equal { line, to } => Pattern::Equal {
            line: *line,
            to: name_copy(to),
        },
    }
}

fn patterns_copy(alloc: Global, patterns: &[Pattern]) -> Result<Items<Pattern>, Memory>
    ensures { IfOk result (λ made. map pattern_of made ≡ map pattern_of patterns.now) }
{
    let mut made = Items::new(alloc);
    for pattern in patterns {
        made.push(pattern_copy(pattern))?;
    }
    Ok(made)
}

fn fields_copy(alloc: Global, exprs: &[Expr]) -> Result<Items<Expr>, Memory>
    ensures { IfOk result (λ made. map expr_of made ≡ map expr_of exprs.now) }
{
    Ok(Items::from_vec(exprs_copy(alloc, exprs)?))
}

/// An equal part in memory of its own. It refuses out of memory alone.
pub(crate) fn on_part_copy(alloc: Global, on: &OnPart) -> Result<OnPart, Memory>
    ensures { IfOk result (λ made. on_part_of made ≡ on_part_of on.now) }
{
    Ok(OnPart {
        line: on.line,
        state: on.state.copy(),
        pats: patterns_copy(alloc, on.pats.as_slice())?,
    })
}

/// An equal statement in memory of its own. It refuses out of memory alone.
pub(crate) fn act_copy(alloc: Global, act: &Act) -> Result<Act, Memory>
    ensures { IfOk result (λ made. act_of made ≡ act_of act.now) }
{
    Ok(match act {
        Act::New { name, usage, label } => Act::New {
            name: name.copy(),
            usage: use_copy(alloc, usage)?,
            label: label_copy(alloc, label)?,
        },
        Act::Let { name, value } => Act::Let {
            name: name.copy(),
            value: expr_copy(alloc, value)?,
        },
        Act::Event(atom) => Act::Event(atom_copy(alloc, atom)?),
        Act::Send(value) => Act::Send(expr_copy(alloc, value)?),
        Act::Store { state, fields } => Act::Store {
            state: state.copy(),
            fields: fields_copy(alloc, fields.as_slice())?,
        },
        Act::Certify { key, usage } => Act::Certify {
            key: key.copy(),
            usage: usage.copy(),
        },
        Act::Find { usage, owner, name } => Act::Find {
            usage: usage.copy(),
            owner: name_copy(owner),
            name: name.copy(),
        },
        Act::Recall { state, pats } => Act::Recall {
            state: state.copy(),
            pats: patterns_copy(alloc, pats.as_slice())?,
        },
        Act::Split { value, tag, pats } => Act::Split {
            value: value.copy(),
            tag: quote_copy(tag),
            pats: patterns_copy(alloc, pats.as_slice())?,
        },
        Act::Opened {
            value,
            key,
            usage,
            tag,
            pats,
            ad,
        } => Act::Opened {
            value: value.copy(),
            key: key.copy(),
            usage: use_copy(alloc, usage)?,
            tag: quote_copy(tag),
            pats: patterns_copy(alloc, pats.as_slice())?,
            ad: expr_copy(alloc, ad)?,
        },
        Act::Popened {
            value,
            key,
            usage,
            tag,
            pats,
        } => Act::Popened {
            value: value.copy(),
            key: key.copy(),
            usage: use_copy(alloc, usage)?,
            tag: quote_copy(tag),
            pats: patterns_copy(alloc, pats.as_slice())?,
        },
        Act::Verify {
            value,
            key,
            usage,
            tag,
            pats,
        } => Act::Verify {
            value: value.copy(),
            key: key.copy(),
            usage: use_copy(alloc, usage)?,
            tag: quote_copy(tag),
            pats: patterns_copy(alloc, pats.as_slice())?,
        },
        Act::Check {
            value,
            key,
            usage,
            tag,
            args,
        } => Act::Check {
            value: value.copy(),
            key: key.copy(),
            usage: use_copy(alloc, usage)?,
            tag: quote_copy(tag),
            args: names_copy(alloc, args.as_slice())?,
        },
        Act::Same(left, right) => Act::Same(name_copy(left), name_copy(right)),
    })
}
