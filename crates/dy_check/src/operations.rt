ghost use Rattle.std.specs.Prelude.{◌≡◌, [], ◌∷◌, ◌++◌, map, IfOk, OnOk};
ghost use Rattle.std.specs.List.{flat_map};
ghost use Rattle.dy_syntax.specs.Expressions.{list_of};
ghost use Rattle.dy_syntax.specs.Meaning.{id_of, nm_of, kind_of, quote_of, use_of, expr_of, args_of, act_of};
ghost use Rattle.dy_syntax.specs.Names.{Named};
ghost use Rattle.dy_typing.specs.Demands as typing;
ghost use Rattle.dy_check.specs.OperationsMeaning.{operation_of};

use dy_syntax::{Act, Expr, Id, KindText, Nm, Tuple, UseText};
use dy_term::{Memory, Text};
use sqlite_items::Items;
use std::alloc::Global;

/// A tuple that is sealed under a key.
#[derive(Clone, Copy)]
pub(crate) struct Seal<'x> {
    pub(crate) kind: KindText,
    pub(crate) key: &'x Nm,
    pub(crate) usage: &'x UseText,
    pub(crate) tag: &'x Text,
    pub(crate) fields: &'x [Expr],
}

/// An operation under a key: a tuple is sealed, or a value is opened or verified.
#[derive(Clone, Copy)]
pub(crate) enum Operation<'x> {
    Seals(Seal<'x>),
    Opens {
        kind: KindText,
        key: &'x Id,
        usage: &'x UseText,
    },
}

/// Adds the operation that seals this tuple. It refuses out of memory alone.
fn push_seal<'x>(
    operations: &mut Items<Operation<'x>>,
    kind: KindText,
    key: &'x Nm,
    usage: &'x UseText,
    tuple: &'x Tuple,
) -> Result<(), Memory>
    ensures { OnOk result (map operation_of operations.new ≡ map operation_of operations.old ++
        typing.Seals (kind_of kind) (nm_of key.now) (use_of usage.now) (quote_of tuple.now.tag).text
        (list_of (args_of tuple.now)) ∷ []) }
{
    operations.push(Operation::Seals(Seal {
        kind,
        key,
        usage,
        tag: &tuple.tag.text,
        fields: tuple.args.as_slice(),
    }))?;
    Ok(())
}

/// Adds the operation that opens or verifies a value. It refuses out of memory alone.
fn push_open<'x>(
    operations: &mut Items<Operation<'x>>,
    kind: KindText,
    key: &'x Id,
    usage: &'x UseText,
) -> Result<(), Memory>
    ensures { OnOk result (map operation_of operations.new ≡ map operation_of operations.old ++
        typing.Opens (kind_of kind) (Named (id_of key.now)) (use_of usage.now) ∷ []) }
{
    operations.push(Operation::Opens { kind, key, usage })?;
    Ok(())
}

/// Adds the operations of a tuple's fields. It refuses out of memory alone.
#[cycle(push_expr)]
fn push_tuple<'x>(operations: &mut Items<Operation<'x>>, tuple: &'x Tuple) -> Result<(), Memory>
    ensures { OnOk result (map operation_of operations.new ≡
        map operation_of operations.old ++ typing.operations_of_exprs (args_of tuple.now)) }
{
    for arg in &tuple.args {
        push_expr(operations, arg)?;
    }
    Ok(())
}

/// Adds the operations of an expression, the outer one first. It refuses out of memory alone.
#[cycle(push_expr)]
fn push_expr<'x>(operations: &mut Items<Operation<'x>>, expr: &'x Expr) -> Result<(), Memory>
    ensures { OnOk result (map operation_of operations.new ≡
        map operation_of operations.old ++ typing.operations_of_expr (expr_of expr.now)) }
{
    match expr {
        Expr::Nm(_) | Expr::Lit(_) | Expr::Pk(_, _) | Expr::Vk(_, _) => Ok(()),
        Expr::Tuple(tuple) => push_tuple(operations, tuple),
        Expr::Pair(_, first, second) => {
            push_expr(operations, first)?;
            push_expr(operations, second)
        }
        Expr::Penc(_, key, usage, tuple) => {
            push_seal(operations, KindText::Pke, key, usage, tuple)?;
            push_tuple(operations, tuple)
        }
        Expr::Aead(_, key, usage, tuple, ad) => {
            push_seal(operations, KindText::Aead, key, usage, tuple)?;
            push_tuple(operations, tuple)?;
            push_expr(operations, ad)
        }
        Expr::Sign(_, key, usage, tuple) => {
            push_seal(operations, KindText::Sig, key, usage, tuple)?;
            push_tuple(operations, tuple)
        }
        Expr::Mac(_, key, usage, tuple) => {
            push_seal(operations, KindText::Mac, key, usage, tuple)?;
            push_tuple(operations, tuple)
        }
        Expr::Kdf(_, _, _, input) => push_expr(operations, input),
        Expr::Hash(_, message) => push_expr(operations, message),
    }
}

/// Adds the operations of these expressions. It refuses out of memory alone.
fn push_exprs<'x>(operations: &mut Items<Operation<'x>>, exprs: &'x [Expr]) -> Result<(), Memory>
    ensures { OnOk result (map operation_of operations.new ≡
        map operation_of operations.old ++ flat_map typing.operations_of_expr (map expr_of exprs.now)) }
{
    for expr in exprs {
        push_expr(operations, expr)?;
    }
    Ok(())
}

/// Adds the operations of a statement. It refuses out of memory alone.
fn push_act<'x>(operations: &mut Items<Operation<'x>>, act: &'x Act) -> Result<(), Memory>
    ensures { OnOk result (map operation_of operations.new ≡
        map operation_of operations.old ++ typing.operations_of (act_of act.now)) }
{
    match act {
        Act::Let { value, .. } => push_expr(operations, value),
        Act::Send(value) => push_expr(operations, value),
        Act::Store { fields, .. } => push_exprs(operations, fields.as_slice()),
        Act::Opened { key, usage, ad, .. } => {
            push_open(operations, KindText::Aead, key, usage)?;
            push_expr(operations, ad)
        }
        Act::Popened { key, usage, .. } => push_open(operations, KindText::Pke, key, usage),
        Act::Verify { key, usage, .. } => push_open(operations, KindText::Sig, key, usage),
        Act::Check { key, usage, .. } => push_open(operations, KindText::Mac, key, usage),
        Act::New { .. }
        | Act::Event(_)
        | Act::Certify { .. }
        | Act::Find { .. }
        | Act::Recall { .. }
        | Act::Split { .. }
        | Act::Same(_, _) => Ok(()),
    }
}

/// The operations of a statement, from the left and the outer one first. It refuses out of memory
/// alone.
pub(crate) fn operations_of(alloc: Global, act: &Act) -> Result<Items<Operation<'_>>, Memory>
    ensures { IfOk result (λ operations. map operation_of operations ≡ typing.operations_of (act_of act.now)) }
{
    let mut operations = Items::new(alloc);
    push_act(&mut operations, act)?;
    Ok(operations)
}
