//! What declarations and handlers bind.

ghost use Rattle.std.specs.Prelude.{◌≡◌, [], ◌++◌, map, IfOk, OnOk};
ghost use Rattle.std.specs.List.{flat_map};
ghost use Rattle.dy_syntax.specs.Meaning.{id_of, field_of, param_of, pattern_of, act_of, statement_of};
ghost use Rattle.dy_syntax.specs.Scopes as scopes;

use crate::declarations::{Field, Param};
use crate::names::Id;
use crate::rules::names::is_name_type;
use crate::statements::{Act, Pattern, Statement};
use sqlite_items::Items;
use std::alloc::{AllocError, Global};

/// Puts the names at the end.
pub(crate) fn push_ids(ids: &mut Items<Id>, more: &[Id]) -> Result<(), AllocError>
    ensures { OnOk result (map id_of ids.new ≡ map id_of ids.old ++ map id_of more.now) }
{
    for id in more {
        ids.push(id.copy())?;
    }
    Ok(())
}

/// Puts the names of the fields at the end.
pub(crate) fn push_field_names(ids: &mut Items<Id>, fields: &[Field]) -> Result<(), AllocError>
    ensures { OnOk result (map id_of ids.new ≡ map id_of ids.old ++ scopes.field_names (map field_of fields.now)) }
{
    for field in fields {
        ids.push(field.name.copy())?;
    }
    Ok(())
}

/// Puts the names of the `name` fields at the end.
pub(crate) fn push_name_fields(ids: &mut Items<Id>, fields: &[Field]) -> Result<(), AllocError>
    ensures { OnOk result (map id_of ids.new ≡ map id_of ids.old ++ scopes.name_fields (map field_of fields.now)) }
{
    for field in fields {
        if is_name_type(&field.kind) {
            ids.push(field.name.copy())?;
        }
    }
    Ok(())
}

/// Puts the names of the parameters at the end.
pub(crate) fn push_param_names(ids: &mut Items<Id>, params: &[Param]) -> Result<(), AllocError>
    ensures { OnOk result (map id_of ids.new ≡ map id_of ids.old ++ scopes.param_names (map param_of params.now)) }
{
    for param in params {
        ids.push(param.name.copy())?;
    }
    Ok(())
}

/// Puts the names of the `name` parameters at the end.
pub(crate) fn push_name_params(ids: &mut Items<Id>, params: &[Param]) -> Result<(), AllocError>
    ensures { OnOk result (map id_of ids.new ≡ map id_of ids.old ++ scopes.name_params (map param_of params.now)) }
{
    for param in params {
        if param.is_name {
            ids.push(param.name.copy())?;
        }
    }
    Ok(())
}

/// Puts what the patterns bind at the end.
pub(crate) fn push_pattern_binds(ids: &mut Items<Id>, pats: &[Pattern]) -> Result<(), AllocError>
    ensures { OnOk result (map id_of ids.new ≡ map id_of ids.old ++ flat_map scopes.pattern_binds
        (map pattern_of pats.now)) }
{
    for pattern in pats {
        if let Pattern::Bind(name) | Pattern::Named { line: _, name } = pattern {
            ids.push(name.copy())?;
        }
    }
    Ok(())
}

/// Puts what the patterns bind to names at the end.
pub(crate) fn push_pattern_names(ids: &mut Items<Id>, pats: &[Pattern]) -> Result<(), AllocError>
    ensures { OnOk result (map id_of ids.new ≡ map id_of ids.old ++ flat_map scopes.pattern_names
        (map pattern_of pats.now)) }
{
    for pattern in pats {
        if let Pattern::Named { line: _, name } = pattern {
            ids.push(name.copy())?;
        }
    }
    Ok(())
}

/// The patterns of a statement.
pub(crate) fn act_pats(act: &Act) -> &[Pattern]
    ensures { map pattern_of result.now ≡ scopes.act_pats (act_of act.now) }
{
    match act {
        Act::Recall { state: _, pats } => pats.as_slice(),
        Act::Split {
            value: _,
            tag: _,
            pats,
        } => pats.as_slice(),
        Act::Opened {
            value: _,
            key: _,
            usage: _,
            tag: _,
            pats,
            ad: _,
        } => pats.as_slice(),
        Act::Popened {
            value: _,
            key: _,
            usage: _,
            tag: _,
            pats,
        } => pats.as_slice(),
        Act::Verify {
            value: _,
            key: _,
            usage: _,
            tag: _,
            pats,
        } => pats.as_slice(),
        _ => &[],
    }
}

fn push_act_variable(ids: &mut Items<Id>, act: &Act) -> Result<(), AllocError>
    ensures { OnOk result (map id_of ids.new ≡ map id_of ids.old ++ scopes.act_variable (act_of act.now)) }
{
    match act {
        Act::New {
            name,
            usage: _,
            label: _,
        } => ids.push(name.copy()),
        Act::Let { name, value: _ } => ids.push(name.copy()),
        Act::Find {
            usage: _,
            owner: _,
            name,
        } => ids.push(name.copy()),
        _ => Ok(()),
    }
}

/// Puts what a statement binds at the end.
pub(crate) fn push_act_binds(ids: &mut Items<Id>, act: &Act) -> Result<(), AllocError>
    ensures { OnOk result (map id_of ids.new ≡ map id_of ids.old ++ scopes.act_binds (act_of act.now)) }
{
    push_act_variable(ids, act)?;
    push_pattern_binds(ids, act_pats(act))
}

/// Puts what the statements bind at the end.
pub(crate) fn push_body_binds(ids: &mut Items<Id>, body: &[Statement]) -> Result<(), AllocError>
    ensures { OnOk result (map id_of ids.new ≡ map id_of ids.old ++ flat_map (λ s. scopes.act_binds s.act)
        (map statement_of body.now)) }
{
    for statement in body {
        push_act_binds(ids, &statement.act)?;
    }
    Ok(())
}

/// Puts what the statements bind to names at the end.
pub(crate) fn push_body_names(ids: &mut Items<Id>, body: &[Statement]) -> Result<(), AllocError>
    ensures { OnOk result (map id_of ids.new ≡ map id_of ids.old ++ flat_map
        (λ s. flat_map scopes.pattern_names (scopes.act_pats s.act)) (map statement_of body.now)) }
{
    for statement in body {
        push_pattern_names(ids, act_pats(&statement.act))?;
    }
    Ok(())
}

/// The names of the fields.
pub(crate) fn field_names(alloc: Global, fields: &[Field]) -> Result<Items<Id>, AllocError>
    ensures { IfOk result (λ ids. map id_of ids ≡ scopes.field_names (map field_of fields.now)) }
{
    let mut ids = Items::new(alloc);
    push_field_names(&mut ids, fields)?;
    Ok(ids)
}

/// The names of the parameters.
pub(crate) fn param_names(alloc: Global, params: &[Param]) -> Result<Items<Id>, AllocError>
    ensures { IfOk result (λ ids. map id_of ids ≡ scopes.param_names (map param_of params.now)) }
{
    let mut ids = Items::new(alloc);
    push_param_names(&mut ids, params)?;
    Ok(ids)
}
