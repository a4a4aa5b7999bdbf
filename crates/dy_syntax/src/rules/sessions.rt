//! w11: two steps of one round that name the same session.

ghost use Rattle.std.specs.Prelude.{◌≡◌, ◌++◌, map, IfOk, OnOk};
ghost use Rattle.std.specs.Option.{option_map};
ghost use Rattle.std.specs.List.{flat_map, list_any};
ghost use Rattle.dy_syntax.specs.Meaning.{id_of, recipe_of, action_of, step_of};
ghost use Rattle.dy_syntax.specs.MirrorMeaning.{least_of, sessions_of};
ghost use Rattle.dy_syntax.specs.MirrorFaults.{note_lines};
ghost use Rattle.dy_syntax.specs.Rules.Doubles.{same_word};
ghost use Rattle.dy_syntax.specs.Rules.Plans as rule;

use crate::least::Least;
use crate::names::Id;
use crate::plans::{Action, Step};
use crate::recipes::RecipeText;
use crate::rules::doubles::note_same_name;
use sqlite_items::Items;
use std::alloc::{AllocError, Global};

/// The sessions that a step names, by `on` and by `field`.
#[derive(Drop)]
pub(crate) struct Sessions {
    on: Option<Id>,
    fields: Items<Id>,
}

#[cycle(push_fields)]
fn push_all_fields(ids: &mut Items<Id>, recipes: &Vec<RecipeText>) -> Result<(), AllocError>
    ensures { OnOk result (map id_of ids.new ≡ map id_of ids.old ++ flat_map rule.fields_in
        (map recipe_of recipes.now.items)) }
{
    for recipe in recipes {
        push_fields(ids, recipe)?;
    }
    Ok(())
}

/// Puts the steps at the end whose sessions the recipe names by `field`.
#[cycle(push_fields)]
#[tactic(auto, using(crate::proofs::Rows::fields_in_row_listed))]
fn push_fields(ids: &mut Items<Id>, recipe: &RecipeText) -> Result<(), AllocError>
    ensures { OnOk result (map id_of ids.new ≡ map id_of ids.old ++ rule.fields_in (recipe_of recipe.now)) }
{
    match recipe {
        RecipeText::Lit(_)
        | RecipeText::Name(_, _)
        | RecipeText::Msg(_)
        | RecipeText::Cert(_)
        | RecipeText::Nonce(_, _) => Ok(()),
        RecipeText::Tuple(_, args) => push_all_fields(ids, args),
        RecipeText::Field {
            line: _,
            step,
            version: _,
            number: _,
        } => ids.push(step.copy()),
        RecipeText::Pk(_, part)
        | RecipeText::Vk(_, part)
        | RecipeText::Hash(_, part)
        | RecipeText::Fst(_, part)
        | RecipeText::Snd(_, part)
        | RecipeText::Ad(_, part)
        | RecipeText::Body(_, part) => push_fields(ids, part),
        RecipeText::Pair(_, first, second)
        | RecipeText::Penc(_, first, second)
        | RecipeText::Sign(_, first, second)
        | RecipeText::Mac(_, first, second)
        | RecipeText::Pdec(_, first, second)
        | RecipeText::Adec(_, first, second)
        | RecipeText::Kdf(_, first, _, second) => {
            push_fields(ids, first)?;
            push_fields(ids, second)
        }
        RecipeText::Aead(_, key, message, ad) => {
            push_fields(ids, key)?;
            push_fields(ids, message)?;
            push_fields(ids, ad)
        }
    }
}

/// The step that an action names by `on`.
fn on_of(action: &Action) -> Option<Id>
    ensures { option_map id_of result ≡ rule.action_on (action_of action.now) }
{
    match action {
        Action::Start {
            principal: _,
            handler: _,
            args: _,
            on: Some(on),
            msg: _,
        } => Some(on.step.copy()),
        _ => None,
    }
}

fn action_sessions(alloc: Global, action: &Action) -> Result<Sessions, AllocError>
    ensures { IfOk result (λ s. sessions_of s ≡ rule.sessions_of (action_of action.now)) }
{
    let mut fields = Items::new(alloc);
    if let Action::Inject(recipe) = action {
        push_fields(&mut fields, recipe)?;
    }
    Ok(Sessions {
        on: on_of(action),
        fields,
    })
}

/// The sessions that the steps name, one after another.
fn all_sessions(alloc: Global, steps: &[Step]) -> Result<Items<Sessions>, AllocError>
    ensures { IfOk result (λ all. map sessions_of all ≡ map (λ s. rule.sessions_of s.action) (map step_of steps.now)) }
{
    let mut all = Items::new(alloc);
    for step in steps {
        all.push(action_sessions(alloc, &step.action)?)?;
    }
    Ok(all)
}

fn is_among(id: &Id, ids: &[Id]) -> bool
    ensures { result ≡ list_any (same_word (id_of id.now)) (map id_of ids.now) }
{
    for other in ids {
        if id.word.same(&other.word) {
            return true;
        }
    }
    false
}

/// The later step names by `field` the session that the earlier one names by `on`.
fn note_later_fields(on: &Option<Id>, fields: &[Id], least: &mut Least)
    ensures { least_of least.new ≡ note_lines 11 (rule.lines_of_later_field (option_map id_of on.now)
        (map id_of fields.now)) (least_of least.old) }
{
    if let Some(on) = on {
        note_same_name(11, on, fields, least);
    }
}

/// The session is one of those that the step names.
fn names_session(sessions: &Sessions, id: &Id) -> bool
    ensures { result ≡ rule.names_session (sessions_of sessions.now) (id_of id.now) }
{
    let is_on = match &sessions.on {
        Some(on) => id.word.same(&on.word),
        None => false,
    };
    is_on || is_among(id, sessions.fields.as_slice())
}

/// The later step names by `on` a session that the earlier one names.
fn note_later_on(earlier: &Sessions, on: &Option<Id>, least: &mut Least)
    ensures { least_of least.new ≡ note_lines 11 (rule.lines_of_later_on (sessions_of earlier.now)
        (option_map id_of on.now)) (least_of least.old) }
{
    if let Some(on) = on {
        least.note_if(names_session(earlier, on), 11, on.line);
    }
}

#[tactic(auto, using(crate::proofs::Noted::note_lines_append))]
fn note_clash(earlier: &Sessions, later: &Sessions, least: &mut Least)
    ensures { least_of least.new ≡ note_lines 11 (rule.lines_of_clash (sessions_of earlier.now)
        (sessions_of later.now)) (least_of least.old) }
{
    note_later_fields(&earlier.on, later.fields.as_slice(), least);
    note_later_on(earlier, &later.on, least);
}

#[tactic(auto, using(crate::proofs::Noted::note_lines_append))]
fn note_clashes(earlier: &Sessions, later: &[Sessions], least: &mut Least)
    ensures { least_of least.new ≡ note_lines 11 (flat_map (rule.lines_of_clash (sessions_of earlier.now))
        (map sessions_of later.now)) (least_of least.old) }
{
    for other in later {
        note_clash(earlier, other, least);
    }
}

fn note_all_clashes(all: &[Sessions], least: &mut Least)
    ensures { least_of least.new ≡ note_lines 11 (rule.lines_of_same_session (map sessions_of all.now))
        (least_of least.old) }
{
    for i in 0..all.len() {
        let (_, later) = all.split_at(i + 1);
        note_clashes(&all[i], later, least);
    }
}

/// Two steps of one round name the same session.
pub(crate) fn note_same_session(
    alloc: Global,
    steps: &[Step],
    least: &mut Least,
) -> Result<(), AllocError>
    ensures { OnOk result (least_of least.new ≡ note_lines 11
        (rule.lines_of_same_session (map (λ s. rule.sessions_of s.action) (map step_of steps.now)))
        (least_of least.old)) }
{
    let all = all_sessions(alloc, steps)?;
    note_all_clashes(all.as_slice(), least);
    Ok(())
}
