ghost use Rattle.std.specs.Prelude.{◌≡◌, List, [], map, IfOk, OnOk};
ghost use Rattle.std.specs.List.{list_any, flat_map};
ghost use Rattle.std.specs.Str.{bytes_eq};
ghost use Rattle.dy_syntax.specs.Names as names;
ghost use Rattle.dy_syntax.specs.Plans as plans;
ghost use Rattle.dy_syntax.specs.Meaning.{action_of, id_of, recipe_of, round_of, step_of};
ghost use Rattle.dy_parse.specs.Limits as limits;
ghost use Rattle.dy_parse.specs.Mirrors.Limits as mirror;
ghost use Rattle.dy_parse.specs.Mirrors.Limits.{meet_all, met_of};

use crate::limits::counts::Count;
use dy_syntax::{Action, Id, RecipeText, Round, Step};
use dy_term::Word;
use std::alloc::{AllocError, Global};

/// The different principals so far.
#[derive(Debug, Drop)]
pub(crate) struct Met {
    pub(crate) words: Vec<Word>,
    pub(crate) count: Count,
}

/// A part in which principals are named.
trait Names {
    ghost Of: { Type 0 };

    ghost of: { Self → Of };

    ghost named: { Of → List names.Id };

    fn meet(&self, met: &mut Met) -> Result<(), AllocError>
        ensures { OnOk result (met_of met.new ≡ meet_all (named (of self.now)) (met_of met.old)) };
}

/// Whether the word is one of these.
fn is_among(words: &[Word], word: &Word) -> bool
    ensures { result ≡ list_any (λ other. bytes_eq other word.now) words.now }
{
    words.iter().any(|other| other.same(word))
}

/// One more principal.
fn meet_one(id: &Id, met: &mut Met) -> Result<(), AllocError>
    ensures { OnOk result (met_of met.new ≡ mirror.meet (id_of id.now) (met_of met.old)) }
{
    if met.count.is_past() || is_among(met.words.as_slice(), &id.word) {
        return Ok(());
    }
    met.words.push(id.word.copy())?;
    met.count = met.count.with(id.line);
    Ok(())
}

/// Those that each of these names.
fn meet_each<T: Names>(parts: &[T], met: &mut Met) -> Result<(), AllocError>
    ensures { OnOk result (met_of met.new ≡ meet_all (flat_map T.named (map T.of parts.now)) (met_of met.old)) }
{
    for part in parts {
        part.meet(met)?;
    }
    Ok(())
}

/// The principals of a list.
fn meet_ids(ids: &[Id], met: &mut Met) -> Result<(), AllocError>
    ensures { OnOk result (met_of met.new ≡ meet_all (map id_of ids.now) (met_of met.old)) }
{
    for id in ids {
        meet_one(id, met)?;
    }
    Ok(())
}

/// The principals that a recipe names.
#[cycle(recipe_names)]
#[tactic(auto, using(crate::proofs::LimitLaws::Folds::meet_all_append, crate::proofs::LimitLaws::Rows::named_in_listed))]
fn meet_recipe(recipe: &RecipeText, met: &mut Met) -> Result<(), AllocError>
    ensures { OnOk result (met_of met.new ≡ meet_all (limits.named_in (recipe_of recipe.now)) (met_of met.old)) }
{
    match recipe {
        RecipeText::Name(_, principal) => meet_one(principal, met),
        RecipeText::Lit(_)
        | RecipeText::Msg(_)
        | RecipeText::Cert(_)
        | RecipeText::Nonce(_, _)
        | RecipeText::Field { .. } => Ok(()),
        RecipeText::Tuple(_, args) => meet_recipes(args, met),
        RecipeText::Pk(_, part)
        | RecipeText::Vk(_, part)
        | RecipeText::Hash(_, part)
        | RecipeText::Fst(_, part)
        | RecipeText::Snd(_, part)
        | RecipeText::Ad(_, part)
        | RecipeText::Body(_, part) => meet_recipe(part, met),
        RecipeText::Pair(_, left, right)
        | RecipeText::Penc(_, left, right)
        | RecipeText::Sign(_, left, right)
        | RecipeText::Mac(_, left, right)
        | RecipeText::Pdec(_, left, right)
        | RecipeText::Adec(_, left, right)
        | RecipeText::Kdf(_, left, _, right) => {
            meet_recipe(left, met)?;
            meet_recipe(right, met)
        }
        RecipeText::Aead(_, key, message, ad) => {
            meet_recipe(key, met)?;
            meet_recipe(message, met)?;
            meet_recipe(ad, met)
        }
    }
}

#[cycle(recipe_names)]
fn meet_recipes(recipes: &Vec<RecipeText>, met: &mut Met) -> Result<(), AllocError>
    ensures { OnOk result (met_of met.new ≡ meet_all
        (flat_map limits.named_in (map recipe_of recipes.now.items)) (met_of met.old)) }
{
    for recipe in recipes {
        meet_recipe(recipe, met)?;
    }
    Ok(())
}

/// The principals that a step names.
fn meet_action(action: &Action, met: &mut Met) -> Result<(), AllocError>
    ensures { OnOk result (met_of met.new ≡ meet_all (limits.principals_of (action_of action.now)) (met_of met.old)) }
{
    match action {
        Action::Start {
            principal,
            args,
            ..
        } => {
            meet_one(principal, met)?;
            meet_ids(args.as_slice(), met)
        }
        Action::Corrupt { principal, .. } => meet_one(principal, met),
        Action::Forge => Ok(()),
        Action::Inject(recipe) => meet_recipe(recipe, met),
    }
}

impl Names for Step {
    ghost Of = { plans.Step };

    ghost of = { step_of };

    ghost named = { λ step. limits.principals_of step.action };

    fn meet(&self, met: &mut Met) -> Result<(), AllocError> {
        meet_action(&self.action, met)
    }
}

impl Names for Round {
    ghost use Rattle.std.specs.List.{flat_map};

    ghost Of = { plans.Round };

    ghost of = { round_of };

    ghost named = { λ round. flat_map (λ step. limits.principals_of step.action) round.steps };

    fn meet(&self, met: &mut Met) -> Result<(), AllocError> {
        meet_each(self.steps.as_slice(), met)
    }
}

/// Counts the different principals of a plan.
#[tactic(auto, using(crate::proofs::LimitLaws::Folds::met_are))]
pub(crate) fn count_principals(
    alloc: Global,
    rounds: &[Round],
    room: usize,
) -> Result<Count, AllocError>
    ensures { IfOk result (λ count. count ≡ mirror.count_all
        (map (λ id. id.line) (limits.others [] (limits.principals_in (map round_of rounds.now)))) (Count.Room room)) }
{
    let mut met = Met {
        words: Vec::new(alloc),
        count: Count::Room(room),
    };
    meet_each(rounds, &mut met)?;
    Ok(met.count)
}
