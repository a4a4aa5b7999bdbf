ghost use Rattle.std.specs.Prelude.{◌≡◌, map};
ghost use Rattle.std.specs.List.{flat_map};
ghost use Rattle.dy_syntax.specs.Meaning.{id_of, recipe_of, file_of};
ghost use Rattle.dy_syntax.specs.MirrorMeaning.{least_of, scope_of, wanted_of};
ghost use Rattle.dy_syntax.specs.MirrorFaults.{note_part, note_parts};
ghost use Rattle.dy_syntax.specs.Parts as parts;

use crate::files::File;
use crate::least::Least;
use crate::names::Id;
use crate::recipes::RecipeText;
use crate::rules::plans::{Wanted, note_step};
use crate::scopes::Scope;

/// A step that another one names, of the round of this number.
#[tactic(auto, unfolding(crate::specs::MirrorFaults::note_part))]
pub(crate) fn note_step_named(
    file: &File,
    scope: &Scope,
    round: usize,
    wanted: Wanted<'_>,
    step: &Id,
    least: &mut Least,
)
    ensures { least_of least.new ≡ note_part (file_of file.now) (scope_of scope.now)
        (parts.StepNamed round (wanted_of wanted.entry) (id_of step.now)) (least_of least.old) }
{
    let _ = scope;
    note_step(file, round, wanted, step, least);
}

#[cycle(note_recipe)]
#[tactic(auto, using(crate::proofs::Noted::note_parts_append))]
fn note_recipes(
    file: &File,
    scope: &Scope,
    round: usize,
    recipes: &Vec<RecipeText>,
    least: &mut Least,
)
    ensures { least_of least.new ≡ note_parts (file_of file.now) (scope_of scope.now)
        (flat_map (parts.parts_of_recipe round) (map recipe_of recipes.now.items)) (least_of least.old) }
{
    for recipe in recipes {
        note_recipe(file, scope, round, recipe, least);
    }
}

/// A recipe of a step of the round of this number.
#[cycle(note_recipe)]
#[tactic(auto, using(crate::proofs::Noted::note_parts_append, crate::proofs::Rows::parts_of_recipes_listed))]
pub(crate) fn note_recipe(
    file: &File,
    scope: &Scope,
    round: usize,
    recipe: &RecipeText,
    least: &mut Least,
)
    ensures { least_of least.new ≡ note_parts (file_of file.now) (scope_of scope.now)
        (parts.parts_of_recipe round (recipe_of recipe.now)) (least_of least.old) }
{
    match recipe {
        RecipeText::Lit(_) | RecipeText::Name(_, _) => {}
        RecipeText::Tuple(_, args) => note_recipes(file, scope, round, args, least),
        RecipeText::Msg(message) => note_step_named(
            file,
            scope,
            round,
            Wanted::Sending,
            &message.step,
            least,
        ),
        RecipeText::Cert(cert) => note_step_named(
            file,
            scope,
            round,
            Wanted::Starting,
            &cert.step,
            least,
        ),
        RecipeText::Nonce(_, step) => note_step_named(
            file,
            scope,
            round,
            Wanted::Forging,
            step,
            least,
        ),
        RecipeText::Field {
            line: _,
            step,
            version: _,
            number: _,
        } => note_step_named(file, scope, round, Wanted::Opening, step, least),
        RecipeText::Pk(_, part)
        | RecipeText::Vk(_, part)
        | RecipeText::Hash(_, part)
        | RecipeText::Fst(_, part)
        | RecipeText::Snd(_, part)
        | RecipeText::Ad(_, part)
        | RecipeText::Body(_, part) => note_recipe(file, scope, round, part, least),
        RecipeText::Pair(_, first, second)
        | RecipeText::Penc(_, first, second)
        | RecipeText::Sign(_, first, second)
        | RecipeText::Mac(_, first, second)
        | RecipeText::Pdec(_, first, second)
        | RecipeText::Adec(_, first, second)
        | RecipeText::Kdf(_, first, _, second) => {
            note_recipe(file, scope, round, first, least);
            note_recipe(file, scope, round, second, least);
        }
        RecipeText::Aead(_, key, message, ad) => {
            note_recipe(file, scope, round, key, least);
            note_recipe(file, scope, round, message, least);
            note_recipe(file, scope, round, ad, least);
        }
    }
}
