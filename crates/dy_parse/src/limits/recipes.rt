ghost use Rattle.std.specs.Prelude.{◌≡◌, map};
ghost use Rattle.std.specs.List.{flat_map};
ghost use Rattle.dy_syntax.specs.Recipes as recipes;
ghost use Rattle.dy_syntax.specs.Meaning.{recipe_of};
ghost use Rattle.dy_parse.specs.Limits as limits;
ghost use Rattle.dy_parse.specs.Mirrors.Limits.{first_of, note_all};

use crate::errors::LimitName;
use crate::limits::least::First;
use crate::limits::members::{Placed, note_fields};
use dy_syntax::RecipeText;

impl Placed for RecipeText {
    ghost Plain = { recipes.RecipeText };

    ghost plain = { recipe_of };

    ghost place = { limits.recipe_line };

    fn line(&self) -> u32 {
        recipe_line(self)
    }
}

/// The line of the recipe's first token.
fn recipe_line(recipe: &RecipeText) -> u32
    ensures { result ≡ limits.recipe_line (recipe_of recipe.now) }
{
    match recipe {
        RecipeText::Lit(quote) | RecipeText::Tuple(quote, _) => quote.line,
        RecipeText::Msg(numbered) | RecipeText::Cert(numbered) => numbered.line,
        RecipeText::Field { line, .. } => *line,
        RecipeText::Name(line, _) | RecipeText::Nonce(line, _) => *line,
        RecipeText::Pair(line, _, _)
        | RecipeText::Penc(line, _, _)
        | RecipeText::Sign(line, _, _)
        | RecipeText::Mac(line, _, _)
        | RecipeText::Pdec(line, _, _)
        | RecipeText::Adec(line, _, _) => *line,
        RecipeText::Aead(line, _, _, _) | RecipeText::Kdf(line, _, _, _) => *line,
        RecipeText::Pk(line, _)
        | RecipeText::Vk(line, _)
        | RecipeText::Hash(line, _)
        | RecipeText::Fst(line, _)
        | RecipeText::Snd(line, _)
        | RecipeText::Ad(line, _)
        | RecipeText::Body(line, _) => *line,
    }
}

/// A recipe, where so many may still stand inside each other.
#[cycle(recipe_limits)]
pub(crate) fn note_recipe(room: usize, recipe: &RecipeText, first: &mut First)
    ensures { first_of first.new ≡ note_all (limits.recipe_within room (recipe_of recipe.now)) (first_of first.old) }
{
    if room == 0 {
        first.note(LimitName::Nesting, recipe_line(recipe));
    } else {
        note_inside(room - 1, recipe, first);
    }
}

#[cycle(recipe_limits)]
#[tactic(auto, using(crate::proofs::LimitLaws::Folds::note_all_append, crate::proofs::LimitLaws::Rows::list_of_recipes, crate::proofs::LimitLaws::Rows::inside_recipes_listed))]
fn note_inside(room: usize, recipe: &RecipeText, first: &mut First)
    ensures { first_of first.new ≡ note_all (limits.inside_recipe room (recipe_of recipe.now)) (first_of first.old) }
{
    match recipe {
        RecipeText::Lit(_)
        | RecipeText::Name(_, _)
        | RecipeText::Msg(_)
        | RecipeText::Cert(_)
        | RecipeText::Nonce(_, _)
        | RecipeText::Field { .. } => {}
        RecipeText::Tuple(_, args) => {
            note_fields(args.as_slice(), first);
            note_row(room, args.as_slice(), first);
        }
        RecipeText::Pk(_, part)
        | RecipeText::Vk(_, part)
        | RecipeText::Hash(_, part)
        | RecipeText::Fst(_, part)
        | RecipeText::Snd(_, part)
        | RecipeText::Ad(_, part)
        | RecipeText::Body(_, part) => note_recipe(room, part, first),
        RecipeText::Pair(_, left, right)
        | RecipeText::Penc(_, left, right)
        | RecipeText::Sign(_, left, right)
        | RecipeText::Mac(_, left, right)
        | RecipeText::Pdec(_, left, right)
        | RecipeText::Adec(_, left, right)
        | RecipeText::Kdf(_, left, _, right) => {
            note_recipe(room, left, first);
            note_recipe(room, right, first);
        }
        RecipeText::Aead(_, key, message, ad) => {
            note_recipe(room, key, first);
            note_recipe(room, message, first);
            note_recipe(room, ad, first);
        }
    }
}

#[cycle(recipe_limits)]
fn note_row(room: usize, recipes: &[RecipeText], first: &mut First)
    ensures { first_of first.new ≡ note_all
        (flat_map (limits.recipe_within room) (map recipe_of recipes.now)) (first_of first.old) }
{
    for recipe in recipes {
        note_recipe(room, recipe, first);
    }
}
