ghost use Rattle.std.specs.Prelude.{◌≡◌, ◌≢◌, true, false, map};
ghost use Rattle.dy_syntax.specs.Recipes as r;
ghost use Rattle.dy_syntax.specs.Meaning.{numbered_of, recipe_of, row_of_recipes};
ghost use Rattle.dy_syntax.specs.SameFiles.{bare_numbered, bare_recipe, bare_recipes};

use crate::recipes::{Numbered, RecipeText};
use crate::sameness::Part;

impl Part for Numbered {
    ghost Plain = { r.Numbered };

    ghost plain = { numbered_of };

    ghost bare = { bare_numbered };

    fn same(&self, other: &Numbered) -> bool {
        self.step.same(&other.step) && self.number == other.number
    }
}

#[cycle(same_recipe)]
#[tactic(auto, using(crate::proofs::SameParts::differs_there, crate::proofs::SameParts::other_length))]
fn same_recipes(recipes: &Vec<RecipeText>, others: &Vec<RecipeText>) -> bool
    ensures same { result ≡ true →
        map bare_recipe (map recipe_of recipes.now.items) ≡ map bare_recipe (map recipe_of others.now.items) }
    ensures other { result ≡ false →
        map bare_recipe (map recipe_of recipes.now.items) ≢ map bare_recipe (map recipe_of others.now.items) }
{
    if recipes.len() != others.len() {
        return false;
    }
    for i in 0..recipes.len() {
        if !same_recipe(&recipes[i], &others[i]) {
            return false;
        }
    }
    true
}

/// Whether the recipes of two tuples are the same.
#[cycle(same_recipe)]
fn same_row(args: &Vec<RecipeText>, others: &Vec<RecipeText>) -> bool
    ensures same { result ≡ true → bare_recipes (row_of_recipes args.now) ≡ bare_recipes (row_of_recipes others.now) }
    ensures other { result ≡ false → bare_recipes (row_of_recipes args.now) ≢ bare_recipes (row_of_recipes others.now) }
{
    same_recipes(args, others)
}

#[cycle(same_recipe)]
pub(crate) fn same_recipe(recipe: &RecipeText, other: &RecipeText) -> bool
    ensures same { result ≡ true → bare_recipe (recipe_of recipe.now) ≡ bare_recipe (recipe_of other.now) }
    ensures other { result ≡ false → bare_recipe (recipe_of recipe.now) ≢ bare_recipe (recipe_of other.now) }
{
    match (recipe, other) {
        (RecipeText::Lit(quote), RecipeText::Lit(other)) => quote.same(other),
        (RecipeText::Tuple(tag, args), RecipeText::Tuple(other_tag, others)) => {
            tag.same(other_tag) && same_row(args, others)
        }
        (RecipeText::Name(_, name), RecipeText::Name(_, other))
        | (RecipeText::Nonce(_, name), RecipeText::Nonce(_, other)) => name.same(other),
        (RecipeText::Msg(numbered), RecipeText::Msg(other))
        | (RecipeText::Cert(numbered), RecipeText::Cert(other)) => numbered.same(other),
        (
            RecipeText::Field {
                line: _,
                step,
                version,
                number,
            },
            RecipeText::Field {
                line: _,
                step: other,
                version: other_version,
                number: other_number,
            },
        ) => step.same(other) && version == other_version && number == other_number,
        (RecipeText::Pk(_, part), RecipeText::Pk(_, other))
        | (RecipeText::Vk(_, part), RecipeText::Vk(_, other))
        | (RecipeText::Hash(_, part), RecipeText::Hash(_, other))
        | (RecipeText::Fst(_, part), RecipeText::Fst(_, other))
        | (RecipeText::Snd(_, part), RecipeText::Snd(_, other))
        | (RecipeText::Ad(_, part), RecipeText::Ad(_, other))
        | (RecipeText::Body(_, part), RecipeText::Body(_, other)) => same_recipe(part, other),
        (RecipeText::Pair(_, first, second), RecipeText::Pair(_, other_first, other_second))
        | (RecipeText::Penc(_, first, second), RecipeText::Penc(_, other_first, other_second))
        | (RecipeText::Sign(_, first, second), RecipeText::Sign(_, other_first, other_second))
        | (RecipeText::Mac(_, first, second), RecipeText::Mac(_, other_first, other_second))
        | (RecipeText::Pdec(_, first, second), RecipeText::Pdec(_, other_first, other_second))
        | (RecipeText::Adec(_, first, second), RecipeText::Adec(_, other_first, other_second)) => {
            same_recipe(first, other_first) && same_recipe(second, other_second)
        }
        (
            RecipeText::Kdf(_, key, context, input),
            RecipeText::Kdf(_, other_key, other_context, other_input),
        ) => same_recipe(key, other_key)
            && context.same(other_context)
            && same_recipe(input, other_input),
        (
            RecipeText::Aead(_, key, message, ad),
            RecipeText::Aead(_, other_key, other_message, other_ad),
        ) => same_recipe(key, other_key)
            && same_recipe(message, other_message)
            && same_recipe(ad, other_ad),
        _ => false,
    }
}
