//! Recipes of an attacker.
#![tactic(auto, using(crate::proofs::Writing::put_all_append))]

ghost use Rattle.std.specs.Prelude.{◌≡◌, [], ◌∷◌, codes, IfOk};
ghost use Rattle.dy_syntax.specs.Meaning.{id_of, numbered_of, recipe_of, recipes_of};
ghost use Rattle.dy_syntax.specs.declared.recipes.RecipeText.TheBlock.{hidden-the_row-RecipeText-0};
ghost use Rattle.dy_show.specs.Canonical as c;
ghost use Rattle.dy_show.specs.MirrorPages.{put_all, open_word, recipe_head};

use crate::lists::separate;
use crate::pages::Page;
use dy_syntax::{Id, Numbered, RecipeText};
use std::alloc::AllocError;

/// A word and `(`.
fn open(page: &mut Page, word: &[u8]) -> Result<(), AllocError>
    ensures { IfOk result (λ _. page.new ≡ put_all page.old (open_word word.now)) }
{
    page.word(word)?;
    page.mark(b"(")
}

/// A word and a name.
fn word_and_name(page: &mut Page, word: &[u8], name: &Id) -> Result<(), AllocError>
    ensures { IfOk result (λ _. page.new ≡ put_all page.old (c.word word.now ∷ c.name (id_of name.now) ∷ [])) }
{
    page.word(word)?;
    page.name(name)
}

/// A word, a step, and what of the step is meant.
pub(crate) fn numbered_item(page: &mut Page, word: &[u8], of: &Numbered) -> Result<(), AllocError>
    ensures { IfOk result (λ _. page.new ≡ put_all page.old (c.numbered_item word.now (numbered_of of.now))) }
{
    page.word(word)?;
    page.name(&of.step)?;
    page.mark(b".")?;
    page.number(of.number)
}

/// A field of a state that was given away.
fn state_field(page: &mut Page, step: &Id, version: u32, number: u32) -> Result<(), AllocError>
    ensures { IfOk result (λ _. page.new ≡ put_all page.old (c.word (codes "field") ∷ c.name (id_of step.now) ∷ c.dot
        ∷ c.number version ∷ c.dot ∷ c.number number ∷ [])) }
{
    page.word(b"field")?;
    page.name(step)?;
    page.mark(b".")?;
    page.number(version)?;
    page.mark(b".")?;
    page.number(number)
}

/// What of a recipe stands before its first part, or the whole where it has none.
fn begin(page: &mut Page, text: &RecipeText) -> Result<(), AllocError>
    ensures { IfOk result (λ _. page.new ≡ put_all page.old (recipe_head (recipe_of text.now))) }
{
    match text {
        RecipeText::Lit(quote) => page.text(quote),
        RecipeText::Tuple(tag, _) => {
            page.text(tag)?;
            page.mark(b"(")
        }
        RecipeText::Name(_, principal) => word_and_name(page, b"name", principal),
        RecipeText::Msg(of) => numbered_item(page, b"msg", of),
        RecipeText::Cert(of) => numbered_item(page, b"cert", of),
        RecipeText::Nonce(_, step) => word_and_name(page, b"nonce", step),
        RecipeText::Field {
            step,
            version,
            number,
            ..
        } => { state_field(page, step, *version, *number) }
        RecipeText::Pair(_, _, _) => open(page, b"pair"),
        RecipeText::Pk(_, _) => open(page, b"pk"),
        RecipeText::Vk(_, _) => open(page, b"vk"),
        RecipeText::Penc(_, _, _) => open(page, b"penc"),
        RecipeText::Aead(_, _, _, _) => open(page, b"aead"),
        RecipeText::Sign(_, _, _) => open(page, b"sign"),
        RecipeText::Mac(_, _, _) => open(page, b"mac"),
        RecipeText::Kdf(_, _, _, _) => open(page, b"kdf"),
        RecipeText::Hash(_, _) => open(page, b"hash"),
        RecipeText::Fst(_, _) => open(page, b"fst"),
        RecipeText::Snd(_, _) => open(page, b"snd"),
        RecipeText::Pdec(_, _, _) => open(page, b"pdec"),
        RecipeText::Adec(_, _, _) => open(page, b"adec"),
        RecipeText::Ad(_, _) => open(page, b"ad"),
        RecipeText::Body(_, _) => open(page, b"body"),
    }
}

/// The parts of a tuple, and `)`.
#[cycle(recipe)]
fn parts(page: &mut Page, args: &Vec<RecipeText>) -> Result<(), AllocError>
    ensures { IfOk result (λ _.
        page.new ≡ put_all page.old (c.recipes (recipes_of (hidden-the_row-RecipeText-0 args.now)))) }
{
    let mut is_first = true;
    for part in args {
        separate(page, is_first)?;
        is_first = false;
        recipe(page, part)?;
    }
    page.mark(b")")?;
    Ok(())
}

#[cycle(recipe)]
#[tactic(auto, using(crate::proofs::Writing::put_all_append), unfolding(crate::specs::Canonical::recipe))]
pub(crate) fn recipe(page: &mut Page, text: &RecipeText) -> Result<(), AllocError>
    ensures { IfOk result (λ _. page.new ≡ put_all page.old (c.recipe (recipe_of text.now))) }
{
    begin(page, text)?;
    match text {
        RecipeText::Lit(_)
        | RecipeText::Name(_, _)
        | RecipeText::Msg(_)
        | RecipeText::Cert(_)
        | RecipeText::Nonce(_, _)
        | RecipeText::Field { .. } => Ok(()),
        RecipeText::Tuple(_, args) => parts(page, args),
        RecipeText::Pk(_, part)
        | RecipeText::Vk(_, part)
        | RecipeText::Hash(_, part)
        | RecipeText::Fst(_, part)
        | RecipeText::Snd(_, part)
        | RecipeText::Ad(_, part)
        | RecipeText::Body(_, part) => {
            recipe(page, part)?;
            page.mark(b")")
        }
        RecipeText::Pair(_, first, second)
        | RecipeText::Penc(_, first, second)
        | RecipeText::Sign(_, first, second)
        | RecipeText::Mac(_, first, second)
        | RecipeText::Pdec(_, first, second)
        | RecipeText::Adec(_, first, second) => {
            recipe(page, first)?;
            page.mark(b",")?;
            recipe(page, second)?;
            page.mark(b")")
        }
        RecipeText::Aead(_, key, message, ad) => {
            recipe(page, key)?;
            page.mark(b",")?;
            recipe(page, message)?;
            page.mark(b",")?;
            recipe(page, ad)?;
            page.mark(b")")
        }
        RecipeText::Kdf(_, key, context, input) => {
            recipe(page, key)?;
            page.mark(b",")?;
            page.text(context)?;
            page.mark(b",")?;
            recipe(page, input)?;
            page.mark(b")")
        }
    }
}
