#![tactic(auto)]

ghost use Rattle.std.specs.Prelude.{◌≡◌, ◌≤◌, ◌<◌, ◌+◌, [], ◌∷◌, map};
ghost use Rattle.std.specs.Option.{option_map};
ghost use Rattle.dy_syntax.specs.Recipes as meant;
ghost use Rattle.dy_syntax.specs.Meaning.{quote_of, recipe_of};
ghost use Rattle.dy_grammar.specs.Grammar as table;
ghost use Rattle.dy_grammar.specs.Parts.{One, Commas, MaybeListed, ARecipe};
ghost use Rattle.dy_grammar.specs.Mirrors.Machine.{at, after_first, built, by_these};
ghost use Rattle.dy_parse.specs.Mirrors.Gives.{Gives};
ghost use Rattle.dy_parse.specs.Mirrors.Lists.{with_prefix, rest_at, next_at};
ghost use Rattle.dy_parse.specs.Mirrors.Recipes.{unary_of, binary_of};
ghost use Rattle.dy_parse.specs.declared.lists.Rest.TheVariants as rests;

use crate::cursor::{Cursor, Fault, is_word, text_of};
use crate::skipping::{Due, skip_over};
use dy_grammar::TOO_DEEP;
use dy_syntax::{Numbered, Quote, RecipeText};
use dy_term::Text;
use std::alloc::Global;

/// An operation on one recipe.
#[derive(Clone, Copy)]
enum Unary {
    Pk,
    Vk,
    Hash,
    Fst,
    Snd,
    Ad,
    Body,
}

/// An operation on two recipes.
#[derive(Clone, Copy)]
enum Binary {
    Pair,
    Penc,
    Sign,
    Mac,
    Pdec,
    Adec,
}

/// A recipe too deep to be built: only its place is kept.
#[tactic(auto, using(crate::proofs::Grammars::Deep::deep_recipes))]
fn deep_recipe<'a>(alloc: Global, tokens: &Cursor<'a>) -> Result<(RecipeText, Cursor<'a>), Fault>
    ensures { Gives (λ x. (recipe_of x.0, x.1)) result (at (One (ARecipe TOO_DEEP)) tokens.now) }
{
    let Some((token, _)) = tokens.first() else {
        return Err(tokens.fault());
    };
    let rest = skip_over(alloc, Due::Recipe, tokens)?;
    let text = Text::new(b"").unwrap();
    let nothing = Quote {
        text,
        line: token.line,
    };
    Ok((RecipeText::Lit(nothing), rest))
}

/// A recipe at this level.
#[cycle(recipe)]
#[tactic(auto, using(dy_grammar::proofs::Levels::recipes_are_built))]
pub(crate) fn recipe<'a>(
    alloc: Global,
    level: u8,
    tokens: &Cursor<'a>,
) -> Result<(RecipeText, Cursor<'a>), Fault>
    requires { level ≤ TOO_DEEP }
    ensures { Gives (λ x. (recipe_of x.0, x.1)) result (at (One (ARecipe level)) tokens.now) }
{
    if level == TOO_DEEP {
        deep_recipe(alloc, tokens)
    } else {
        built_recipe(alloc, level, tokens)
    }
}

/// A recipe at a level that is built.
#[cycle(recipe)]
#[tactic(auto)]
fn built_recipe<'a>(
    alloc: Global,
    level: u8,
    tokens: &Cursor<'a>,
) -> Result<(RecipeText, Cursor<'a>), Fault>
    requires { level < TOO_DEEP }
    ensures { Gives (λ x. (recipe_of x.0, x.1)) result
        (by_these meant.RecipeText (table.recipe_rules_with (level + 1) built) tokens.now) }
{
    let Some((token, rest)) = tokens.first() else {
        return Err(tokens.fault());
    };
    let line = token.line;
    if is_word(token, b"name") {
        return principal(line, &rest);
    }
    if is_word(token, b"msg") {
        return message(line, &rest);
    }
    if is_word(token, b"cert") {
        return certificate(line, &rest);
    }
    if is_word(token, b"nonce") {
        return nonce(line, &rest);
    }
    if is_word(token, b"field") {
        return field(line, &rest);
    }
    making(alloc, level, tokens)
}

/// An operation that makes a value.
#[cycle(recipe)]
#[tactic(auto)]
fn making<'a>(
    alloc: Global,
    level: u8,
    tokens: &Cursor<'a>,
) -> Result<(RecipeText, Cursor<'a>), Fault>
    requires { level < TOO_DEEP }
    ensures { Gives (λ x. (recipe_of x.0, x.1)) result
        (by_these meant.RecipeText (table.making_rules (level + 1) built) tokens.now) }
{
    let Some((token, rest)) = tokens.first() else {
        return Err(tokens.fault());
    };
    let line = token.line;
    if is_word(token, b"pair") {
        return on_two(alloc, level, line, Binary::Pair, &rest);
    }
    if is_word(token, b"pk") {
        return on_one(alloc, level, line, Unary::Pk, &rest);
    }
    if is_word(token, b"vk") {
        return on_one(alloc, level, line, Unary::Vk, &rest);
    }
    if is_word(token, b"penc") {
        return on_two(alloc, level, line, Binary::Penc, &rest);
    }
    if is_word(token, b"aead") {
        return aead(alloc, level, line, &rest);
    }
    if is_word(token, b"sign") {
        return on_two(alloc, level, line, Binary::Sign, &rest);
    }
    if is_word(token, b"mac") {
        return on_two(alloc, level, line, Binary::Mac, &rest);
    }
    if is_word(token, b"kdf") {
        return kdf(alloc, level, line, &rest);
    }
    if is_word(token, b"hash") {
        return on_one(alloc, level, line, Unary::Hash, &rest);
    }
    taking(alloc, level, tokens)
}

/// An operation that takes a value apart, or a text or tuple.
#[cycle(recipe)]
#[tactic(auto, unfolding(dy_grammar::specs::Mirrors::Machine::token_value_if))]
fn taking<'a>(
    alloc: Global,
    level: u8,
    tokens: &Cursor<'a>,
) -> Result<(RecipeText, Cursor<'a>), Fault>
    requires { level < TOO_DEEP }
    ensures { Gives (λ x. (recipe_of x.0, x.1)) result
        (by_these meant.RecipeText (table.taking_rules (level + 1) built) tokens.now) }
{
    let Some((token, rest)) = tokens.first() else {
        return Err(tokens.fault());
    };
    let line = token.line;
    if is_word(token, b"fst") {
        return on_one(alloc, level, line, Unary::Fst, &rest);
    }
    if is_word(token, b"snd") {
        return on_one(alloc, level, line, Unary::Snd, &rest);
    }
    if is_word(token, b"pdec") {
        return on_two(alloc, level, line, Binary::Pdec, &rest);
    }
    if is_word(token, b"adec") {
        return on_two(alloc, level, line, Binary::Adec, &rest);
    }
    if is_word(token, b"ad") {
        return on_one(alloc, level, line, Unary::Ad, &rest);
    }
    if is_word(token, b"body") {
        return on_one(alloc, level, line, Unary::Body, &rest);
    }
    match text_of(token) {
        Some(quote) => text_or_tuple(alloc, level, quote, &rest),
        None => Err(tokens.fault()),
    }
}

/// A text, or a tuple where parts follow.
#[cycle(recipe)]
#[tactic(auto, using(crate::proofs::Grammars::Rows::row_of_recipes))]
fn text_or_tuple<'a>(
    alloc: Global,
    level: u8,
    quote: Quote,
    tokens: &Cursor<'a>,
) -> Result<(RecipeText, Cursor<'a>), Fault>
    requires { level < TOO_DEEP }
    ensures { Gives (λ x. (recipe_of x.0, x.1)) result
        (after_first (table.parts_rule (level + 1) built) (quote_of quote) tokens.now) }
{
    let (args, rest) = parts(alloc, level + 1, tokens)?;
    match args {
        Some(args) => Ok((RecipeText::Tuple(quote, args), rest)),
        None => Ok((RecipeText::Lit(quote), rest)),
    }
}

/// The parts of a tuple, which may be left out.
#[cycle(recipe)]
#[tactic(auto, using(dy_grammar::proofs::Stepwise::at_is_by_rules), unfolding(dy_grammar::specs::Grammar::rules, crate::specs::Mirrors::Lists::after_mark))]
fn parts<'a>(
    alloc: Global,
    level: u8,
    tokens: &Cursor<'a>,
) -> Result<(Option<Vec<RecipeText>>, Cursor<'a>), Fault>
    requires { level ≤ TOO_DEEP }
    ensures { Gives (λ x. (option_map (λ v. map recipe_of v.items) x.0, x.1)) result
        (at (MaybeListed (ARecipe level)) tokens.now) }
{
    if let Some(rest) = tokens.after(b"(") {
        let (args, rest) = recipes(alloc, level, &rest)?;
        return Ok((Some(args), rest));
    }
    Ok((None, tokens.copy()))
}

/// Recipes with commas between them, and `)`.
#[cycle(recipe)]
#[tactic(auto, using(crate::proofs::Grammars::Lists::commas_is))]
fn recipes<'a>(
    alloc: Global,
    level: u8,
    tokens: &Cursor<'a>,
) -> Result<(Vec<RecipeText>, Cursor<'a>), Fault>
    requires { level ≤ TOO_DEEP }
    ensures { Gives (λ x. (map recipe_of x.0.items, x.1)) result
        (at (Commas (ARecipe level)) tokens.now) }
{
    let mut found = Vec::new(alloc);
    if let Some(rest) = tokens.after(b")") {
        return Ok((found, rest));
    }
    let (first, rest) = recipe(alloc, level, tokens)?;
    found.push(first)?;
    more_recipes(alloc, level, found, &rest)
}

/// These recipes, and the rest of them up to `)`.
#[cycle(recipe)]
fn more_recipes<'a>(
    alloc: Global,
    level: u8,
    prefix: Vec<RecipeText>,
    tokens: &Cursor<'a>,
) -> Result<(Vec<RecipeText>, Cursor<'a>), Fault>
    requires { level ≤ TOO_DEEP }
    ensures { Gives (λ x. (map recipe_of x.0.items, x.1)) result
        (with_prefix (map recipe_of prefix.items) (rest_at rests.Parentheses (ARecipe level) tokens.now)) }
{
    let mut found = prefix;
    let mut left = tokens.copy();
    'items: loop {
        if let Some(rest) = left.after(b")") {
            return Ok((found, rest));
        }
        let (item, rest) = next_recipe(alloc, level, &left)?;
        found.push(item)?;
        left = rest;
    }
}

/// A comma, and a recipe.
#[cycle(recipe)]
fn next_recipe<'a>(
    alloc: Global,
    level: u8,
    tokens: &Cursor<'a>,
) -> Result<(RecipeText, Cursor<'a>), Fault>
    requires { level ≤ TOO_DEEP }
    ensures { Gives (λ x. (recipe_of x.0, x.1)) result
        (next_at rests.Parentheses (ARecipe level) tokens.now) }
{
    let (_, rest) = tokens.mark(b",")?;
    recipe(alloc, level, &rest)
}

/// A name, whose word `name` is read, on this line.
fn principal<'a>(line: u32, tokens: &Cursor<'a>) -> Result<(RecipeText, Cursor<'a>), Fault>
    ensures { Gives (λ x. (recipe_of x.0, x.1)) result (after_first (table.principal_rule built) line tokens.now) }
{
    let (principal, rest) = tokens.name()?;
    Ok((RecipeText::Name(line, principal), rest))
}

/// The nonce of a step, whose word `nonce` is read, on this line.
fn nonce<'a>(line: u32, tokens: &Cursor<'a>) -> Result<(RecipeText, Cursor<'a>), Fault>
    ensures { Gives (λ x. (recipe_of x.0, x.1)) result (after_first (table.nonce_rule built) line tokens.now) }
{
    let (step, rest) = tokens.name()?;
    Ok((RecipeText::Nonce(line, step), rest))
}

/// A message of a step, whose word `msg` is read, on this line.
fn message<'a>(line: u32, tokens: &Cursor<'a>) -> Result<(RecipeText, Cursor<'a>), Fault>
    ensures { Gives (λ x. (recipe_of x.0, x.1)) result (after_first (table.message_rule built) line tokens.now) }
{
    let (step, rest) = tokens.name()?;
    let (_, rest) = rest.mark(b".")?;
    let (number, rest) = rest.number()?;
    let numbered = Numbered { line, step, number };
    Ok((RecipeText::Msg(numbered), rest))
}

/// A certificate of a step, whose word `cert` is read, on this line.
fn certificate<'a>(line: u32, tokens: &Cursor<'a>) -> Result<(RecipeText, Cursor<'a>), Fault>
    ensures { Gives (λ x. (recipe_of x.0, x.1)) result (after_first (table.certificate_rule built) line tokens.now) }
{
    let (step, rest) = tokens.name()?;
    let (_, rest) = rest.mark(b".")?;
    let (number, rest) = rest.number()?;
    let numbered = Numbered { line, step, number };
    Ok((RecipeText::Cert(numbered), rest))
}

/// A field that a step stored, whose word `field` is read, on this line.
fn field<'a>(line: u32, tokens: &Cursor<'a>) -> Result<(RecipeText, Cursor<'a>), Fault>
    ensures { Gives (λ x. (recipe_of x.0, x.1)) result (after_first (table.field_rule built) line tokens.now) }
{
    let (step, rest) = tokens.name()?;
    let (_, rest) = rest.mark(b".")?;
    let (version, rest) = rest.number()?;
    let (_, rest) = rest.mark(b".")?;
    let (number, rest) = rest.number()?;
    let field = RecipeText::Field {
        line,
        step,
        version,
        number,
    };
    Ok((field, rest))
}

/// One recipe, whose operation is read, on this line.
#[cycle(recipe)]
fn on_one<'a>(
    alloc: Global,
    level: u8,
    line: u32,
    operation: Unary,
    tokens: &Cursor<'a>,
) -> Result<(RecipeText, Cursor<'a>), Fault>
    requires { level < TOO_DEEP }
    ensures { Gives (λ x. (recipe_of x.0, x.1)) result
        (after_first (table.unary (level + 1) built [] (unary_of operation)) line tokens.now) }
{
    let (_, rest) = tokens.mark(b"(")?;
    let (value, rest) = recipe(alloc, level + 1, &rest)?;
    let (_, rest) = rest.mark(b")")?;
    let value = Box::new(alloc, value)?;
    Ok((of_one(operation, line, value), rest))
}

/// Two recipes, whose operation is read, on this line.
#[cycle(recipe)]
fn on_two<'a>(
    alloc: Global,
    level: u8,
    line: u32,
    operation: Binary,
    tokens: &Cursor<'a>,
) -> Result<(RecipeText, Cursor<'a>), Fault>
    requires { level < TOO_DEEP }
    ensures { Gives (λ x. (recipe_of x.0, x.1)) result
        (after_first (table.binary (level + 1) built [] (binary_of operation)) line tokens.now) }
{
    let (_, rest) = tokens.mark(b"(")?;
    let (first, rest) = recipe(alloc, level + 1, &rest)?;
    let (_, rest) = rest.mark(b",")?;
    let (second, rest) = recipe(alloc, level + 1, &rest)?;
    let (_, rest) = rest.mark(b")")?;
    let first = Box::new(alloc, first)?;
    let second = Box::new(alloc, second)?;
    Ok((of_two(operation, line, first, second), rest))
}

/// A sealed recipe, whose word `aead` is read, on this line.
#[cycle(recipe)]
fn aead<'a>(
    alloc: Global,
    level: u8,
    line: u32,
    tokens: &Cursor<'a>,
) -> Result<(RecipeText, Cursor<'a>), Fault>
    requires { level < TOO_DEEP }
    ensures { Gives (λ x. (recipe_of x.0, x.1)) result
        (after_first (table.sealed_rule (level + 1) built) line tokens.now) }
{
    let (_, rest) = tokens.mark(b"(")?;
    let (key, rest) = recipe(alloc, level + 1, &rest)?;
    let (_, rest) = rest.mark(b",")?;
    let (message, rest) = recipe(alloc, level + 1, &rest)?;
    let (_, rest) = rest.mark(b",")?;
    let (ad, rest) = recipe(alloc, level + 1, &rest)?;
    let (_, rest) = rest.mark(b")")?;
    let key = Box::new(alloc, key)?;
    let message = Box::new(alloc, message)?;
    let ad = Box::new(alloc, ad)?;
    Ok((RecipeText::Aead(line, key, message, ad), rest))
}

/// A derived key, whose word `kdf` is read, on this line.
#[cycle(recipe)]
fn kdf<'a>(
    alloc: Global,
    level: u8,
    line: u32,
    tokens: &Cursor<'a>,
) -> Result<(RecipeText, Cursor<'a>), Fault>
    requires { level < TOO_DEEP }
    ensures { Gives (λ x. (recipe_of x.0, x.1)) result
        (after_first (table.derived_rule (level + 1) built) line tokens.now) }
{
    let (_, rest) = tokens.mark(b"(")?;
    let (key, rest) = recipe(alloc, level + 1, &rest)?;
    let (_, rest) = rest.mark(b",")?;
    let (context, rest) = rest.text()?;
    let (_, rest) = rest.mark(b",")?;
    let (input, rest) = recipe(alloc, level + 1, &rest)?;
    let (_, rest) = rest.mark(b")")?;
    let key = Box::new(alloc, key)?;
    let input = Box::new(alloc, input)?;
    Ok((RecipeText::Kdf(line, key, context, input), rest))
}

/// The operation on this recipe.
fn of_one(operation: Unary, line: u32, value: Box<RecipeText>) -> RecipeText
    ensures { recipe_of result ≡ unary_of operation line (recipe_of value.value) }
{
    match operation {
        Unary::Pk => RecipeText::Pk(line, value),
        Unary::Vk => RecipeText::Vk(line, value),
        Unary::Hash => RecipeText::Hash(line, value),
        Unary::Fst => RecipeText::Fst(line, value),
        Unary::Snd => RecipeText::Snd(line, value),
        Unary::Ad => RecipeText::Ad(line, value),
        Unary::Body => RecipeText::Body(line, value),
    }
}

/// The operation on these recipes.
fn of_two(
    operation: Binary,
    line: u32,
    first: Box<RecipeText>,
    second: Box<RecipeText>,
) -> RecipeText
    ensures { recipe_of result ≡ binary_of operation line (recipe_of first.value) (recipe_of second.value) }
{
    match operation {
        Binary::Pair => RecipeText::Pair(line, first, second),
        Binary::Penc => RecipeText::Penc(line, first, second),
        Binary::Sign => RecipeText::Sign(line, first, second),
        Binary::Mac => RecipeText::Mac(line, first, second),
        Binary::Pdec => RecipeText::Pdec(line, first, second),
        Binary::Adec => RecipeText::Adec(line, first, second),
    }
}
