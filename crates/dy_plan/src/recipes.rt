ghost use Rattle.std.specs.Prelude.{◌≡◌, length, map, Some, None, IfOk, IsErrOf};
ghost use Rattle.dy_syntax.specs.Meaning.{recipe_of};
ghost use Rattle.dy_syntax.specs.Recipes.{row_of};
ghost use Rattle.dy_recipe.specs.Meaning.{move_of, recipe_of as moves_in};
ghost use Rattle.dy_recipe.specs.Moves as m;
ghost use Rattle.dy_plan.specs.Recipes as recipes;
ghost use Rattle.dy_plan.specs.MirrorNames.{trace_in, plan_in};
ghost use Rattle.dy_plan.specs.MirrorRecipes.{paired};

use crate::dealing::as_number;
use crate::names::Names;
use dy_recipe::{Move, Recipe};
use dy_syntax::{Quote, RecipeText};
use sqlite_items::Items;
use std::alloc::AllocError;

/// Why a recipe has no moves.
#[derive(Debug, Drop)]
pub(crate) enum Refusal {
    /// A step that it names has not the entry that is asked of it.
    Unresolved,
    Memory,
}

impl From<AllocError> for Refusal {
    ghost use Rattle.std.specs.Prelude.{◌≡◌};
    ghost use Rattle.dy_plan.specs.declared.recipes.Refusal.TheVariants.{Memory};

    ghost from_gives = { λ _ refusal. refusal ≡ Memory };

    fn from(_: AllocError) -> Refusal {
        Refusal::Memory
    }
}

/// Adds a move, and answers its number.
fn push(moves: &mut Items<Move>, step: Move) -> Result<u32, Refusal>
    ensures added { IfOk result (λ number.
        map move_of moves.new ≡ recipes.with_move (map move_of moves.old) (move_of step)) }
    ensures number { IfOk result (λ number. number ≡ length (map move_of moves.new)) }
    ensures memory { IsErrOf result Refusal.Unresolved → ⊥ }
{
    moves.push(step)?;
    last_of(moves)
}

/// The number of the last move.
fn last_of(moves: &Items<Move>) -> Result<u32, Refusal>
    ensures number { IfOk result (λ number. number ≡ length (map move_of moves.now)) }
    ensures memory { IsErrOf result Refusal.Unresolved → ⊥ }
{
    match as_number(moves.len()) {
        Ok(number) => Ok(number),
        Err(_) => Err(Refusal::Memory),
    }
}

/// Pairs a value, which a last move gives, with those of these numbers, nested to the right. It adds all moves but the
/// last one, and answers that.
fn pair_up(mut lefts: Items<u32>, mut step: Move, moves: &mut Items<Move>) -> Result<Move, Refusal>
    ensures added { IfOk result (λ last. paired lefts (recipes.with_move (map move_of moves.old) (move_of step))
        ≡ recipes.with_move (map move_of moves.new) (move_of last)) }
    ensures memory { IsErrOf result Refusal.Unresolved → ⊥ }
{
    while let Some(left) = lefts.pop() {
        step = Move::Pair(left, push(moves, step)?);
    }
    Ok(step)
}

/// The index that is found, or `Unresolved`.
pub(crate) fn found(index: Option<u32>) -> Result<u32, Refusal>
    ensures found { IfOk result (λ at. index ≡ Some at) }
    ensures lacking { IsErrOf result Refusal.Unresolved → index ≡ None }
{
    match index {
        Some(index) => Ok(index),
        None => Err(Refusal::Unresolved),
    }
}

impl Names<'_> {
    /// Adds the moves of a recipe, and answers the number of the last one, which has its value.
    #[cycle(recipe)]
    fn add(&self, recipe: &RecipeText, moves: &mut Items<Move>) -> Result<u32, Refusal>
        ensures added { IfOk result (λ number.
            recipes.add_recipe (plan_in self.now) (trace_in self.now) (recipe_of recipe.now) (map move_of moves.old)
            ≡ Some (map move_of moves.new)) }
        ensures number { IfOk result (λ number. number ≡ length (map move_of moves.new)) }
        ensures lacking { IsErrOf result Refusal.Unresolved →
            recipes.add_recipe (plan_in self.now) (trace_in self.now) (recipe_of recipe.now) (map move_of moves.old)
            ≡ None }
    {
        let step = self.last_move(recipe, moves)?;
        push(moves, step)
    }

    /// Adds the moves of a recipe but the last one, and answers that one.
    #[cycle(recipe)]
    fn last_move(&self, recipe: &RecipeText, moves: &mut Items<Move>) -> Result<Move, Refusal>
        ensures added { IfOk result (λ step.
            recipes.add_recipe (plan_in self.now) (trace_in self.now) (recipe_of recipe.now) (map move_of moves.old)
            ≡ Some (recipes.with_move (map move_of moves.new) (move_of step))) }
        ensures lacking { IsErrOf result Refusal.Unresolved →
            recipes.add_recipe (plan_in self.now) (trace_in self.now) (recipe_of recipe.now) (map move_of moves.old)
            ≡ None }
    {
        match recipe {
            RecipeText::Lit(quote) => Ok(Move::Lit(quote.text.copy())),
            RecipeText::Name(_, principal) => Ok(Move::Name(principal.word.copy())),
            RecipeText::Msg(message) => Ok(Move::Message(found(self.message_named(message))?)),
            RecipeText::Cert(cert) => Ok(Move::Cert(found(self.cert_named(cert))?)),
            RecipeText::Nonce(_, step) => Ok(Move::Forge(found(self.nonce_named(step))?)),
            RecipeText::Field {
                step,
                version,
                number,
                ..
            } => Ok(Move::State(found(self.state_named(step, *version))?, *number)),
            RecipeText::Tuple(tag, args) => self.tuple_move(tag, args.as_slice(), moves),
            RecipeText::Pair(_, a, b) => Ok(Move::Pair(self.add(a, moves)?, self.add(b, moves)?)),
            RecipeText::Pk(_, key) => Ok(Move::Pk(self.add(key, moves)?)),
            RecipeText::Vk(_, key) => Ok(Move::Vk(self.add(key, moves)?)),
            RecipeText::Penc(_, a, b) => Ok(Move::Penc(self.add(a, moves)?, self.add(b, moves)?)),
            RecipeText::Aead(_, key, message, ad) => Ok(Move::Aead(
                self.add(key, moves)?,
                self.add(message, moves)?,
                self.add(ad, moves)?,
            )),
            RecipeText::Sign(_, a, b) => Ok(Move::Sign(self.add(a, moves)?, self.add(b, moves)?)),
            RecipeText::Mac(_, a, b) => Ok(Move::Mac(self.add(a, moves)?, self.add(b, moves)?)),
            RecipeText::Kdf(_, a, context, b) => Ok(Move::Kdf(
                self.add(a, moves)?,
                context.text.copy(),
                self.add(b, moves)?,
            )),
            RecipeText::Hash(_, message) => Ok(Move::Hash(self.add(message, moves)?)),
            RecipeText::Fst(_, value) => Ok(Move::Fst(self.add(value, moves)?)),
            RecipeText::Snd(_, value) => Ok(Move::Snd(self.add(value, moves)?)),
            RecipeText::Pdec(_, a, b) => Ok(Move::Pdec(self.add(a, moves)?, self.add(b, moves)?)),
            RecipeText::Adec(_, a, b) => Ok(Move::Adec(self.add(a, moves)?, self.add(b, moves)?)),
            RecipeText::Ad(_, value) => Ok(Move::Ad(self.add(value, moves)?)),
            RecipeText::Body(_, value) => Ok(Move::Body(self.add(value, moves)?)),
        }
    }

    /// Adds the moves of a tuple but the last one, and answers that: pairs of its tag and its fields, nested to the
    /// right.
    #[cycle(recipe)]
    fn tuple_move(
        &self,
        tag: &Quote,
        args: &[RecipeText],
        moves: &mut Items<Move>,
    ) -> Result<Move, Refusal>
        ensures added { IfOk result (λ step.
            recipes.add_pairs (plan_in self.now) (trace_in self.now) (row_of (map recipe_of args.now))
            (recipes.with_move (map move_of moves.old) (m.Lit tag.now.text))
            ≡ Some (recipes.with_move (map move_of moves.new) (move_of step))) }
        ensures lacking { IsErrOf result Refusal.Unresolved →
            recipes.add_pairs (plan_in self.now) (trace_in self.now) (row_of (map recipe_of args.now))
            (recipes.with_move (map move_of moves.old) (m.Lit tag.now.text)) ≡ None }
    {
        let mut lefts = Items::new(self.alloc);
        let mut step = Move::Lit(tag.text.copy());
        for arg in args {
            lefts.push(push(moves, step)?)?;
            step = self.last_move(arg, moves)?;
        }
        pair_up(lefts, step, moves)
    }

    /// The moves of a recipe.
    pub(crate) fn moves_of(&self, recipe: &RecipeText) -> Result<Recipe, Refusal>
        ensures moves { IfOk result (λ made.
            recipes.moves_of (plan_in self.now) (trace_in self.now) (recipe_of recipe.now) ≡ Some (moves_in made)) }
        ensures lacking { IsErrOf result Refusal.Unresolved →
            recipes.moves_of (plan_in self.now) (trace_in self.now) (recipe_of recipe.now) ≡ None }
    {
        let mut moves = Items::new(self.alloc);
        self.add(recipe, &mut moves)?;
        Ok(Recipe { moves })
    }
}
