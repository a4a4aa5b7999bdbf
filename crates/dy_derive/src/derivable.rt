ghost use Rattle.std.specs.Prelude.{◌≡◌, ◌≤◌, ◌-◌, List, length, map, take, IfOk, IfSome};
ghost use Rattle.dy_term.specs.Terms as terms;
ghost use Rattle.dy_term.specs.Terms.{size};
ghost use Rattle.dy_term.specs.Meaning.{tree_of};
ghost use Rattle.dy_term.specs.declared.limits.TheConstants.{MAX_NODES};
ghost use Rattle.dy_entry.specs.Entries.{Entry};
ghost use Rattle.dy_recipe.specs.Meaning.{move_of, recipe_of};
ghost use Rattle.dy_recipe.specs.Trimming.{KeepsValue, EachIsNeeded};
ghost use Rattle.dy_derive.specs.Facts.{Fact};
ghost use Rattle.dy_derive.specs.Nodes.{IsTermAt};
ghost use Rattle.dy_derive.specs.Derivable.{DecidesDerivable};
ghost use Rattle.dy_derive.specs.MirrorKnowledge.{IsDeduced, Stands};

use crate::deductions::Deductions;
use crate::knowledge::Knowledge;
use crate::nodes::Node;
use dy_recipe::{Move, Recipe, trim};
use dy_term::{Memory, Term};
use sqlite_items::Items;
use std::alloc::Global;

/// A recipe of the moves up to this number, without those that are not needed.
fn recipe_up_to(alloc: Global, moves: Vec<Move>, number: u32) -> Result<Recipe, Memory>
    ensures value { IfOk result (λ recipe. KeepsValue (take number (map move_of moves.items)) (recipe_of recipe)) }
    ensures needed { IfOk result (λ recipe. EachIsNeeded (recipe_of recipe)) }
{
    let mut moves = moves;
    moves.truncate(number as usize);
    let whole = Recipe {
        moves: Items::from_vec(moves),
    };
    trim(alloc, &whole)
}

impl Deductions {
    /// A recipe of the term of a fact, by the log. `None` exactly where the fact does not follow.
    fn recipe_of_fact(&self, alloc: Global, fact: u32) -> Result<Option<Recipe>, Memory>
        ensures decided { IfOk result (λ found. (T : List Entry) (facts : List Fact) (term : terms.Term) →
            IsDeduced self.now facts T → IsTermAt facts fact term → DecidesDerivable T term found) }
        ensures needed { IfOk result (λ found. IfSome found (λ recipe. EachIsNeeded (recipe_of recipe))) }
    {
        let log = self.chain.chain.log();
        let Some(place) = self.chain.chain.place(fact) else {
            return Ok(None);
        };
        let number = place.checked_add(1).ok_or(Memory)?;
        let moves = self.log_moves(alloc, &log[..number as usize])?;
        Ok(Some(recipe_up_to(alloc, moves, number)?))
    }

    /// A recipe of a term of at most 1,024 nodes. `None` exactly where it cannot be derived.
    fn recipe_of_term(&self, alloc: Global, term: &Term) -> Result<Option<Recipe>, Memory>
        requires { size (tree_of term.now) ≤ MAX_NODES }
        ensures decided { IfOk result (λ found. (T : List Entry) (facts : List Fact) →
            IsDeduced self.now facts T → DecidesDerivable T (tree_of term.now) found) }
        ensures needed { IfOk result (λ found. IfSome found (λ recipe. EachIsNeeded (recipe_of recipe))) }
    {
        let log = self.chain.chain.log();
        let mut moves = self.log_moves(alloc, log)?;
        let found = self.build(term, &mut moves)?;
        let Some(number) = found.number else {
            return Ok(None);
        };
        Ok(Some(recipe_up_to(alloc, moves, number)?))
    }
}

impl Knowledge {
    /// A recipe of a term of at most 1,024 nodes: its value over the entries is the term, and no move is there that the
    /// last does not need. `None` exactly where the attacker cannot derive the term. The one refusal is out of memory.
    pub fn derivable(&self, term: &Term) -> Result<Option<Recipe>, Memory>
        requires { size (tree_of term.now) ≤ MAX_NODES }
        ensures decided { IfOk result (λ found. (T : List Entry) →
            Stands self.now T → DecidesDerivable T (tree_of term.now) found) }
        ensures needed { IfOk result (λ found. IfSome found (λ recipe. EachIsNeeded (recipe_of recipe))) }
    {
        self.deductions.recipe_of_term(self.alloc, term)
    }

    /// The same of a nonce, by its index.
    pub fn recipe_of_nonce(&self, nonce: u32) -> Result<Option<Recipe>, Memory>
        ensures decided { IfOk result (λ found. (T : List Entry) →
            Stands self.now T → DecidesDerivable T (terms.Nonce nonce) found) }
        ensures needed { IfOk result (λ found. IfSome found (λ recipe. EachIsNeeded (recipe_of recipe))) }
    {
        match self.deductions.find(&Node::Nonce(nonce)) {
            Some(fact) => self.deductions.recipe_of_fact(self.alloc, fact),
            None => Ok(None),
        }
    }
}
