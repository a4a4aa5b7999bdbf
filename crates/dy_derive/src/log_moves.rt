ghost use Rattle.std.specs.Prelude.{◌≡◌, [], ◌∷◌, length, map, take, List, IfOk};
ghost use Rattle.dy_recipe.specs.Meaning.{move_of};
ghost use Rattle.dy_derive.specs.Facts.{Fact};
ghost use Rattle.dy_derive.specs.Nodes.{term_in, fact_of};
ghost use Rattle.dy_derive.specs.MirrorRecipes as mirror;
ghost use Rattle.dy_derive.specs.MirrorRecipes.{number_in, premise_number, IsStepMove, AreLogMoves};

use crate::deductions::Deductions;
use crate::nodes::Node;
use crate::reasons::Reason;
use dy_chains::{Premises, Rule, Step};
use dy_recipe::Move;
use dy_term::{Memory, Text};
use std::alloc::Global;

/// What stands in the place of a corruption, which is no move.
fn no_move() -> Move
    ensures { move_of result ≡ mirror.no_move }
{
    match Text::new(b"") {
        Some(text) => Move::Lit(text),
        None => unreachable!(),
    }
}

/// The move that builds the term of a node of its parts, which have these numbers.
fn built_move(node: &Node, a: u32, b: u32, c: u32) -> Move
    ensures { (facts : List Fact) → move_of result ≡ mirror.built_move (term_in (fact_of facts node.now)) a b c }
{
    match node {
        Node::Lit(text) => Move::Lit(text.text().copy()),
        Node::Name(name) => Move::Name(name.name().copy()),
        Node::Nonce(_) => no_move(),
        Node::Pair(_, _) => Move::Pair(a, b),
        Node::Pk(_) => Move::Pk(a),
        Node::Vk(_) => Move::Vk(a),
        Node::Penc(_, _) => Move::Penc(a, b),
        Node::Aead(_, _, _) => Move::Aead(a, b, c),
        Node::Sign(_, _) => Move::Sign(a, b),
        Node::Mac(_, _) => Move::Mac(a, b),
        Node::Kdf(_, context, _) => Move::Kdf(a, context.text().copy(), b),
        Node::Hash(_) => Move::Hash(a),
        Node::Principal(_) | Node::Session(_, _) | Node::Version(_, _, _) => no_move(),
    }
}

/// The move by which the fact of a node follows for this reason, where the premises have these numbers.
fn move_for(reason: Reason, node: &Node, a: u32, b: u32, c: u32) -> Move
    ensures { (facts : List Fact) → move_of result ≡ mirror.move_for reason (fact_of facts node.now) a b c }
{
    match reason {
        Reason::Built => built_move(node, a, b, c),
        Reason::First => Move::Fst(a),
        Reason::Second => Move::Snd(a),
        Reason::Decrypted => Move::Pdec(a, b),
        Reason::Opened => Move::Adec(a, b),
        Reason::Associated => Move::Ad(a),
        Reason::Signed => Move::Body(a),
        Reason::Message(index) => Move::Message(index),
        Reason::Cert(index) => Move::Cert(index),
        Reason::Forge(index) => Move::Forge(index),
        Reason::Field(index, field) => Move::State(index, field),
        Reason::Corrupt(_) => no_move(),
    }
}

impl Deductions {
    /// The number of the move of a fact, counted from 1, or 0 where it does not follow. Moves stand in the order of the
    /// log. It refuses a number of 2^32, as out of memory.
    pub(crate) fn move_number(&self, fact: u32) -> Result<u32, Memory>
        ensures { IfOk result (λ number. number ≡ number_in self.now.chain.chain.log fact) }
    {
        match self.chain.chain.place(fact) {
            Some(place) => place.checked_add(1).ok_or(Memory),
            None => Ok(0),
        }
    }

    /// The numbers of the moves of a rule's premises, and 0 in the place of each of three that it does not have.
    fn premise_numbers(&self, rule: &Rule) -> Result<[u32; 3], Memory>
        ensures { IfOk result (λ numbers. numbers ≡ premise_number self.now.chain.chain.log rule.now 0
            ∷ premise_number self.now.chain.chain.log rule.now 1
            ∷ premise_number self.now.chain.chain.log rule.now 2 ∷ []) }
    {
        match rule.premises {
            Premises::None => Ok([0, 0, 0]),
            Premises::One(a) => Ok([self.move_number(a)?, 0, 0]),
            Premises::Two(a, b) => Ok([self.move_number(a)?, self.move_number(b)?, 0]),
            Premises::Three(a, b, c) => {
                Ok([
                    self.move_number(a)?,
                    self.move_number(b)?,
                    self.move_number(c)?,
                ])
            }
        }
    }

    /// The move of a step of the log.
    fn step_move(&self, step: &Step) -> Result<Move, Memory>
        ensures { IfOk result (λ made. IsStepMove self.now.nodes.keys self.now.chain.chain.rules
            self.now.chain.reasons.items self.now.chain.chain.log step.now (move_of made)) }
    {
        let Some(rule) = self.chain.chain.rules().get(step.rule as usize) else {
            return Ok(no_move());
        };
        let Some(reason) = self.chain.reasons.get(step.rule as usize) else {
            return Ok(no_move());
        };
        let Some(node) = self.nodes.get_index(step.fact as usize) else {
            return Ok(no_move());
        };
        let [a, b, c] = self.premise_numbers(rule)?;
        Ok(move_for(*reason, node, a, b, c))
    }

    /// The moves of the first steps of the log.
    pub(crate) fn log_moves(&self, alloc: Global, steps: &[Step]) -> Result<Vec<Move>, Memory>
        requires { take (length steps.now) self.now.chain.chain.log ≡ steps.now }
        ensures { IfOk result (λ moves. AreLogMoves self.now.nodes.keys self.now.chain.chain.rules
            self.now.chain.reasons.items self.now.chain.chain.log (length steps.now) (map move_of moves.items)) }
    {
        let mut moves = Vec::new(alloc);
        for step in steps {
            moves.push(self.step_move(step)?)?;
        }
        Ok(moves)
    }
}
