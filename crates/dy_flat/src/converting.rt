ghost use Rattle.std.specs.Prelude.{◌≡◌, ◌∷◌, ◌++◌, IfOk, length, reverse};
ghost use Rattle.dy_term.specs.Meaning as terms;
ghost use Rattle.dy_flat.specs.NodeMeaning.{node_of};
ghost use Rattle.dy_flat.specs.Runs.{run_of};
ghost use Rattle.dy_flat.specs.Views.{tree_of};

use crate::flat_terms::FlatTerm;
use crate::lent_nodes::LentNode;
use crate::parts::{Parts, take_apart};
use crate::places::as_number;
use crate::runs::Run;
use crate::views::View;
use dy_term::{Memory, Term};
use std::alloc::Global;

/// Adds the nodes of a term, the last one first. Calls itself as deep as the term is.
#[cycle(flatten)]
fn push_tree(run: &mut Run, term: &Term) -> Result<(), Memory>
    ensures { IfOk result (λ _. run.new ≡ run.old ++ reverse (run_of (terms.tree_of term.now))) }
{
    match term {
        Term::Lit(text) => run.push(LentNode::Lit(text)),
        Term::Name(name) => run.push(LentNode::Name(name)),
        Term::Nonce(index) => run.push(LentNode::Nonce(*index)),
        Term::Pair(first, second) => {
            let before = push_two(run, first, second)?;
            run.push(LentNode::Pair(before))
        }
        Term::Pk(key) => push_one(run, key, LentNode::Pk),
        Term::Vk(key) => push_one(run, key, LentNode::Vk),
        Term::Penc(to, message) => {
            let before = push_two(run, to, message)?;
            run.push(LentNode::Penc(before))
        }
        Term::Aead(key, message, associated) => {
            push_tree(run, associated)?;
            let end = run.len();
            push_tree(run, message)?;
            push_tree(run, key)?;
            let before = as_number(run.len() - end)?;
            run.push(LentNode::Aead(before))
        }
        Term::Sign(key, message) => {
            let before = push_two(run, key, message)?;
            run.push(LentNode::Sign(before))
        }
        Term::Mac(key, message) => {
            let before = push_two(run, key, message)?;
            run.push(LentNode::Mac(before))
        }
        Term::Kdf(key, context, input) => {
            push_tree(run, input)?;
            push_tree(run, key)?;
            run.push(LentNode::Kdf(context))
        }
        Term::Hash(message) => push_one(run, message, LentNode::Hash),
    }
}

/// Adds the nodes of a part and then a node.
#[cycle(flatten)]
fn push_one(run: &mut Run, part: &Term, node: LentNode) -> Result<(), Memory>
    ensures { IfOk result (λ _. run.new ≡ run.old ++ reverse (node_of node.entry ∷ run_of (terms.tree_of part.now))) }
{
    push_tree(run, part)?;
    run.push(node)
}

/// Adds the nodes of two parts, the last one first, and answers how many the first part has.
#[cycle(flatten)]
fn push_two(run: &mut Run, first: &Term, second: &Term) -> Result<u32, Memory>
    ensures nodes { IfOk result (λ _.
        run.new ≡ run.old ++ reverse (run_of (terms.tree_of first.now) ++ run_of (terms.tree_of second.now))) }
    ensures before { IfOk result (λ before. before ≡ length (run_of (terms.tree_of first.now))) }
{
    push_tree(run, second)?;
    let end = run.len();
    push_tree(run, first)?;
    as_number(run.len() - end)
}

/// The flat form of a term. The one refusal is out of memory. It goes down the term by calls as deep as the
/// term is, at most two for each level.
pub fn from_tree(alloc: Global, term: &Term) -> Result<FlatTerm, Memory>
    ensures { IfOk result (λ made. made ≡ terms.tree_of term.now) }
{
    let mut run = Run::new(alloc);
    push_tree(&mut run, term)?;
    run.reverse();
    Ok(FlatTerm::of_run(run))
}

fn in_box(alloc: Global, term: Term) -> Result<Box<Term>, Memory>
    ensures { IfOk result (λ made. made.value ≡ term) }
{
    Ok(Box::new(alloc, term)?)
}

/// The tree of a term. The one refusal is out of memory. It calls itself once for each level of the term.
pub fn to_tree(alloc: Global, view: View) -> Result<Term, Memory>
    ensures { IfOk result (λ made. terms.tree_of made ≡ tree_of view.entry) }
{
    match take_apart(view) {
        Parts::Lit(text) => Ok(Term::Lit(text.copy())),
        Parts::Name(name) => Ok(Term::Name(name.copy())),
        Parts::Nonce(index) => Ok(Term::Nonce(index)),
        Parts::Pair(first, second) => {
            let first = in_box(alloc, to_tree(alloc, first)?)?;
            let second = in_box(alloc, to_tree(alloc, second)?)?;
            Ok(Term::Pair(first, second))
        }
        Parts::Pk(key) => Ok(Term::Pk(in_box(alloc, to_tree(alloc, key)?)?)),
        Parts::Vk(key) => Ok(Term::Vk(in_box(alloc, to_tree(alloc, key)?)?)),
        Parts::Penc(to, message) => {
            let to = in_box(alloc, to_tree(alloc, to)?)?;
            let message = in_box(alloc, to_tree(alloc, message)?)?;
            Ok(Term::Penc(to, message))
        }
        Parts::Aead(key, message, associated) => {
            let key = in_box(alloc, to_tree(alloc, key)?)?;
            let message = in_box(alloc, to_tree(alloc, message)?)?;
            let associated = in_box(alloc, to_tree(alloc, associated)?)?;
            Ok(Term::Aead(key, message, associated))
        }
        Parts::Sign(key, message) => {
            let key = in_box(alloc, to_tree(alloc, key)?)?;
            let message = in_box(alloc, to_tree(alloc, message)?)?;
            Ok(Term::Sign(key, message))
        }
        Parts::Mac(key, message) => {
            let key = in_box(alloc, to_tree(alloc, key)?)?;
            let message = in_box(alloc, to_tree(alloc, message)?)?;
            Ok(Term::Mac(key, message))
        }
        Parts::Kdf(key, context, input) => {
            let key = in_box(alloc, to_tree(alloc, key)?)?;
            let input = in_box(alloc, to_tree(alloc, input)?)?;
            Ok(Term::Kdf(key, context.copy(), input))
        }
        Parts::Hash(message) => Ok(Term::Hash(in_box(alloc, to_tree(alloc, message)?)?)),
    }
}
