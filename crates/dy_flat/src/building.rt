ghost use Rattle.std.specs.Prelude.{◌≡◌, [], ◌∷◌, ◌++◌, IfOk, length, map};
ghost use Rattle.dy_term.specs.Terms as trees;
ghost use Rattle.dy_term.specs.Tuples.{tagged_tuple};
ghost use Rattle.dy_flat.specs.Runs.{run_of, made_of};
ghost use Rattle.dy_flat.specs.NodeMeaning.{node_of};
ghost use Rattle.dy_flat.specs.Views.{tree_of};

use crate::flat_terms::FlatTerm;
use crate::lent_nodes::LentNode;
use crate::places::as_number;
use crate::runs::Run;
use crate::views::View;
use dy_term::{Memory, Text, Word};
use std::alloc::Global;

/// The number of nodes of a part.
fn count(part: View) -> Result<u32, Memory>
    ensures { IfOk result (λ count. count ≡ length (run_of (tree_of part.entry))) }
{
    as_number(part.nodes.len())
}

/// A term of a node with no part.
fn with_none(alloc: Global, node: LentNode) -> Result<FlatTerm, Memory>
    requires { run_of (made_of (node_of node) []) ≡ node_of node ∷ [] }
    ensures { IfOk result (λ made. made ≡ made_of (node_of node.entry) []) }
{
    let mut run = Run::with_room(alloc, 1)?;
    run.push(node)?;
    Ok(FlatTerm::of_run(run))
}

/// A term of a node with one part.
fn with_one(alloc: Global, node: LentNode, part: View) -> Result<FlatTerm, Memory>
    requires { run_of (made_of (node_of node) (tree_of part ∷ [])) ≡ node_of node ∷ run_of (tree_of part) }
    ensures { IfOk result (λ made. made ≡ made_of (node_of node.entry) (tree_of part.entry ∷ [])) }
{
    let mut run = Run::with_room(alloc, 1 + part.nodes.len())?;
    run.push(node)?;
    run.push_view(part)?;
    Ok(FlatTerm::of_run(run))
}

/// A term of a node with two parts.
fn with_two(alloc: Global, node: LentNode, a: View, b: View) -> Result<FlatTerm, Memory>
    requires { run_of (made_of (node_of node) (tree_of a ∷ tree_of b ∷ []))
        ≡ node_of node ∷ (run_of (tree_of a) ++ run_of (tree_of b)) }
    ensures { IfOk result (λ made. made ≡ made_of (node_of node.entry) (tree_of a.entry ∷ tree_of b.entry ∷ [])) }
{
    let mut run = Run::with_room(alloc, 1 + a.nodes.len() + b.nodes.len())?;
    run.push(node)?;
    run.push_view(a)?;
    run.push_view(b)?;
    Ok(FlatTerm::of_run(run))
}

/// A literal. The one refusal is out of memory.
pub fn lit(alloc: Global, text: &Text) -> Result<FlatTerm, Memory>
    ensures { IfOk result (λ made. made ≡ trees.Lit text.now) }
{
    with_none(alloc, LentNode::Lit(text))
}

/// The name of a principal. The one refusal is out of memory.
pub fn name(alloc: Global, word: &Word) -> Result<FlatTerm, Memory>
    ensures { IfOk result (λ made. made ≡ trees.Name word.now) }
{
    with_none(alloc, LentNode::Name(word))
}

/// The nonce that the entry of this index made. The one refusal is out of memory.
pub fn nonce(alloc: Global, index: u32) -> Result<FlatTerm, Memory>
    ensures { IfOk result (λ made. made ≡ trees.Nonce index) }
{
    with_none(alloc, LentNode::Nonce(index))
}

/// A pair. The one refusal is out of memory.
pub fn pair(alloc: Global, a: View, b: View) -> Result<FlatTerm, Memory>
    ensures { IfOk result (λ made. made ≡ trees.Pair (tree_of a.entry) (tree_of b.entry)) }
{
    with_two(alloc, LentNode::Pair(count(a)?), a, b)
}

/// The public key of a decryption key. The one refusal is out of memory.
pub fn pk(alloc: Global, k: View) -> Result<FlatTerm, Memory>
    ensures { IfOk result (λ made. made ≡ trees.Pk (tree_of k.entry)) }
{
    with_one(alloc, LentNode::Pk, k)
}

/// The verification key of a signing key. The one refusal is out of memory.
pub fn vk(alloc: Global, k: View) -> Result<FlatTerm, Memory>
    ensures { IfOk result (λ made. made ≡ trees.Vk (tree_of k.entry)) }
{
    with_one(alloc, LentNode::Vk, k)
}

/// Public-key encryption, to a key, of a message. The one refusal is out of memory.
pub fn penc(alloc: Global, p: View, m: View) -> Result<FlatTerm, Memory>
    ensures { IfOk result (λ made. made ≡ trees.Penc (tree_of p.entry) (tree_of m.entry)) }
{
    with_two(alloc, LentNode::Penc(count(p)?), p, m)
}

/// Authenticated encryption, by a key, of a message with associated data. The one refusal is out of memory.
pub fn aead(alloc: Global, k: View, m: View, a: View) -> Result<FlatTerm, Memory>
    ensures { IfOk result (λ made. made ≡ trees.Aead (tree_of k.entry) (tree_of m.entry) (tree_of a.entry)) }
{
    let before = k.nodes.len() + m.nodes.len();
    let mut run = Run::with_room(alloc, 1 + before + a.nodes.len())?;
    run.push(LentNode::Aead(as_number(before)?))?;
    run.push_view(k)?;
    run.push_view(m)?;
    run.push_view(a)?;
    Ok(FlatTerm::of_run(run))
}

/// A signature by a key, of a message. The one refusal is out of memory.
pub fn sign(alloc: Global, k: View, m: View) -> Result<FlatTerm, Memory>
    ensures { IfOk result (λ made. made ≡ trees.Sign (tree_of k.entry) (tree_of m.entry)) }
{
    with_two(alloc, LentNode::Sign(count(k)?), k, m)
}

/// A message authentication code by a key, of a message. The one refusal is out of memory.
pub fn mac(alloc: Global, k: View, m: View) -> Result<FlatTerm, Memory>
    ensures { IfOk result (λ made. made ≡ trees.Mac (tree_of k.entry) (tree_of m.entry)) }
{
    with_two(alloc, LentNode::Mac(count(k)?), k, m)
}

/// The key that is derived from a key, with a context, from an input. The one refusal is out of memory.
pub fn kdf(alloc: Global, k: View, c: &Text, x: View) -> Result<FlatTerm, Memory>
    ensures { IfOk result (λ made. made ≡ trees.Kdf (tree_of k.entry) c.now (tree_of x.entry)) }
{
    with_two(alloc, LentNode::Kdf(c), k, x)
}

/// A hash of a message. The one refusal is out of memory.
pub fn hash(alloc: Global, m: View) -> Result<FlatTerm, Memory>
    ensures { IfOk result (λ made. made ≡ trees.Hash (tree_of m.entry)) }
{
    with_one(alloc, LentNode::Hash, m)
}

/// The number of nodes of a tuple of these fields, or the greatest number.
fn nodes_of_tuple(fields: &[View]) -> usize {
    let mut nodes = 1usize;
    for field in fields {
        nodes = nodes.saturating_add(field.nodes.len()).saturating_add(1);
    }
    nodes
}

/// The tuple of a tag and fields, `"tag"(field, .., field)`. The one refusal is out of memory.
pub fn tuple(alloc: Global, tag: &Text, fields: &[View]) -> Result<FlatTerm, Memory>
    ensures { IfOk result (λ made. made ≡ tagged_tuple tag.now (map tree_of fields.now)) }
{
    let [first, more @ ..] = fields else {
        return lit(alloc, tag);
    };
    let mut run = Run::with_room(alloc, nodes_of_tuple(fields))?;
    run.push(LentNode::Pair(1))?;
    run.push(LentNode::Lit(tag))?;
    let mut last = *first;
    for field in more {
        run.push(LentNode::Pair(count(last)?))?;
        run.push_view(last)?;
        last = *field;
    }
    run.push_view(last)?;
    Ok(FlatTerm::of_run(run))
}
