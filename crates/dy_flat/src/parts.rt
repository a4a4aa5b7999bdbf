ghost use Rattle.std.specs.Prelude.{◌≡◌, ◌≤◌, ◌-◌, Some, slice_get, map, take, drop, length};
ghost use Rattle.dy_term.specs.Terms.{Term};
ghost use Rattle.dy_flat.specs.Runs.{run_of};
ghost use Rattle.dy_flat.specs.MirrorSpans.{span};
ghost use Rattle.dy_flat.specs.Meaning.{read_all, arity};
ghost use Rattle.dy_flat.specs.Views.{tree_of};
ghost use Rattle.dy_flat.specs.Parts as parts;
ghost use Rattle.dy_flat.specs.PartMeaning.{term_of_parts, part_of, IsPart};

use crate::flat_nodes::{Node, arity};
use crate::views::View;
use dy_term::{Text, Word};

/// A term by its constructor: what stands in it, and its parts, lent.
#[derive(Clone, Copy)]
pub enum Parts<'a> {
    Lit(&'a Text),
    Name(&'a Word),
    Nonce(u32),
    Pair(View<'a>, View<'a>),
    Pk(View<'a>),
    Vk(View<'a>),
    Penc(View<'a>, View<'a>),
    Aead(View<'a>, View<'a>, View<'a>),
    Sign(View<'a>, View<'a>),
    Mac(View<'a>, View<'a>),
    Kdf(View<'a>, &'a Text, View<'a>),
    Hash(View<'a>),
}

/// How many nodes the first term of a run takes.
fn first_len(run: &[Node]) -> usize
    ensures { result ≡ span 1 (map arity run.now) }
{
    let mut due = 1;
    for (at, node) in run.iter().enumerate() {
        due = due - 1 + arity(*node);
        if due == 0 {
            return at + 1;
        }
    }
    run.len()
}

/// The term from one place of a run to another.
fn part<'a>(view: View<'a>, from: usize, to: usize) -> View<'a>
    requires { (term : Term) × IsPart view from to term }
    ensures { (term : Term) → IsPart view.entry from to term → tree_of result ≡ term }
{
    View {
        nodes: &view.nodes[from..to],
        contents: view.contents,
    }
}

/// Lends what a term is made of. Of `Aead` and `Kdf` it goes through the nodes of the key, of others through none.
pub fn take_apart<'a>(view: View<'a>) -> Parts<'a>
    ensures { term_of_parts result ≡ tree_of view.entry }
{
    let end = view.nodes.len();
    match view.nodes[0] {
        Node::Lit(place) => Parts::Lit(view.contents.text(place)),
        Node::Name(place) => Parts::Name(view.contents.name(place)),
        Node::Nonce(index) => Parts::Nonce(index),
        Node::Pair(before) => {
            let middle = 1 + before as usize;
            Parts::Pair(part(view, 1, middle), part(view, middle, end))
        }
        Node::Pk => Parts::Pk(part(view, 1, end)),
        Node::Vk => Parts::Vk(part(view, 1, end)),
        Node::Penc(before) => {
            let middle = 1 + before as usize;
            Parts::Penc(part(view, 1, middle), part(view, middle, end))
        }
        Node::Aead(before) => {
            let first = 1 + first_len(&view.nodes[1..]);
            let second = 1 + before as usize;
            Parts::Aead(
                part(view, 1, first),
                part(view, first, second),
                part(view, second, end),
            )
        }
        Node::Sign(before) => {
            let middle = 1 + before as usize;
            Parts::Sign(part(view, 1, middle), part(view, middle, end))
        }
        Node::Mac(before) => {
            let middle = 1 + before as usize;
            Parts::Mac(part(view, 1, middle), part(view, middle, end))
        }
        Node::Kdf(place) => {
            let middle = 1 + first_len(&view.nodes[1..]);
            let context = view.contents.text(place);
            Parts::Kdf(part(view, 1, middle), context, part(view, middle, end))
        }
        Node::Hash => Parts::Hash(part(view, 1, end)),
    }
}

/// Lends the first part of a pair. `None` exactly where the term is no pair.
pub fn first<'a>(view: View<'a>) -> Option<View<'a>>
    ensures { part_of result ≡ parts.first (tree_of view.entry) }
{
    match view.nodes[0] {
        Node::Pair(before) => Some(part(view, 1, 1 + before as usize)),
        _ => None,
    }
}

/// Lends the second part of a pair. `None` exactly where the term is no pair.
pub fn second<'a>(view: View<'a>) -> Option<View<'a>>
    ensures { part_of result ≡ parts.second (tree_of view.entry) }
{
    match view.nodes[0] {
        Node::Pair(before) => Some(part(view, 1 + before as usize, view.nodes.len())),
        _ => None,
    }
}

/// Lends the key of `Penc`, `Aead`, `Sign` and `Mac`. `None` exactly where the term is none of these. Of `Aead` it
/// goes through the nodes of the key, of others through none.
pub fn key_part<'a>(view: View<'a>) -> Option<View<'a>>
    ensures { part_of result ≡ parts.key_part (tree_of view.entry) }
{
    match view.nodes[0] {
        Node::Penc(before) | Node::Sign(before) | Node::Mac(before) => {
            Some(part(view, 1, 1 + before as usize))
        }
        Node::Aead(_) => Some(part(view, 1, 1 + first_len(&view.nodes[1..]))),
        _ => None,
    }
}

/// Lends the message of `Penc`, `Aead`, `Sign` and `Mac`. `None` exactly where the term is none of these. Of `Aead`
/// it goes through the nodes of the key, of others through none.
pub fn body_part<'a>(view: View<'a>) -> Option<View<'a>>
    ensures { part_of result ≡ parts.body_part (tree_of view.entry) }
{
    match view.nodes[0] {
        Node::Penc(before) | Node::Sign(before) | Node::Mac(before) => {
            Some(part(view, 1 + before as usize, view.nodes.len()))
        }
        Node::Aead(before) => {
            let key = first_len(&view.nodes[1..]);
            Some(part(view, 1 + key, 1 + before as usize))
        }
        _ => None,
    }
}

/// Lends the associated data of `Aead`. `None` exactly where the term is another.
pub fn data_part<'a>(view: View<'a>) -> Option<View<'a>>
    ensures { part_of result ≡ parts.data_part (tree_of view.entry) }
{
    match view.nodes[0] {
        Node::Aead(before) => Some(part(view, 1 + before as usize, view.nodes.len())),
        _ => None,
    }
}

/// Lends the one part of `Pk`, `Vk` and `Hash`. `None` exactly where the term is none of these.
pub fn inner<'a>(view: View<'a>) -> Option<View<'a>>
    ensures { part_of result ≡ parts.inner (tree_of view.entry) }
{
    match view.nodes[0] {
        Node::Pk | Node::Vk | Node::Hash => Some(part(view, 1, view.nodes.len())),
        _ => None,
    }
}

/// The part of this number, counted from 0.
fn numbered_part<'a>(term: Parts<'a>, number: usize) -> Option<View<'a>>
    ensures { part_of result ≡ slice_get (parts.parts_of (term_of_parts term.entry)) number }
{
    match term {
        Parts::Lit(_) | Parts::Name(_) | Parts::Nonce(_) => None,
        Parts::Pk(part) | Parts::Vk(part) | Parts::Hash(part) => match number {
            0 => Some(part),
            _ => None,
        },
        Parts::Pair(first, second)
        | Parts::Penc(first, second)
        | Parts::Sign(first, second)
        | Parts::Mac(first, second)
        | Parts::Kdf(first, _, second) => match number {
            0 => Some(first),
            1 => Some(second),
            _ => None,
        },
        Parts::Aead(key, message, associated) => match number {
            0 => Some(key),
            1 => Some(message),
            2 => Some(associated),
            _ => None,
        },
    }
}

/// Lends the part of this number, counted from 0 in the order of the constructor. `None` exactly where the term has
/// no more parts than that. Of `Aead` and `Kdf` it goes through the nodes of the key, of others through none.
pub fn part_at<'a>(view: View<'a>, number: usize) -> Option<View<'a>>
    ensures { part_of result ≡ slice_get (parts.parts_of (tree_of view.entry)) number }
{
    numbered_part(take_apart(view), number)
}
