ghost use Rattle.std.specs.Prelude.{◌≡◌, ◌≢◌, ◌≤◌, ◌⊎◌, ◌++◌, true, false, map, length, IfOk};
ghost use Rattle.dy_label.specs.Labels as labels;
ghost use Rattle.dy_label.specs.MirrorRuns.{run_of, last_node, nodes_of_parts, IsRun, AreTwoRuns, label_in};
ghost use Rattle.dy_label.specs.LabelsMeaning.{place_of_reader, places_of};
ghost use Rattle.dy_label.specs.MirrorNodes.{node_of, whole_of};
ghost use Rattle.dy_label.specs.ShapesMeaning.{label_of_shape};

use crate::label_nodes::{Node, Whole, same_nodes, split_last_run};
use crate::readers::{Corruption, Reader, is_open_to};
use dy_term::Memory;
use std::alloc::Global;
use std::marker::Model;

/// Who may read a value. Contracts see it as a tree. It is kept as the list of its nodes. So a
/// label of any depth is compared, copied and let go without calls within calls.
#[derive(Debug, Drop)]
pub struct Label {
    pub(crate) nodes: Vec<Node>,
}

impl Model for Label {
    ghost use Rattle.dy_label.specs.Labels.{Label};
    ghost use Rattle.dy_label.specs.MirrorCodes.{label_code};

    ghost Value = { Label };

    ghost coded = { label_code };

    ghost use Rattle.std.specs.Prelude.{map};
    ghost use Rattle.dy_label.specs.MirrorRuns.{label_in, IsRun};
    ghost use Rattle.dy_label.specs.MirrorNodes.{node_of};

    ghost view = { λ l. label_in (map node_of l.nodes.items) };

    ghost invariant = { λ l. IsRun (map node_of l.nodes.items) };
}

/// A label that is lent, whole or as a part of another one.
#[derive(Debug, Drop)]
pub struct LabelView<'a> {
    nodes: &'a [Node],
}

impl<'a> Model for LabelView<'a> {
    ghost use Rattle.dy_label.specs.Labels.{Label};
    ghost use Rattle.dy_label.specs.MirrorCodes.{label_code};

    ghost Value = { Label };

    ghost coded = { label_code };

    ghost use Rattle.std.specs.Prelude.{map};
    ghost use Rattle.dy_label.specs.MirrorRuns.{label_in, IsRun};
    ghost use Rattle.dy_label.specs.MirrorNodes.{node_of};

    ghost view = { λ l. label_in (map node_of l.nodes.now) };

    ghost invariant = { λ l. IsRun (map node_of l.nodes.now) };
}

/// What a label is at its top, with its parts lent.
#[derive(Debug, Drop)]
pub enum LabelShape<'a> {
    Public,
    Nobody,
    One(&'a Reader),
    Join(LabelView<'a>, LabelView<'a>),
    Meet(LabelView<'a>, LabelView<'a>),
}

impl Label {
    /// The label that is always open.
    pub fn public(alloc: Global) -> Result<Label, Memory>
        ensures { IfOk result (λ label. label ≡ labels.Public) }
    {
        let mut nodes = Vec::new(alloc);
        nodes.push(Node::Public)?;
        Ok(Label { nodes })
    }

    /// The label that is never open.
    pub fn nobody(alloc: Global) -> Result<Label, Memory>
        ensures { IfOk result (λ label. label ≡ labels.Nobody) }
    {
        let mut nodes = Vec::new(alloc);
        nodes.push(Node::Nobody)?;
        Ok(Label { nodes })
    }

    /// The label of one reader.
    pub fn one(alloc: Global, reader: Reader) -> Result<Label, Memory>
        ensures { IfOk result (λ label. label ≡ labels.One (place_of_reader reader)) }
    {
        let mut nodes = Vec::new(alloc);
        nodes.push(Node::One(reader))?;
        Ok(Label { nodes })
    }

    /// The label that is open where one of the two is. This moves the nodes of `second`; a label
    /// of many parts is made by a `LabelStack`.
    pub fn join(self, second: Label) -> Result<Label, Memory>
        ensures { IfOk result (λ label. label ≡ labels.Join self second) }
    {
        label_of_two(Whole::Join, self, second)
    }

    /// The label that is open where both are. This moves the nodes of `second`; a label of many
    /// parts is made by a `LabelStack`.
    pub fn meet(self, second: Label) -> Result<Label, Memory>
        ensures { IfOk result (λ label. label ≡ labels.Meet self second) }
    {
        label_of_two(Whole::Meet, self, second)
    }

    /// Whether the two are the same label.
    pub fn same(&self, other: &Label) -> bool
        ensures same { result ≡ true → self.now ≡ other.now }
        ensures other { result ≡ false → self.now ≢ other.now }
    {
        same_nodes(&self.nodes, &other.nodes)
    }

    /// An equal label, in memory of its own.
    pub fn copy(&self, alloc: Global) -> Result<Label, Memory>
        ensures { IfOk result (λ label. label ≡ self.now) }
    {
        let nodes = copy_nodes(alloc, &self.nodes)?;
        Ok(Label { nodes })
    }

    /// The label, lent.
    pub fn whole(&self) -> LabelView<'_>
        ensures { result ≡ self.now }
    {
        LabelView {
            nodes: self.nodes.as_slice(),
        }
    }
}

/// The label of this kind whose parts the two are.
fn label_of_two(whole: Whole, first: Label, second: Label) -> Result<Label, Memory>
    ensures { IfOk result (λ label. label ≡ whole_of whole first second) }
{
    let mut nodes = parts(first, second)?;
    let length = nodes.len() + 1;
    nodes.push(whole.node(length))?;
    Ok(Label { nodes })
}

/// The nodes of the two labels, one after the other.
fn parts(first: Label, second: Label) -> Result<Vec<Node>, Memory>
    ensures { IfOk result (λ nodes. map node_of nodes.items ≡ run_of first ++ run_of second) }
{
    let Label { mut nodes } = first;
    let Label { nodes: mut more } = second;
    nodes.append(&mut more)?;
    Ok(nodes)
}

fn copy_nodes(alloc: Global, nodes: &[Node]) -> Result<Vec<Node>, Memory>
    ensures { IfOk result (λ copied. copied.items ≡ nodes.now) }
{
    let mut copied = Vec::new(alloc);
    for node in nodes {
        copied.push(node.copy())?;
    }
    Ok(copied)
}

/// The last node of a label's run, and the nodes of its parts.
fn split_run(nodes: &[Node]) -> (&Node, &[Node])
    requires { IsRun (map node_of nodes.now) }
    ensures last { node_of result.0.now ≡ last_node (label_in (map node_of nodes.now)) }
    ensures parts { map node_of result.1.now ≡ nodes_of_parts (label_in (map node_of nodes.now)) }
{
    match nodes.split_last() {
        Some((last, parts)) => (last, parts),
        None => unreachable!(),
    }
}

/// The two labels whose runs the nodes are.
fn two_views(nodes: &[Node]) -> (LabelView<'_>, LabelView<'_>)
    requires { AreTwoRuns (map node_of nodes.now) }
    ensures { map node_of nodes.now ≡ run_of result.0 ++ run_of result.1 }
{
    let (first, second) = split_last_run(nodes);
    (LabelView { nodes: first }, LabelView { nodes: second })
}

impl<'a> LabelView<'a> {
    /// What the label is at its top.
    pub fn shape(&self) -> LabelShape<'a>
        ensures { label_of_shape result ≡ self.now }
    {
        match split_run(self.nodes) {
            (Node::Public, _) => LabelShape::Public,
            (Node::Nobody, _) => LabelShape::Nobody,
            (Node::One(reader), _) => LabelShape::One(reader),
            (Node::Join(_), parts) => {
                let (first, second) = two_views(parts);
                LabelShape::Join(first, second)
            }
            (Node::Meet(_), parts) => {
                let (first, second) = two_views(parts);
                LabelShape::Meet(first, second)
            }
        }
    }
}

/// Whether the label is open under these corruptions. It takes no memory. A label is asked in a
/// loop that goes on with its larger part and asks the smaller one by a call. So calls stand in
/// calls at most as often as the number of nodes can be halved.
pub fn is_open(label: &Label, corruptions: &[Corruption]) -> bool
    ensures { result ≡ labels.is_open (places_of corruptions.now) label.now }
{
    is_view_open(label.whole(), corruptions)
}

fn is_view_open(label: LabelView<'_>, corruptions: &[Corruption]) -> bool
    ensures { result ≡ labels.is_open (places_of corruptions.now) label.entry }
{
    let mut rest = label;
    loop {
        match rest.shape() {
            LabelShape::Public => return true,
            LabelShape::Nobody => return false,
            LabelShape::One(reader) => return is_open_to(corruptions, reader),
            LabelShape::Join(first, second) => {
                let (small, large) = smaller_first(first, second);
                if is_view_open(small, corruptions) {
                    return true;
                }
                rest = large;
            }
            LabelShape::Meet(first, second) => {
                let (small, large) = smaller_first(first, second);
                if !is_view_open(small, corruptions) {
                    return false;
                }
                rest = large;
            }
        }
    }
}

/// The two labels, the one of fewer nodes first.
fn smaller_first<'a>(first: LabelView<'a>, second: LabelView<'a>) -> (LabelView<'a>, LabelView<'a>)
    ensures both { ((result.0 ≡ first.entry) × (result.1 ≡ second.entry))
        ⊎ ((result.0 ≡ second.entry) × (result.1 ≡ first.entry)) }
    ensures shorter { length (run_of result.0) ≤ length (run_of result.1) }
{
    if first.nodes.len() <= second.nodes.len() {
        (first, second)
    } else {
        (second, first)
    }
}
