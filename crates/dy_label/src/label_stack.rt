ghost use Rattle.std.specs.Prelude.{◌≡◌, ◌≤◌, ◌↔◌, true, map, IsTrue, [], ◌∷◌, length, IsSome, IfSome, OnErr, OnOk};
ghost use Rattle.dy_label.specs.Labels as labels;
ghost use Rattle.dy_label.specs.MirrorRuns.{labels_after, is_leaf};
ghost use Rattle.dy_label.specs.LabelsMeaning.{place_of_reader};
ghost use Rattle.dy_label.specs.MirrorNodes.{node_of, whole_of};

use crate::label_nodes::{Node, Whole, length_of_two};
use crate::labels::Label;
use crate::readers::Reader;
use dy_term::Memory;
use std::alloc::Global;
use std::marker::Model;

/// Labels that are put together, parts before wholes. Contracts see the list of them, the last one
/// first. So a label of any depth is made without calls within calls, and no node is moved.
#[derive(Debug, Drop)]
pub struct LabelStack {
    nodes: Vec<Node>,
    count: usize,
}

impl Model for LabelStack {
    ghost use Rattle.std.specs.Prelude.{List, map};
    ghost use Rattle.dy_label.specs.Labels.{Label};
    ghost use Rattle.dy_label.specs.MirrorCodes.{labels_code};

    ghost Value = { List Label };

    ghost coded = { labels_code };

    ghost use Rattle.dy_label.specs.MirrorRuns.{labels_in, AreRuns};
    ghost use Rattle.dy_label.specs.MirrorNodes.{node_of};

    ghost view = { λ s. labels_in (map node_of s.nodes.items) };

    ghost invariant = { λ s. AreRuns (map node_of s.nodes.items) s.count };
}

impl LabelStack {
    /// A stack of no labels.
    pub fn new(alloc: Global) -> LabelStack
        ensures { result ≡ [] }
    {
        LabelStack {
            nodes: Vec::new(alloc),
            count: 0,
        }
    }

    /// How many labels stand here.
    pub fn len(&self) -> usize
        ensures { result ≡ length self.now }
    {
        self.count
    }

    pub fn is_empty(&self) -> bool
        ensures { IsTrue result ↔ (self.now ≡ []) }
    {
        self.count == 0
    }

    /// Adds the label that is always open.
    pub fn push_public(&mut self) -> Result<(), Memory>
        ensures ok { OnOk result (self.new ≡ labels.Public ∷ self.old) }
        ensures err { OnErr result (self.new ≡ self.old) }
    {
        self.push_leaf(Node::Public)
    }

    /// Adds the label that is never open.
    pub fn push_nobody(&mut self) -> Result<(), Memory>
        ensures ok { OnOk result (self.new ≡ labels.Nobody ∷ self.old) }
        ensures err { OnErr result (self.new ≡ self.old) }
    {
        self.push_leaf(Node::Nobody)
    }

    /// Adds the label of one reader.
    pub fn push_reader(&mut self, reader: Reader) -> Result<(), Memory>
        ensures ok { OnOk result (self.new ≡ labels.One (place_of_reader reader) ∷ self.old) }
        ensures err { OnErr result (self.new ≡ self.old) }
    {
        self.push_leaf(Node::One(reader))
    }

    fn push_leaf(&mut self, leaf: Node) -> Result<(), Memory>
        requires { is_leaf (node_of leaf) ≡ true }
        ensures ok { OnOk result (self.new ≡ labels_after self.old (node_of leaf)) }
        ensures err { OnErr result (self.new ≡ self.old) }
    {
        self.nodes.push(leaf)?;
        self.count += 1;
        Ok(())
    }

    /// Puts a join in the place of the last two labels, which must be there.
    pub fn join(&mut self) -> Result<(), Memory>
        requires { 2 ≤ length self.old }
        ensures ok { OnOk result (self.new ≡ labels.with_last_two labels.Join self.old) }
        ensures err { OnErr result (self.new ≡ self.old) }
    {
        self.push_whole(Whole::Join)
    }

    /// Puts a meet in the place of the last two labels, which must be there.
    pub fn meet(&mut self) -> Result<(), Memory>
        requires { 2 ≤ length self.old }
        ensures ok { OnOk result (self.new ≡ labels.with_last_two labels.Meet self.old) }
        ensures err { OnErr result (self.new ≡ self.old) }
    {
        self.push_whole(Whole::Meet)
    }

    fn push_whole(&mut self, whole: Whole) -> Result<(), Memory>
        requires { 2 ≤ length self.old }
        ensures ok { OnOk result (self.new ≡ labels.with_last_two (whole_of whole) self.old) }
        ensures err { OnErr result (self.new ≡ self.old) }
    {
        let length = length_of_two(&self.nodes);
        self.nodes.push(whole.node(length))?;
        self.count -= 1;
        Ok(())
    }

    /// The one label that stands here, or `None` where there are none or several.
    pub fn finish(self) -> Option<Label>
        ensures label { IfSome result (λ label. self ≡ label ∷ []) }
        ensures found { IsSome result ↔ (length self ≡ 1) }
    {
        let LabelStack { nodes, count } = self;
        if count == 1 {
            Some(Label { nodes })
        } else {
            None
        }
    }
}
