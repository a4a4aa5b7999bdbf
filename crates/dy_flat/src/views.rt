ghost use Rattle.dy_flat.specs.Meaning.{IsWhole, IsWhole-prop};

use crate::contents::Contents;
use crate::flat_nodes::Node;

/// A lent term: a run of nodes that is one whole term, with its texts and names.
#[derive(Clone, Copy, Debug)]
pub struct View<'a> {
    pub(crate) nodes: &'a [Node],
    pub(crate) contents: &'a Contents,
    ghost whole: { IsWhole contents.now nodes.now } by { IsWhole-prop contents.now nodes.now },
}
