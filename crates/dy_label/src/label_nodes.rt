ghost use Rattle.std.specs.Prelude.{◌≡◌, ◌≢◌, ◌++◌, [], ◌∷◌, true, false, map};
ghost use Rattle.dy_label.specs.MirrorRuns.{run_length, EndsWithRun, EndsWithTwoRuns, SplitsLastRun, CountsTwoRuns};
ghost use Rattle.dy_label.specs.MirrorNodes.{node_of, whole_node};

use crate::readers::Reader;

/// A node of a label. One with two parts has the number of nodes of its whole run, itself
/// counted.
#[derive(Debug, Drop)]
pub(crate) enum Node {
    Public,
    Nobody,
    One(Reader),
    Join(usize),
    Meet(usize),
}

/// The two kinds of label that have parts.
#[derive(Clone, Copy)]
pub(crate) enum Whole {
    Join,
    Meet,
}

impl Whole {
    /// The node that ends a run of so many nodes, itself counted.
    pub(crate) fn node(self, nodes: usize) -> Node
        ensures { node_of result ≡ whole_node self nodes }
    {
        match self {
            Whole::Join => Node::Join(nodes),
            Whole::Meet => Node::Meet(nodes),
        }
    }
}

impl Node {
    fn same(&self, other: &Node) -> bool
        ensures same { result ≡ true → node_of self.now ≡ node_of other.now }
        ensures other { result ≡ false → node_of self.now ≢ node_of other.now }
    {
        match (self, other) {
            (Node::Public, Node::Public) | (Node::Nobody, Node::Nobody) => true,
            (Node::One(reader), Node::One(other)) => reader.same(other),
            (Node::Join(m), Node::Join(n)) | (Node::Meet(m), Node::Meet(n)) => m == n,
            _ => false,
        }
    }

    pub(crate) fn copy(&self) -> Node
        ensures { result ≡ self.now }
    {
        match self {
            Node::Public => Node::Public,
            Node::Nobody => Node::Nobody,
            Node::One(reader) => Node::One(reader.copy()),
            Node::Join(nodes) => Node::Join(*nodes),
            Node::Meet(nodes) => Node::Meet(*nodes),
        }
    }

    /// How many nodes the run has that ends with this one.
    fn run_length(&self) -> usize
        ensures { result ≡ run_length (node_of self.now) }
    {
        match self {
            Node::Join(nodes) | Node::Meet(nodes) => *nodes,
            _ => 1,
        }
    }
}

/// Whether the two runs are the same, node by node.
pub(crate) fn same_nodes(first: &[Node], second: &[Node]) -> bool
    ensures same { result ≡ true → map node_of first.now ≡ map node_of second.now }
    ensures other { result ≡ false → map node_of first.now ≢ map node_of second.now }
{
    if first.len() != second.len() {
        return false;
    }
    for i in 0..first.len() {
        if !first[i].same(&second[i]) {
            return false;
        }
    }
    true
}

/// The nodes before the last run, and the last run.
pub(crate) fn split_last_run(nodes: &[Node]) -> (&[Node], &[Node])
    requires { EndsWithRun (map node_of nodes.now) }
    ensures { SplitsLastRun (map node_of nodes.now) (map node_of result.0.now) (map node_of result.1.now) }
{
    match nodes.split_last() {
        Some((last, _)) => nodes.split_at(nodes.len() - last.run_length()),
        None => unreachable!(),
    }
}

/// How many nodes the run has that the node of the last two labels ends.
pub(crate) fn length_of_two(nodes: &[Node]) -> usize
    requires { EndsWithTwoRuns (map node_of nodes.now) }
    ensures { CountsTwoRuns (map node_of nodes.now) result }
{
    let (rest, second) = split_last_run(nodes);
    let (_, first) = split_last_run(rest);
    first.len() + second.len() + 1
}
