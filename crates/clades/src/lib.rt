#![tactic(auto)]
// Numbers beside the nodes of a held tree: each subtree's clade, label L at bit L - 1.
ghost use Rattle.std.specs.Prelude.{◌≡◌, length};
ghost use Rattle.meaning.specs.Tree.{Tree as Topology, canon};
ghost use Rattle.meaning.specs.Reading.{same_labels};
ghost use Rattle.meaning.specs.Clade.{clade};
ghost use Rattle.held.specs.Kept.{Keeps, Kept};
ghost use Rattle.clades.specs.Marks.{Whole, Noted};

use held::{Node, Shape, Tree};

/// Notes the clade of each subtree of n's tree at its node, from the last node back: a fork's children stand behind it. The
/// children share no label, so the sum of their clades has the labels of both.
pub fn note(m: &mut [u64; Tree::MAX_NODES], n: &[u8])
    requires { Whole n.now (length m.old) }
    ensures { Noted clade n.now m.new }
{
    let root = Node::new(n, 0);
    // By index: a node's cell is read again, with its sibling's, when their fork is met.
    for k in (0..root.width()).rev() {
        let node = Node::new(n, k);
        match node.shape() {
            Shape::Leaf(label) => m[k] = 1u64 << (label - 1),
            Shape::Fork(first, second) => m[k] = m[first.at] + m[second.at],
        }
    }
}

/// The labels of a tree as one number, the clade of its root.
pub fn labels(tree: Tree) -> u64
    requires { Kept tree }
    ensures { (t : Topology) → Keeps tree t → result ≡ clade (canon t) }
{
    let mut m = [0u64; Tree::MAX_NODES];
    note(&mut m, &tree.node);
    m[0]
}

/// Whether two trees have the same labels.
pub fn same_labels(a: Tree, b: Tree) -> bool
    requires { Kept a × Kept b }
    ensures { (t u : Topology) → Keeps a t → Keeps b u → result ≡ same_labels t u }
{
    labels(a) == labels(b)
}
