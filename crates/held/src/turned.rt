// An unrooted tree, given by a rooting in canonical order, is hung at its smallest label. That is the leftmost leaf, and the
// leftmost path is the first bytes, each fork before its first child: the path is turned round.
ghost use Rattle.meaning.specs.Tree.{Tree as Topology};
ghost use Rattle.meaning.specs.Kind.{unrooted};
ghost use Rattle.meaning.specs.Unrooted.{hang};
ghost use Rattle.std.specs.Prelude.{length};
ghost use Rattle.lent.specs.Runs.{Wrote};
ghost use Rattle.held.specs.Held.{pre};
ghost use Rattle.held.specs.Node.{subtree};
ghost use Rattle.held.specs.Kept.{Keeps, Kept, KeepsKind};
ghost use Rattle.held.specs.Turning.{Turning, Leftmost, TurnRoom};

use super::{Kind, Node, Shape, Tree, copy_node};

// The leftmost leaf of the subtree.
fn leftmost(top: Node) -> Node
    ensures { Leftmost top.entry result }
{
    let mut node = top;
    while let Shape::Fork(first, _) = node.shape() {
        node = first;
    }
    node
}

// Writes what is above the node of the leftmost path, turned round, into `out` from `at` on; returns the place behind it.
// That has all leaves but those of the node: the root's byte less these is its fork's.
fn write_above(out: &mut [u8], at: usize, root: Node, node: Node) -> usize
    requires { TurnRoom root node (length out.old) at }
    ensures { (up : Topology) → Turning (subtree root.entry) node.entry.at (subtree node.entry) up
        → Wrote (pre up) out.old out.new at result }
{
    let sibling = Node::new(node.tree, node.at + node.width());
    if node.at == 1 {
        return copy_node(out, at, sibling);
    }
    out[at] = root.byte() - node.leaves();
    let parent = Node::new(node.tree, node.at - 1);
    let next = write_above(out, at + 1, root, parent);
    copy_node(out, next, sibling)
}

/// The unrooted tree of which the tree is a rooting.
pub fn hung(tree: Tree) -> Tree
    requires { Kept tree }
    ensures { (t : Topology) → Keeps tree t → KeepsKind result (record { kind = unrooted; tree = hang t }) }
{
    let root = Node::new(&tree.node, 0);
    let Shape::Fork(first, _) = root.shape() else {
        return Tree {
            kind: Kind::Unrooted,
            ..tree
        };
    };
    let least = leftmost(first);
    let mut out = [0u8; Tree::MAX_NODES];
    out[0] = root.byte();
    out[1] = tree.node[least.at];
    write_above(&mut out, 2, root, least);
    Tree {
        kind: Kind::Unrooted,
        ..Tree::canonical(&out)
    }
}
