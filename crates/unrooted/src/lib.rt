#![tactic(auto)]
// The unrooted pair test, on the rooted trees that stand for unrooted ones: whether two are one unrooted move apart.
pub mod leftmost;

ghost use Rattle.meaning.specs.Tree.{Tree as Topology, canon};
ghost use Rattle.meaning.specs.Unrooted.{SameSplits};
ghost use Rattle.lent.specs.Runs.{Says};
ghost use Rattle.held.specs.Node.{subtree};
ghost use Rattle.held.specs.Kept.{Keeps, Kept};
ghost use Rattle.unrooted.specs.Apart.{OtherRoot, ApartHung};
ghost use Rattle.unrooted.specs.Turned.{OrderedFork};

use held::{Node, Tree};

// Whether two subtrees are one unrooted tree: turned round, they have the same leaf at the root and the same beside it.
fn same_splits(x: Node, y: Node) -> bool
    requires { OrderedFork (subtree x) × OrderedFork (subtree y) }
    ensures { Says result (SameSplits (subtree x.entry) (subtree y.entry)) }
{
    let p = leftmost::last_fork(x);
    let q = leftmost::last_fork(y);
    x.tree[p + 1] == y.tree[q + 1] && leftmost::same_turned(x, p, y, q)
}

/// Whether the topologies differ only by the place of the root in one subtree: that at which the trees part.
// `interchanges::one_interchange_apart` begins so too: they share `parting`, and a closure for the last line would be longer.
pub fn respun(a: Tree, b: Tree) -> bool
    requires { Kept a × Kept b }
    ensures { (t u : Topology) → Keeps a t → Keeps b u → Says result (OtherRoot (canon t) (canon u)) }
{
    let Some(k) = pairs::parting(&a.node, &b.node) else {
        return false;
    };
    same_splits(Node::new(&a.node, k), Node::new(&b.node, k))
}

/// Whether one unrooted move of the one gives the other: the side without the smallest label is moved, which is a rooted move, or
/// the side with it.
pub fn one_move_apart(a: Tree, b: Tree) -> bool
    requires { Kept a × Kept b }
    ensures { (t u : Topology) → Keeps a t → Keeps b u → Says result (ApartHung t u) }
{
    respun(a, b) || pairs::one_move_apart(a, b).yes
}
