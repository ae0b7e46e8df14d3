#![tactic(auto)]
// The interchange test: whether two trees are one nearest-neighbour interchange apart.
ghost use Rattle.meaning.specs.Tree.{Tree as Topology};
ghost use Rattle.meaning.specs.Interchange.{OneInterchange};
ghost use Rattle.lent.specs.Runs.{Says};
ghost use Rattle.held.specs.Node.{subtree};
ghost use Rattle.held.specs.Kept.{Keeps, Kept};
ghost use Rattle.interchanges.specs.Interchanged.{Regrafted, Regrouped};

use held::{Node, Shape, Tree};
use pairs::{other_child, same_subtree};

// Whether a child of `parent` is regrafted beside its aunt: it is the child of `regrown` beside the aunt, and its sibling of
// before stands alone.
// Inlined, since its nodes go through memory else: a table has 12,720 pairs.
#[inline(always)]
fn regrafted(parent: Node, aunt: Node, regrown: Node, alone: Node) -> bool
    ensures { Says result (Regrafted (subtree parent.entry) (subtree aunt.entry) (subtree regrown.entry) (subtree alone.entry)) }
{
    let Some(node) = other_child(parent, alone) else {
        return false;
    };
    let Some(moved) = other_child(regrown, aunt) else {
        return false;
    };
    same_subtree(node, moved)
}

// Whether an interchange at the root of x's subtree gives that of y: either child can be the parent, in x and in y.
fn regrouped(x: Node, y: Node) -> bool
    ensures { Says result (Regrouped (subtree x.entry) (subtree y.entry)) }
{
    let (Shape::Fork(a, b), Shape::Fork(c, d)) = (x.shape(), y.shape()) else {
        return false;
    };
    regrafted(a, b, c, d) || regrafted(a, b, d, c) || regrafted(b, a, c, d) || regrafted(b, a, d, c)
}

/// Whether one interchange of the one gives the other's topology: one at the fork at which the trees part.
pub fn one_interchange_apart(a: Tree, b: Tree) -> bool
    requires { Kept a × Kept b }
    ensures { (t u : Topology) → Keeps a t → Keeps b u → Says result (OneInterchange t u) }
{
    let Some(k) = pairs::parting(&a.node, &b.node) else {
        return false;
    };
    regrouped(Node::new(&a.node, k), Node::new(&b.node, k))
}
