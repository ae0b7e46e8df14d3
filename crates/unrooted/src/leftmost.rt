// Subtrees turned round their leftmost path, compared where they stand. In preorder that path is a run of bytes, so it is walked
// up index by index; what hangs off it is whole, and in canonical order, so its bytes can be compared.
ghost use Rattle.lent.specs.Runs.{Says};
ghost use Rattle.held.specs.Node.{subtree};
ghost use Rattle.pairs.specs.Left.{Alike};
ghost use Rattle.pairs.specs.Ordered.{InOrder, HeldFork};
ghost use Rattle.unrooted.specs.Turned.{OrderedFork, HangsOff, TurnedAt, Ends};

use held::{Node, Tree};
use pairs::{other_child, same_subtree, second_child};

/// The last fork of the leftmost path from a fork.
pub fn last_fork(node: Node) -> usize
    requires { OrderedFork (subtree node) }
    ensures { Ends node.entry.tree.now node.entry.at result (subtree node.entry) }
{
    let behind = &node.tree[node.at + 1..];
    node.at + behind.iter().take_while(|b| Tree::FORK < **b).count()
}

// What hangs off the path at the fork k: its second child.
fn off_path<'a>(tree: &'a [u8], k: usize) -> Node<'a>
    requires { HeldFork tree.now k }
    ensures { HangsOff tree.now k (subtree result) }
{
    second_child(Node::new(tree, k))
}

// Whether the subtree of x is what hangs from q, on the leftmost path from y: what hangs off q has to be a child of it, and what
// hangs from the fork above q the other child.
// By `while`: a `for` over the forks above would have to read each at the index below, and the last is read behind the loop.
fn is_turned(x: Node, y: Node, q: usize) -> bool
    requires { InOrder (subtree x) × TurnedAt y.tree.now y.at q }
    ensures { (t : TurnedAt y.entry.tree.now y.entry.at q)
        → Says result (Alike (subtree x.entry) t.tree) }
{
    let mut node = x;
    let mut l = q;
    while y.at < l {
        let Some(other) = other_child(node, off_path(y.tree, l)) else {
            return false;
        };
        node = other;
        l -= 1;
    }
    same_subtree(node, off_path(y.tree, l))
}

/// Whether what hangs from p, on the leftmost path from x, is what hangs from q on that from y. As long as the same hangs off both,
/// they are followed upwards; where it differs, each has to be what hangs from the fork above the other.
// By `while`: two indices fall together, and either path may be the first to end. `pairs::remainders` has the same steps down two
// ways to a node; of these loops all but the step is in other_child, and a trait for the step would be longer than they are.
pub fn same_turned(x: Node, p: usize, y: Node, q: usize) -> bool
    requires { TurnedAt x.tree.now x.at p × TurnedAt y.tree.now y.at q }
    ensures { (t : TurnedAt x.entry.tree.now x.entry.at p) (u : TurnedAt y.entry.tree.now y.entry.at q)
        → Says result (Alike t.tree u.tree) }
{
    let mut k = p;
    let mut l = q;
    while x.at < k {
        let a = off_path(x.tree, k);
        let b = off_path(y.tree, l);
        if l <= y.at {
            return is_turned(b, x, k);
        }
        if !same_subtree(a, b) {
            if !is_turned(a, y, l - 1) {
                return false;
            }
            return is_turned(b, x, k - 1);
        }
        k -= 1;
        l -= 1;
    }
    is_turned(off_path(x.tree, k), y, l)
}
