// What two trees leave without one node each, compared where it stands. Both trees are walked down to the nodes that are left
// out; what hangs off the way is whole, and in canonical order, so its bytes can be compared.
ghost use Rattle.lent.specs.Runs.{Says};
ghost use Rattle.held.specs.Node.{subtree};
ghost use Rattle.pairs.specs.Ordered.{InOrder};
ghost use Rattle.pairs.specs.Left.{left, Alike, Cutting, Leads};

use super::{other_child, same_subtree};
use held::{Node, Shape};

// The child of a fork that leads to a node, and the other child.
#[derive(Clone, Copy)]
struct Way<'a> {
    on: Node<'a>,
    off: Node<'a>,
}

// The way from a fork to the node p below it.
// A node and the place p below it stay two: p stays while the node goes down, and a pair would be made anew at each step.
fn way_to<'a>(node: Node<'a>, p: usize) -> Way<'a>
    requires { Cutting p node.at (subtree node) }
    ensures { Leads p node.entry.at (subtree node.entry) result.on.at (subtree result.on) (subtree result.off) }
{
    let Shape::Fork(first, second) = node.shape() else {
        unreachable!()
    };
    let leads = p < second.at;
    if leads {
        Way {
            on: first,
            off: second,
        }
    } else {
        Way {
            on: second,
            off: first,
        }
    }
}

// Whether the subtree of x is what is left of that of y without p: what hangs off the way has to be a child of it, and what is
// left further down the other child.
fn is_left(x: Node, y: Node, p: usize) -> bool
    requires { InOrder (subtree x) × Cutting p y.at (subtree y) }
    ensures { Says result (Alike (subtree x.entry) (left p y.entry.at (subtree y.entry))) }
{
    let mut node = x;
    let mut next = way_to(y, p);
    // No count: the walk goes from a fork of y to the child that leads to p.
    while next.on.at != p {
        let Some(other) = other_child(node, next.off) else {
            return false;
        };
        node = other;
        next = way_to(next.on, p);
    }
    same_subtree(node, next.off)
}

/// Whether what is left of the subtree of x without p is what is left of that of y without q. As long as the same hangs off both
/// ways, they are followed; where it differs, each has to be what is left further down the other.
pub fn same_left(x: Node, p: usize, y: Node, q: usize) -> bool
    requires { Cutting p x.at (subtree x) × Cutting q y.at (subtree y) }
    ensures { Says result (Alike (left p x.entry.at (subtree x.entry)) (left q y.entry.at (subtree y.entry))) }
{
    let mut one = x;
    let mut two = y;
    let mut a = way_to(one, p);
    // No count: the walk goes from a fork to the child that leads to p.
    while a.on.at != p {
        let b = way_to(two, q);
        if b.on.at == q {
            return is_left(b.off, one, p);
        }
        if !same_subtree(a.off, b.off) {
            return is_left(a.off, b.on, q) && is_left(b.off, a.on, p);
        }
        one = a.on;
        two = b.on;
        a = way_to(one, p);
    }
    is_left(a.off, two, q)
}
