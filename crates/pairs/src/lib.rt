#![tactic(auto)]
// The pair test: whether two trees are one move apart, and how many forests are compared to tell.
pub mod remainders;

ghost use Rattle.std.specs.Prelude.{◌≡◌};
ghost use Rattle.meaning.specs.Tree.{Tree as Topology, canon};
ghost use Rattle.lent.specs.Runs.{Says};
ghost use Rattle.held.specs.Held.{Holds, HasCut, cut_in};
ghost use Rattle.held.specs.Kept.{Keeps, Kept};
ghost use Rattle.held.specs.Node.{subtree};
ghost use Rattle.pairs.specs.Children.{IsFork, SecondOf, OtherChild};
ghost use Rattle.pairs.specs.Ordered.{HeldInOrder};
ghost use Rattle.pairs.specs.Parting.{Parting};
ghost use Rattle.pairs.specs.Pair.{OrderedCut, Marked, SameForest, Searched, Tested};

use held::{Node, Shape, Tree};

/// Whether the subtrees at two nodes are the same. Most that differ do so at their first byte, which also tells the width.
// Inlined, as the methods of `Node` are, and `other_child` too.
#[inline(always)]
pub fn same_subtree(x: Node, y: Node) -> bool
    ensures { Says result (subtree x.entry ≡ subtree y.entry) }
{
    x.byte() == y.byte() && lent::same_run(x.tree, x.at, y.tree, y.at, x.width())
}

/// The second child of a fork.
pub fn second_child<'a>(node: Node<'a>) -> Node<'a>
    requires { IsFork (subtree node) }
    ensures { SecondOf node.entry result }
{
    let Shape::Fork(_, second) = node.shape() else {
        unreachable!()
    };
    second
}

/// The child of x beside which y's subtree stands; none where that is no child of it.
#[inline(always)]
pub fn other_child<'a>(x: Node<'a>, y: Node) -> Option<Node<'a>>
    ensures { OtherChild x.entry y.entry result }
{
    let Shape::Fork(first, second) = x.shape() else {
        return None;
    };
    if same_subtree(first, y) {
        Some(second)
    } else if same_subtree(second, y) {
        Some(first)
    } else {
        None
    }
}

/// The fork to which two trees are walked down together, from their roots to where they differ in both children: where the first
/// children agree, to the second, and where the second do, to the first. None where they come to a leaf, or to trees of
/// different sizes. All bytes in common are found at the start: first children agree where the second begins among them.
pub fn parting(x: &[u8], y: &[u8]) -> Option<usize>
    requires { HeldInOrder x.now × HeldInOrder y.now }
    ensures { (t u : Topology) → Holds x.now 0 t → Holds y.now 0 u → Parting t u result }
{
    let same = lent::common(x, y, Tree::MAX_NODES);
    let mut k = 0;
    // No count: k goes from a fork to one of its children.
    while k < same && Tree::FORK < x[k] {
        let first = k + 1;
        let second = second_child(Node::new(x, k));
        if second.at <= same {
            k = second.at;
        } else if same_subtree(second, second_child(Node::new(y, k))) {
            k = first;
        } else {
            return Some(k);
        }
    }
    None
}

// Whether cut c of x and cut d of y take the same subtree away: cut number c is node number c + 1.
// A cut is its tree's bytes and its number: the callers have it so, in places of m and n and in rows of entries, and a struct
// would be made for each call and taken apart at once.
fn same_pruned(x: &[u8], c: usize, y: &[u8], d: usize) -> bool
    requires { HasCut x.now c × HasCut y.now d }
    ensures { (t u : Topology) → Holds x.now 0 t → Holds y.now 0 u
        → Says result ((cut_in t c).pruned ≡ (cut_in u d).pruned) }
{
    same_subtree(Node::new(x, c + 1), Node::new(y, d + 1))
}

// Whether cut c of x and cut d of y leave the same tree.
fn same_remainder(x: &[u8], c: usize, y: &[u8], d: usize) -> bool
    requires { OrderedCut x.now c × OrderedCut y.now d }
    ensures { (t u : Topology) → Holds x.now 0 t → Holds y.now 0 u
        → Says result (canon (cut_in t c).rest ≡ canon (cut_in u d).rest) }
{
    remainders::same_left(Node::new(x, 0), c + 1, Node::new(y, 0), d + 1)
}

/// Whether cut c of x and cut d of y have the same forest.
pub fn same_forest(x: &[u8], c: usize, y: &[u8], d: usize) -> bool
    requires { OrderedCut x.now c × OrderedCut y.now d }
    ensures { (t u : Topology) → Holds x.now 0 t → Holds y.now 0 u
        → Says result (SameForest (cut_in t c) (cut_in u d)) }
{
    same_pruned(x, c, y, d) && same_remainder(x, c, y, d)
}

/// What a test of two trees tells: yes or no, and how many forests it compared.
// The number is told for a yes and for a no, so it is no Option, and the bool no flag that says whether there is one.
#[derive(Clone, Copy)]
pub struct Comparison {
    pub yes: bool,
    pub forests: usize,
}

// Whether a cut of x and a cut of y have the same forest; m and n are the clades of their nodes. The search is over at the first.
// Parts are compared only where the same clade is pruned, and a cut counts where it is: the number before it and one, however
// often it would be met.
// Document 01 asks for nested loops that are left by a label. p and q number cuts, and are places in m and n as well.
fn find_forest(
    x: &[u8],
    m: &[u64; Tree::MAX_NODES],
    y: &[u8],
    n: &[u64; Tree::MAX_NODES],
) -> Comparison
    requires { Marked x.now m.now × Marked y.now n.now }
    ensures { (t u : Topology) → Holds x.now 0 t → Holds y.now 0 u → Searched t u result }
{
    let nodes = Node::new(x, 0).width();
    let others = Node::new(y, 0).width();
    let mut found = false;
    let mut forests = 0;
    'search: for p in 1..nodes {
        let gone = m[p];
        let before = forests;
        for q in 1..others {
            if n[q] == gone {
                forests = before + 1;
                if same_forest(x, p - 1, y, q - 1) {
                    found = true;
                    break 'search;
                }
            }
        }
    }
    Comparison {
        yes: found,
        forests,
    }
}

// Whether two trees share a forest, and how many were compared.
fn shares_forest(a: Tree, b: Tree) -> Comparison
    requires { Kept a × Kept b }
    ensures { (t u : Topology) → Holds a.node 0 t → Holds b.node 0 u → Searched t u result }
{
    let mut m = [0u64; Tree::MAX_NODES];
    clades::note(&mut m, &a.node);
    let mut n = [0u64; Tree::MAX_NODES];
    clades::note(&mut n, &b.node);
    find_forest(&a.node, &m, &b.node, &n)
}

/// Whether the topologies differ and one move of the one gives the other: distinct trees are one move apart exactly when they
/// share a forest (Lemma 2.2 of document 001). For equal topologies no forest is compared.
pub fn one_move_apart(a: Tree, b: Tree) -> Comparison
    requires { Kept a × Kept b }
    ensures { (t u : Topology) → Keeps a t → Keeps b u → Tested t u result }
{
    if same_subtree(Node::new(&a.node, 0), Node::new(&b.node, 0)) {
        return Comparison {
            yes: false,
            forests: 0,
        };
    }
    shares_forest(a, b)
}
