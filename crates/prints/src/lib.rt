#![tactic(auto)]
// Fingerprints of a held tree's forests: equal forests have equal keys, whatever the order of children.
ghost use Rattle.std.specs.Prelude.{◌≡◌, ◌+◌, ◌≤◌, length};
ghost use Rattle.meaning.specs.Limits.{max_nodes};
ghost use Rattle.meaning.specs.Tree.{Tree as Topology, canon};
ghost use Rattle.meaning.specs.Clade.{clade};
ghost use Rattle.held.specs.Node.{subtree};
ghost use Rattle.held.specs.Kept.{Keeps, Kept};
ghost use Rattle.clades.specs.Marks.{Whole, Noted};
ghost use Rattle.prints.specs.Print.{spread as spread_of, folded as folded_of, print};
ghost use Rattle.prints.specs.Keys.{KeysNoted};
ghost use Rattle.prints.specs.Rest.{PassRoom, Passed, RestRoom, RestNoted};

use held::{Node, Shape, Tree};

// A prime below 2^28: the square of a remainder is below 2^56, and a tree has at most 63 of them.
const PRIME: u64 = 268435399;

// So many keys there are.
const RANGE: u64 = 2147483648;

// A clade's part in a print.
fn spread(x: u64) -> u64
    ensures { result ≡ spread_of x }
{
    let rest = x % PRIME;
    rest * rest
}

// What is kept of a forest's print.
fn folded(x: u64) -> u32
    ensures { result ≡ folded_of x }
{
    // Below 2^31, so `try_from` would have a refusal here that never comes.
    1 + (x % RANGE) as u32
}

// Notes the print of each subtree of n's tree at its node, from the last node back; m has the clades.
// The walk of `clades::note`: one function of both would take a closure for a leaf and one for a fork, and be longer.
fn note(f: &mut [u64; Tree::MAX_NODES], m: &[u64; Tree::MAX_NODES], n: &[u8])
    requires { Whole n.now (length f.old) × Noted clade n.now m.now }
    ensures { Noted print n.now f.new }
{
    let root = Node::new(n, 0);
    // By index: a node's cell is read again, with its sibling's, when their fork is met.
    for k in (0..root.width()).rev() {
        let node = Node::new(n, k);
        match node.shape() {
            Shape::Leaf(_) => f[k] = 0,
            Shape::Fork(first, second) => f[k] = spread(m[k]) + (f[first.at] + f[second.at]),
        }
    }
}

// Adds to `rest` what the fork of clade `whole` and the print `beside` of its other child have in the print of what is left
// without each node of the child at `from`, whose nodes end before `to`: without the child itself the fork is closed up.
fn pass(
    rest: &mut [u64; Tree::MAX_NODES],
    m: &[u64; Tree::MAX_NODES],
    whole: u64,
    beside: u64,
    from: usize,
    to: usize,
)
    requires { PassRoom m.now rest.old whole beside from to }
    ensures { Passed m.now rest.old rest.new whole beside from to }
{
    rest[from] += beside;
    // By index: a number of `rest` and its clade stand at one place of two arrays.
    for p in from + 1..to {
        let gone = m[p];
        rest[p] += spread(whole - gone) + beside;
    }
}

// Adds to `rest`, for each node below the node, the print of what is left of the node's subtree without it; m has the clades
// of the nodes, f their prints.
fn note_rest(
    rest: &mut [u64; Tree::MAX_NODES],
    m: &[u64; Tree::MAX_NODES],
    f: &[u64; Tree::MAX_NODES],
    node: Node,
)
    requires { RestRoom (subtree node) node.tree.now m.now f.now rest.old node.at }
    ensures { RestNoted (subtree node.entry) node.entry.at rest.old rest.new }
{
    let Shape::Fork(first, second) = node.shape() else {
        return;
    };
    let end = second.at + second.width();
    let whole = m[node.at];
    pass(rest, m, whole, f[second.at], first.at, second.at);
    pass(rest, m, whole, f[first.at], second.at, end);
    note_rest(rest, m, f, first);
    note_rest(rest, m, f, second);
}

/// Notes the key of each forest of the tree, that of cut c at `at` + c + 1. Other numbers stay.
pub fn note_keys(keys: &mut [u32], at: usize, tree: Tree)
    requires { Kept tree × (at + max_nodes ≤ length keys.old) }
    ensures { (t : Topology) → Keeps tree t → KeysNoted (canon t) keys.old keys.new at }
{
    let mut m = [0u64; Tree::MAX_NODES];
    clades::note(&mut m, &tree.node);
    let mut f = [0u64; Tree::MAX_NODES];
    note(&mut f, &m, &tree.node);
    let mut rest = [0u64; Tree::MAX_NODES];
    let root = Node::new(&tree.node, 0);
    note_rest(&mut rest, &m, &f, root);
    let cuts = root.width() - 1;
    // By index: a node has one place in three arrays.
    for p in 1..cuts + 1 {
        let pruned = f[p];
        keys[at + p] = folded(pruned + rest[p]);
    }
}
