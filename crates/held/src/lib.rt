#![tactic(auto)]
// A held rooted binary tree: its nodes in preorder, one byte each. A leaf's byte is its label, 1 to 64; a fork's is 64 and
// the number of leaves below it. A fork's first child is the next node, and a subtree is one run of bytes. And a table of them.
// The module `node` has what walks down a tree pass on, and `turned` hangs an unrooted tree at its smallest label.
pub mod node;
pub mod turned;

ghost use Rattle.std.specs.Prelude.{◌≡◌, List, [], ◌+◌, ◌-◌, ◌≤◌, ◌<◌, length, replicate};
ghost use Rattle.meaning.specs.Limits.{max_nodes, max_trees};
ghost use Rattle.meaning.specs.Tree.{Tree as Topology, SameTopology, canon};
ghost use Rattle.lent.specs.Runs.{Wrote, Says};
ghost use Rattle.held.specs.Held.{Holds, Room, Noted, Marks, HasCut, nodes, pre, hold, cut_in};
ghost use Rattle.held.specs.Node.{subtree, Below, cut_below};
ghost use Rattle.held.specs.Kept.{kind_of, Keeps, Kept, KeepsAll, KeptAll, KeepsTrees, Adds};
ghost use Rattle.held.specs.declared.Kind.TheVariants.{Rooted};
ghost use Rattle.meaning.specs.Kind.{rooted, Trees};
ghost use Rattle.meaning.specs.Copies.{firsts_of};

pub use node::{Node, Shape};
pub use turned::hung;

/// Whether a tree has a root.
#[derive(Clone, Copy, Debug, PartialEq, Eq)]
pub enum Kind {
    Rooted,
    Unrooted,
}

/// A tree in canonical order: equal bytes are equal topologies, and node number c + 1 is cut number c. An unrooted tree is held
/// as the rooted tree that stands for it, which hangs from its smallest label.
#[derive(Clone, Copy)]
// That a record keeps a tree is no invariant: `Tree::empty`, which document 01 asks for, keeps none.
pub struct Tree {
    pub node: [u8; Tree::MAX_NODES],
    pub kind: Kind,
}

impl Tree {
    /// Labels are 1 to 64, so a tree has at most as many leaves.
    pub const MAX_LABEL: u8 = 64;

    /// A tree of n leaves has 2n - 1 nodes.
    // Here and below `as`: a constant can't call `usize::from`.
    pub const MAX_NODES: usize = 2 * (Tree::MAX_LABEL as usize) - 1;

    /// Brackets that are open at once: 64 leaves never need more.
    pub const MAX_OPEN: usize = (Tree::MAX_LABEL as usize) - 1;

    /// Nodes of a text that may yet be refused: 64 labels, as many forks that are closed, and 63 that are open.
    pub const MAX_DRAFT: usize = 2 * (Tree::MAX_LABEL as usize) + Tree::MAX_OPEN;

    /// A fork's byte is this and the leaves below it.
    pub const FORK: u8 = Tree::MAX_LABEL;

    /// Bytes of a tree text.
    pub const TEXT_BYTES: usize = 65535;

    /// The longest canonical text of a rooted tree.
    pub const FORM_BYTES: usize = 309;

    /// The longest forest text.
    pub const FOREST_BYTES: usize = 307;

    /// A mark has four bytes.
    pub const MARK_BYTES: usize = 4;

    /// Bytes lent for a canonical text of either kind.
    pub const KIND_BYTES: usize = Tree::FORM_BYTES + Tree::MARK_BYTES;

    /// A record of zeros, which keeps no tree.
    pub fn empty() -> Self
        ensures { result ≡ record { node = replicate max_nodes 0; kind = Rooted } }
    {
        Self {
            node: [0u8; Tree::MAX_NODES],
            kind: Kind::Rooted,
        }
    }

    /// The tree that n holds, in canonical order.
    pub fn canonical(n: &[u8]) -> Self
        requires { Room nodes n.now 0 max_nodes }
        ensures { (t : Topology) → Holds n.now 0 t → result.node ≡ hold (canon t) }
    {
        let mut low = [0u8; Tree::MAX_NODES];
        let root = Node::new(n, 0);
        note_smallest(&mut low, root);
        let mut out = [0u8; Tree::MAX_NODES];
        order(&mut out, 0, &root, &low);
        Self {
            node: out,
            kind: Kind::Rooted,
        }
    }

    /// What cut c leaves of the tree, in canonical order.
    pub fn remainder(self, c: usize) -> Self
        requires { HasCut self.node c }
        ensures { (t : Topology) → Holds self.node 0 t → result.node ≡ hold (canon (cut_in t c).rest) }
    {
        let root = Node::new(&self.node, 0);
        let cut = Node::new(&self.node, c + 1);
        let mut left = [0u8; Tree::MAX_NODES];
        cut_node(&mut left, 0, root, &cut);
        Tree::canonical(&left)
    }
}

/// The first `len` trees are the table's.
#[derive(Clone, Copy)]
// That a table keeps its trees is no invariant: `Table::push` takes any tree, as its clause says.
pub struct Table {
    pub trees: [Tree; Table::MAX_TREES],
    pub len: usize,
}

impl Table {
    /// More trees are refused.
    pub const MAX_TREES: usize = 160;

    /// Bytes lent to the table call: a canonical text for each tree.
    pub const TEXT_BYTES: usize = Table::MAX_TREES * Tree::KIND_BYTES;

    /// Numbers lent for pairs: i and j of each two trees.
    pub const PAIR_NUMBERS: usize = Table::MAX_TREES * (Table::MAX_TREES - 1);

    pub fn empty() -> Self
        ensures { KeepsTrees result (record { kind = rooted; trees = [] }) }
    {
        Self {
            trees: [Tree::empty(); Table::MAX_TREES],
            len: 0,
        }
    }

    /// The kind of its trees: the table's records are rooted until there is one.
    pub fn kind(self) -> Kind
        ensures { (ts : Trees) → KeepsTrees self ts → kind_of result ≡ ts.kind }
    {
        let first = self.trees[0];
        first.kind
    }

    /// The table goes in and out by value, 20 KB: this is for once a tree, not for inner loops.
    pub fn push(mut self, tree: Tree) -> Self
        requires { self.len < max_trees }
        ensures { Adds self tree result }
    {
        let at = self.len;
        self.trees[at] = tree;
        self.len = at + 1;
        self
    }
}

// Notes the smallest label at and below each node of the subtree, at the node's own index; returns that of the subtree.
// The tree is walked down, and the leaves below the node fall.
// The labels stand in `low` at the nodes' own places: a tree's bytes are lent, and can't hold them.
fn note_smallest(low: &mut [u8], node: Node) -> u8
    requires { node.at + nodes (subtree node) ≤ length low.old }
    ensures { Noted (subtree node.entry) low.old low.new node.entry.at result }
{
    match node.shape() {
        Shape::Leaf(label) => {
            low[node.at] = label;
            label
        }
        Shape::Fork(first, second) => {
            let x = note_smallest(low, first);
            let y = note_smallest(low, second);
            let least = x.min(y);
            low[node.at] = least;
            least
        }
    }
}

// Writes the subtree in canonical order into `out` from `at` on, the smallest labels being noted in `low`; returns the place
// behind it.
fn order(out: &mut [u8], at: usize, node: &Node, low: &[u8]) -> usize
    requires { Marks low.now node.now.at (subtree node.now) × (at + nodes (subtree node.now) ≤ length out.old) }
    ensures { Wrote (pre (canon (subtree node.now))) out.old out.new at result }
{
    out[at] = node.byte();
    match node.shape() {
        Shape::Leaf(_) => at + 1,
        Shape::Fork(first, second) => {
            if low[second.at] < low[first.at] {
                let next = order(out, at + 1, &second, low);
                order(out, next, &first, low)
            } else {
                let next = order(out, at + 1, &first, low);
                order(out, next, &second, low)
            }
        }
    }
}

/// Copies the subtree into `out` from `at` on; returns the place behind it.
pub fn copy_node(out: &mut [u8], at: usize, node: Node) -> usize
    requires { at + nodes (subtree node) ≤ length out.old }
    ensures { Wrote (pre (subtree node.entry)) out.old out.new at result }
{
    lent::copy(out, at, node.tree, node.at, node.width())
}

// Writes what is left of the fork without the subtree at the node `cut` below it into `out` from `at` on; returns the place
// behind it. The fork that `cut` hung from is closed up.
fn cut_node(out: &mut [u8], at: usize, node: Node, cut: &Node) -> usize
    requires { Below node cut.now × (at + nodes (subtree node) ≤ length out.old) }
    ensures { Wrote (pre (cut_below node.entry cut.now).rest) out.old out.new at result }
{
    let Shape::Fork(first, second) = node.shape() else {
        unreachable!()
    };
    if cut.at == first.at {
        return copy_node(out, at, second);
    }
    if cut.at == second.at {
        return copy_node(out, at, first);
    }
    let gone = cut.leaves();
    out[at] = node.byte() - gone;
    if cut.at < second.at {
        let next = cut_node(out, at + 1, first, cut);
        copy_node(out, next, second)
    } else {
        let next = copy_node(out, at + 1, first);
        cut_node(out, next, second, cut)
    }
}

/// Whether two trees have one topology: each is in canonical order, so exactly where their bytes are equal.
pub fn same_topology(a: Tree, b: Tree) -> bool
    requires { Kept a × Kept b }
    ensures { (t u : Topology) → Keeps a t → Keeps b u → Says result (SameTopology t u) }
{
    a.node == b.node
}

/// Writes the first position of each tree's topology, from the start of `firsts` on. Copies are found at their first.
pub fn note_firsts(firsts: &mut [u16], table: Table)
    requires { KeptAll table × (table.len ≤ length firsts.old) }
    ensures { (ts : List Topology) → KeepsAll table ts
        → Wrote (firsts_of ts) firsts.old firsts.new 0 (length ts) }
{
    // A position, what stands before it and a slice that is written.
    for i in 0..table.len {
        let tree = table.trees[i];
        let first = table.trees[..i]
            .iter()
            .position(|earlier| tree.node == earlier.node);
        firsts[i] = first.unwrap_or(i) as u16;
    }
}
