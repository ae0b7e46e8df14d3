// A node of a held tree: what walks down a tree pass on.
ghost use Rattle.std.specs.Prelude.{◌≡◌};
ghost use Rattle.meaning.specs.Tree.{leaves as leaves_of};
ghost use Rattle.held.specs.Held.{Holds, Held, nodes, byte as byte_of};
ghost use Rattle.held.specs.Subtree.{subtree_at};

use super::Tree;

/// A node of a held tree: the bytes in which the tree stands in preorder, and the node's place among them.
#[derive(Clone, Copy)]
pub struct Node<'a> {
    pub tree: &'a [u8],
    pub at: usize,
    pub ghost stands: { ∥ Holds tree.now at (subtree_at tree.now at) ∥₁ },
}

/// A leaf's label, or a fork's first and second child.
#[derive(Clone, Copy)]
pub enum Shape<'a> {
    Leaf(u8),
    Fork(Node<'a>, Node<'a>),
}

// Inlined, as each is a few steps: a node that is passed to a call goes through memory.
impl<'a> Node<'a> {
    ghost use Rattle.held.specs.Node.{subtree, Shows};

    /// The node at `at` of the bytes `tree`.
    #[inline(always)]
    pub fn new(tree: &'a [u8], at: usize) -> Self
        requires { Held tree.now at }
        ensures { (result.tree.now ≡ tree.now) × (result.at ≡ at) }
    {
        Self { tree, at }
    }

    /// A leaf's byte is its label, a fork's is 64 and the leaves below it.
    #[inline(always)]
    pub fn byte(self) -> u8
        ensures { result ≡ byte_of (subtree self.entry) }
    {
        self.tree[self.at]
    }

    /// How many leaves the subtree has.
    #[inline(always)]
    pub fn leaves(self) -> u8
        ensures { result ≡ leaves_of (subtree self.entry) }
    {
        let b = self.byte();
        if b <= Tree::FORK { 1 } else { b - Tree::FORK }
    }

    /// How many nodes the subtree has.
    #[inline(always)]
    pub fn width(self) -> usize
        ensures { result ≡ nodes (subtree self.entry) }
    {
        2 * usize::from(self.leaves()) - 1
    }

    /// What the node is: the first child is the next node, and the second stands behind its subtree.
    #[inline(always)]
    pub fn shape(self) -> Shape<'a>
        ensures { Shows self.entry result }
    {
        let b = self.byte();
        if b <= Tree::FORK {
            return Shape::Leaf(b);
        }
        let first = Node::new(self.tree, self.at + 1);
        let second = Node::new(self.tree, first.at + first.width());
        Shape::Fork(first, second)
    }
}
