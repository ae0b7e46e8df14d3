#![tactic(auto)]
// The slots of an index in lent memory: one for each number, a tree's bytes or zeros. Here they are read.
ghost use Rattle.std.specs.Prelude.{◌≡◌, List, ◌≤◌, ◌<◌, length, MatchOption};
ghost use Rattle.meaning.specs.Limits.{max_trees};
ghost use Rattle.lent.specs.Runs.{Says};
ghost use Rattle.holdings.specs.Slots.{Slot, free, slot_at, smallest_free};
ghost use Rattle.holdings.specs.Entries.{cuts_of, total};
ghost use Rattle.holdings.specs.Memory.{index_bytes, Shelved};
ghost use Rattle.slots.specs.Records.{tree_in};

use held::{Kind, Node, Table, Tree};
use std::marker::Model;

/// The slots of an index, then two bytes for each entry: a tree has a cut for each node but its root.
#[derive(Drop)]
pub struct Index {}

impl Index {
    /// The place of the first entry.
    pub const ENTRIES_AT: usize = Table::MAX_TREES * Tree::MAX_NODES;

    /// How many bytes are lent for an index.
    pub const BYTES: usize = Index::ENTRIES_AT + 2 * (Table::MAX_TREES * (Tree::MAX_NODES - 1));
}

/// Memory whose slots are those of some set of held trees. A clause sees its bytes.
#[derive(Drop)]
// No `Copy`: a type with a view and a lifetime can't have it. A number of a slot stays a usize with a bound: callers count through all.
pub struct Slots<'a> {
    pub memory: &'a [u8],
}

impl<'a> Model for Slots<'a> {
    ghost use Rattle.std.specs.Prelude.{List, ℕ};
    ghost use Rattle.holdings.specs.Memory.{Shelves};

    ghost Value = { List ℕ };

    ghost view = { λ s. s.memory.now };

    ghost invariant = { λ s. Shelves s.memory.now };
}

impl<'a> Slots<'a> {
    /// Whether the number x has no tree: the byte of a node is never 0.
    pub fn is_free(&self, x: usize) -> bool
        requires { x < max_trees }
        ensures { (hs : List Slot) → Shelved hs self.now → Says result (slot_at hs x ≡ free) }
    {
        self.memory[x * Tree::MAX_NODES] == 0
    }

    /// How many cuts the tree of the number x has; 0 where there is none.
    // 0 and no None: the definition `cuts_of` says so of a free slot, and `count` adds it up.
    pub fn cuts(&self, x: usize) -> usize
        requires { x < max_trees }
        ensures { (hs : List Slot) → Shelved hs self.now → result ≡ cuts_of (slot_at hs x) }
    {
        if self.is_free(x) {
            return 0;
        }
        let root = Node::new(self.memory, x * Tree::MAX_NODES);
        root.width() - 1
    }

    /// How many entries the held trees have in all.
    pub fn count(&self) -> usize
        ensures { (hs : List Slot) → Shelved hs self.now → result ≡ total hs }
    {
        // So that the invariant is known here, where no field is used.
        let _ = &self.memory;
        let mut sum = 0;
        // No `map(..).sum()`: that all sums on the way fit would have to stand in a `requires`.
        for x in 0..Table::MAX_TREES {
            sum += self.cuts(x);
        }
        sum
    }

    /// The smallest number that has no tree; none where each has one.
    pub fn first_free(&self) -> Option<usize>
        ensures { (hs : List Slot) → Shelved hs self.now
            → MatchOption result (smallest_free hs ≡ max_trees) (λ x. (x < max_trees) × (x ≡ smallest_free hs)) }
    {
        // No `find`: what a closure that calls `is_free` gives is known by a relation over all sets of slots, and not by a test.
        for number in 0..Table::MAX_TREES {
            if self.is_free(number) {
                return Some(number);
            }
        }
        None
    }

    /// The slot of the number x as a tree's record.
    pub fn tree_at(&self, x: usize) -> Tree
        requires { x < max_trees }
        ensures { result ≡ tree_in self.now x }
    {
        let at = x * Tree::MAX_NODES;
        let mut node = [0u8; Tree::MAX_NODES];
        node.copy_from_slice(&self.memory[at..at + Tree::MAX_NODES]);
        Tree {
            node,
            kind: Kind::Rooted,
        }
    }
}
