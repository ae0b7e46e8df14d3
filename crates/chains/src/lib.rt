#![tactic(auto)]
// Numbered entries with a key each: which is the last one before each that has the same key. Number 0 says that there is none:
// an Option<u16> has twice the bytes, and the memory for the entries, 40,960 bytes an array, is fixed.
ghost use Rattle.std.specs.Prelude.{ℕ, ◌%◌, ◌≤◌, ◌≡◌, length, unwrap_or};
ghost use Rattle.chains.specs.Chains.{entries, slots, Last, HasKey, InSlot, Found, Findable};

use held::{Table, Tree};

// A row of entries for each tree of a table, those of tree i from i * ROW on: one for each node, and one more.
#[derive(Drop)]
pub struct Entries {}

impl Entries {
    pub const ROW: usize = Tree::MAX_NODES + 1;

    pub const SIZE: usize = Table::MAX_TREES * Entries::ROW;

    // Keys are told apart by their slot first.
    const SLOTS: usize = 16384;
}

// The last entry with the key k, from `from` down the chain of k's slot.
fn find(
    next: &[u16; Entries::SIZE],
    keys: &[u32; Entries::SIZE],
    from: usize,
    k: u32,
) -> Option<usize>
    requires { Findable keys.now next.now from k }
    ensures { (e : ℕ) → Last (InSlot keys.now (k % slots)) e from → Last (HasKey keys.now k) e (unwrap_or result 0) }
{
    let mut q = from;
    // No count: each entry names the next.
    while q != 0 {
        if keys[q] == k {
            return Some(q);
        }
        q = usize::from(next[q]);
    }
    None
}

// Notes for each entry from 1 up to `end` the last one before it that has the same key.
pub fn note_same(same: &mut [u16; Entries::SIZE], keys: &[u32; Entries::SIZE], end: usize)
    requires { (end ≤ entries) × (length same.old ≡ entries) }
    ensures { Found keys.now same.new end }
{
    let mut head = [0u16; Entries::SLOTS];
    let mut next = [0u16; Entries::SIZE];
    // By index: e is what is kept in the arrays, and the place in three of them. Each e fits a u16, and a u32 has no usize::from.
    for e in 1..end {
        let k = keys[e];
        let slot = (k % (Entries::SLOTS as u32)) as usize;
        let last = usize::from(head[slot]);
        same[e] = find(&next, keys, last, k).unwrap_or(0) as u16;
        next[e] = last as u16;
        head[slot] = e as u16;
    }
}
