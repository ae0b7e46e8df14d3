#![tactic(auto)]
// A tree taken out of an index in lent memory.
ghost use Rattle.std.specs.Prelude.{◌≡◌, List, ◌+◌, ◌*◌, ◌≤◌, length};
ghost use Rattle.meaning.specs.Answer.{written};
ghost use Rattle.lent.specs.Runs.{Wrote};
ghost use Rattle.holdings.specs.Slots.{Slot, remove as remove_from};
ghost use Rattle.holdings.specs.Memory.{entries_at, encode, IsIndex};
ghost use Rattle.removing.specs.Removing.{others_in, Removable};

use held::Tree;
use slots::{Index, Slots};

// Of the n entries keeps those of other numbers than x, each moved down over the gaps before it; returns the place behind them.
fn close_gaps(memory: &mut [u8], n: usize, x: u8) -> usize
    requires { entries_at + 2 * n ≤ length memory.old }
    ensures { Wrote (others_in memory.old n x) memory.old memory.new entries_at result }
{
    let mut to = Index::ENTRIES_AT;
    // By number: what is read and what is written lie in one slice.
    for k in 0..n {
        let y = memory[Index::ENTRIES_AT + 2 * k];
        let c = memory[Index::ENTRIES_AT + 2 * k + 1];
        if y != x {
            memory[to] = y;
            memory[to + 1] = c;
            to += 2;
        }
    }
    to
}

/// Removes the tree of the number x, where it has one: its entries, and its slot. The other trees keep their numbers.
pub fn remove(memory: &mut [u8], x: usize)
    requires { Removable memory.old x }
    ensures { (hs : List Slot) → IsIndex hs memory.old
        → memory.new ≡ written (encode (remove_from hs x)) memory.old }
{
    let n = Slots { memory }.count();
    // `as`: no `From` of a narrower type, and a `TryFrom` would have an `Err` that never comes.
    let end = close_gaps(memory, n, x as u8);
    lent::fill(memory, end, Index::ENTRIES_AT + 2 * n, 0);
    lent::fill(memory, x * Tree::MAX_NODES, (x + 1) * Tree::MAX_NODES, 0);
}
