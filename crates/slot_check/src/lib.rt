#![tactic(auto)]
// Whether the slots of an index in lent memory are those of some set of held trees: each free or with a tree in canonical order,
// and one label set.
ghost use Rattle.std.specs.Prelude.{◌≡◌, ◌≤◌, ◌<◌, length, get_or};
ghost use Rattle.meaning.specs.Limits.{max_nodes};
ghost use Rattle.lent.specs.Runs.{Says};
ghost use Rattle.holdings.specs.Memory.{index_bytes, Shelves};
ghost use Rattle.slot_check.specs.Slot.{Claims, Joined, InOrder, Tells, Full};

use held::{Node, Table, Tree};

// The leaves that the byte of node k claims; none for a 0, and behind the end.
fn claimed(n: &[u8], k: usize) -> Option<u8>
    ensures { Claims (get_or n.now k 0) result }
{
    match *n.get(k)? {
        0 => None,
        1..=Tree::FORK => Some(1),
        b => Some(b - Tree::FORK),
    }
}

// The labels of a fork whose children have the labels x and y, label L at bit L - 1; none where a label is in both, or the first
// child has not the smallest.
fn joined(x: u64, y: u64) -> Option<u64>
    requires { (0 < x) × (0 < y) }
    ensures { Joined x y result }
{
    let shared = x & y != 0;
    let swapped = y.trailing_zeros() <= x.trailing_zeros();
    if shared || swapped {
        return None;
    }
    Some(x + y)
}

// The labels of the tree in canonical order, with no label twice, that n holds from node k on; none where there is no such tree.
// A fork's children claim together what it does, so the leaves that are claimed fall.
fn labels_in_order(n: &[u8], k: usize) -> Option<u64>
    ensures { Tells (InOrder n.now k) result }
{
    let wide = match *n.get(k)? {
        0 => return None,
        b @ 1..=Tree::FORK => return Some(1u64 << (b - 1)),
        b => b - Tree::FORK,
    };
    let first = k + 1;
    let left = claimed(n, first)?;
    if wide <= left {
        return None;
    }
    let second = first + 2 * usize::from(left) - 1;
    let rest = claimed(n, second)?;
    if rest != wide - left {
        return None;
    }
    let x = labels_in_order(n, first)?;
    let y = labels_in_order(n, second)?;
    joined(x, y)
}

// The labels of the tree that the bytes of a slot hold, with zeros behind it; none where there is no such tree.
fn labels_of(slot: &[u8]) -> Option<u64>
    requires { length slot.now ≡ max_nodes }
    ensures { Tells (Full slot.now) result }
{
    let labels = labels_in_order(slot, 0)?;
    let root = Node::new(slot, 0);
    let alone = lent::all_zero(slot, root.width(), Tree::MAX_NODES);
    alone.then_some(labels)
}

/// Whether the slots are those of a set of held trees; all of those have the labels of the first.
pub fn are_slots(memory: &[u8]) -> bool
    requires { index_bytes ≤ length memory.now }
    ensures { Says result (Shelves memory.now) }
{
    let mut common = None;
    let slots = &memory[..Table::MAX_TREES * Tree::MAX_NODES];
    for slot in slots.chunks_exact(Tree::MAX_NODES) {
        if !lent::all_zero(slot, 0, Tree::MAX_NODES) {
            let Some(labels) = labels_of(slot) else {
                return false;
            };
            let first = common.unwrap_or(labels);
            let differ = labels != first;
            if differ {
                return false;
            }
            common = Some(first);
        }
    }
    true
}
