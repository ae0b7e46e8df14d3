#![tactic(auto)]
// Lists of neighbours, asked of an index: entries with one forest text stand side by side, and their trees are one move apart
// or the same.
ghost use Rattle.std.specs.Prelude.{◌≡◌, List, ◌≤◌, ◌<◌, length};
ghost use Rattle.meaning.specs.Limits.{max_trees};
ghost use Rattle.lent.specs.Runs.{Says};
ghost use Rattle.holdings.specs.Slots.{Slot};
ghost use Rattle.holdings.specs.Entries.{entry_text};
ghost use Rattle.entries.specs.Places.{pair_of, HasEntry};
ghost use Rattle.holdings.specs.Memory.{index_bytes, IsIndex, Shelved};
ghost use Rattle.holdings.specs.Neighbours.{Met};
ghost use Rattle.asking.specs.Asking.{Marks, Bears, Askable, TextRoom, Other, Below, ListWritten, NeighboursWritten};

use entries::{Entry, Text};
use held::{Table, Tree};
use slots::Slots;

// Whether the entry has this text.
fn has_text(slots: &Slots, entry: Entry, text: &Text) -> bool
    requires { HasEntry slots.now (pair_of entry) }
    ensures { (hs : List Slot) → Shelved hs slots.now → Says result (entry_text hs (pair_of entry) ≡ text.now) }
{
    entries::compare(&entries::text_of(slots, entry), text).is_eq()
}

// Marks the trees of the entries with this text, among n in all. They follow on where (0, 0) with the text has its place.
fn mark_text(marks: &mut [bool; Table::MAX_TREES], slots: &Slots, n: usize, text: &Text)
    requires { TextRoom marks.old slots.now n }
    ensures { (hs : List Slot) → IsIndex hs slots.now → Marks (Bears hs text.now) marks.old marks.new }
{
    let least = Entry { tree: 0, cut: 0 };
    // No `take_while`: what a closure that calls `has_text` gives is known by a relation over all sets of slots, and not by a test.
    for k in entries::place(slots, n, text, least)..n {
        let entry = Entry::read(slots, k);
        if !has_text(slots, entry, text) {
            break;
        }
        marks[entry.tree] = true;
    }
}

// Marks the numbers that have an entry with the text of a cut of x, x among them.
fn mark_met(marks: &mut [bool; Table::MAX_TREES], slots: &Slots, x: usize)
    requires { Askable slots.now x × (length marks.old ≡ max_trees) }
    ensures { (hs : List Slot) → IsIndex hs slots.now
        → Marks (Met hs x) marks.old marks.new }
{
    let n = slots.count();
    // By number: an entry names its cut by it, and there is no slice of cuts.
    for cut in 0..slots.cuts(x) {
        mark_text(
            marks,
            slots,
            n,
            &entries::text_of(slots, Entry { tree: x, cut }),
        );
    }
}

// Whether y is marked, and has another tree than x: trees are held in canonical order, so copies have the same bytes.
fn is_other(marks: &[bool; Table::MAX_TREES], memory: &[u8], x: usize, y: usize) -> bool
    requires { (index_bytes ≤ length memory.now) × (x < max_trees) × (y < max_trees) }
    ensures { Says result (Other marks.now memory.now x y) }
{
    marks[y]
        && !lent::same_run(
            memory,
            x * Tree::MAX_NODES,
            memory,
            y * Tree::MAX_NODES,
            Tree::MAX_NODES,
        )
}

// Lists the marked numbers that have another tree than x, ascending; returns how many they are.
fn list_marked(list: &mut [u16], marks: &[bool; Table::MAX_TREES], memory: &[u8], x: usize) -> usize
    requires { (index_bytes ≤ length memory.now) × (x < max_trees) × (max_trees ≤ length list.old) }
    ensures { ListWritten (Below (Other marks.now memory.now x) max_trees)
        list.old list.new result }
{
    // m counts the cells of the lent slice that are written.
    let mut m = 0;
    // By number: y is what is listed.
    for y in 0..Table::MAX_TREES {
        if is_other(marks, memory, x, y) {
            // `as`: no `From` of a narrower type, and a `TryFrom` would have an `Err` that never comes.
            list[m] = y as u16;
            m += 1;
        }
    }
    m
}

/// Lists the neighbours of x, ascending; returns how many they are.
// No type says that memory is an index: `index::add` and `removing::remove` write it in place, and on the way it is none.
pub fn list_neighbours(list: &mut [u16], memory: &[u8], x: usize) -> usize
    requires { Askable memory.now x × (max_trees ≤ length list.old) }
    ensures { (hs : List Slot) → IsIndex hs memory.now
        → NeighboursWritten hs x list.old list.new result }
{
    let mut marks = [false; Table::MAX_TREES];
    mark_met(&mut marks, &Slots { memory }, x);
    list_marked(list, &marks, memory, x)
}
