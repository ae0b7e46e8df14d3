#![tactic(auto)]
// The public calls on an index in lent memory. None asks anything of its caller: what cannot be answered is refused, and a
// refusal changes no lent cell.
ghost use Rattle.std.specs.Prelude.{◌≡◌, true, List, ◌≤◌, ◌<◌, length, MatchOption};
ghost use Rattle.meaning.specs.Limits.{max_trees};
ghost use Rattle.meaning.specs.Kind.{Kinded, rooted_only};
ghost use Rattle.meaning.specs.Reading.{got, like_first};
ghost use Rattle.held.specs.Kept.{KeepsKind, KeptKind};
ghost use Rattle.lent.specs.Runs.{Says};
ghost use Rattle.tokens.specs.Paper.{line_of};
ghost use Rattle.holdings.specs.Slots.{Slot, free, slot_at};
ghost use Rattle.holdings.specs.Memory.{index_bytes, IsIndex, Valid, Shelved, Shelves};
ghost use Rattle.holdings.specs.IndexCalls.{table, AddCall, AskCall, RemoveCall};
ghost use Rattle.index_calls.specs.Added.{first_held, add_outcome, add_joined};
ghost use Rattle.index_calls.specs.Removed.{Barred, remove_outcome};
ghost use Rattle.calls.specs.Paper.{text_outcome};

use held::{Table, Tree};
use lent::enough;
use reading::{Takes, TreeRead};
use slots::{Index, Slots};
use tokens::{Reason, Refusal};

// The smallest number that has a tree; none where none has one.
fn first_held(slots: &Slots) -> Option<usize>
    ensures { (hs : List Slot) → Shelved hs slots.now
        → MatchOption result (first_held hs ≡ max_trees) (λ x. (x < max_trees) × (x ≡ first_held hs)) }
{
    // No `find`: what a closure that calls `is_free` gives is known by a relation over all sets of slots, and not by a test.
    // `Slots::first_free` has the same loop for the same reason.
    for x in 0..Table::MAX_TREES {
        if !slots.is_free(x) {
            return Some(x);
        }
    }
    None
}

// Why the tree can't be held beside those that are, where it can't.
fn unlike_held(memory: &[u8], tree: Tree) -> Option<Reason>
    requires { Shelves memory.now × KeptKind tree }
    ensures { (hs : List Slot) (x : Kinded) → Shelved hs memory.now → KeepsKind tree x
        → line_of result ≡ like_first rooted_only (table hs) x }
{
    let slots = Slots { memory };
    let Some(first) = first_held(&slots) else {
        return reading::untaken(Takes::RootedOnly, tree.kind);
    };
    let common = slots.tree_at(first);
    tables::unlike(common, tree)
}

// Adds a tree that was read from the text, where its `;` stands last; answers its number.
fn add_read(memory: &mut [u8], read: TreeRead) -> Result<usize, Refusal>
    requires { Valid memory.old × (index_bytes ≤ length memory.old) × KeptKind read.tree × (1 ≤ read.behind) }
    ensures { (hs : List Slot) (x : Kinded) → IsIndex hs memory.old → KeepsKind read.tree x
        → add_outcome result memory.new ≡ add_joined hs (got x read.behind) memory.old }
{
    let Some(number) = Slots { memory }.first_free() else {
        return Err(Reason::TooManyTrees.at(0));
    };
    if let Some(reason) = unlike_held(memory, read.tree) {
        return Err(reason.at(read.behind - 1));
    }
    index::add(memory, read.tree);
    Ok(number)
}

/// Adding call: the one tree of s, which has to be rooted, gets the smallest free number, which is answered.
pub fn index_add_call(memory: &mut [u8], s: &[u8]) -> Result<usize, Refusal>
    ensures { AddCall s.now memory.old (add_outcome result memory.new) }
{
    if !enough(Index::BYTES, memory.len(), true) {
        return Err(Reason::ShortSlice.at(0));
    }
    if Tree::TEXT_BYTES < s.len() {
        return Err(Reason::LongText.at(0));
    }
    if !index::is_index(memory) {
        return Err(Reason::NoIndex.at(0));
    }
    let read = reading::read_tree(s, Takes::Either)?;
    add_read(memory, read)
}

// Whether a held tree has the number.
fn has_tree(memory: &[u8], number: usize) -> bool
    requires { Shelves memory.now }
    ensures { (hs : List Slot) → Shelved hs memory.now → Says result (¬ (slot_at hs number ≡ free)) }
{
    number < Table::MAX_TREES && !Slots { memory }.is_free(number)
}

// Why nothing can be done with the number's tree, where nothing can. `fits` says whether enough is lent.
// `fits` is a bool, as the definition `Barred` takes it: the slices are measured before memory is looked at.
fn barred(memory: &[u8], number: usize, fits: bool) -> Option<Reason>
    requires { fits ≡ true → index_bytes ≤ length memory.now }
    ensures { Barred memory.now number fits (line_of result) }
{
    if !fits {
        return Some(Reason::ShortSlice);
    }
    if !index::is_index(memory) {
        return Some(Reason::NoIndex);
    }
    if !has_tree(memory, number) {
        return Some(Reason::NoSuchTree);
    }
    None
}

/// Asking call: the neighbours of the tree with the number, ascending, from the start of `list` on; answers how many there are.
pub fn index_neighbours_call(
    memory: &[u8],
    number: usize,
    list: &mut [u16],
) -> Result<usize, Refusal>
    ensures { AskCall number memory.now list.old (text_outcome result list.new) }
{
    let list_fits = enough(Table::MAX_TREES, list.len(), true);
    let fits = enough(Index::BYTES, memory.len(), list_fits);
    if let Some(reason) = barred(memory, number, fits) {
        return Err(reason.at(0));
    }
    Ok(asking::list_neighbours(list, memory, number))
}

/// Removing call: the tree with the number is taken out, and the number is free again.
pub fn index_remove_call(memory: &mut [u8], number: usize) -> Result<(), Refusal>
    ensures { RemoveCall number memory.old (remove_outcome result memory.new) }
{
    let fits = enough(Index::BYTES, memory.len(), true);
    if let Some(reason) = barred(memory, number, fits) {
        return Err(reason.at(0));
    }
    removing::remove(memory, number);
    Ok(())
}
