#![tactic(auto)]
// The public calls on one tree, on two, and on the texts of a table. None asks anything of its caller: what cannot be answered is
// refused, and a refusal changes no lent cell.
ghost use Rattle.std.specs.Prelude.{◌≡◌, ◌≤◌, length};
ghost use Rattle.meaning.specs.Tree.{Tree as Topology};
ghost use Rattle.meaning.specs.Kind.{Kinded, either};
ghost use Rattle.meaning.specs.Reading.{got, read_tree};
ghost use Rattle.meaning.specs.Calls.{form_call, cut_call, beside, PairCall, table_call};
ghost use Rattle.held.specs.Held.{nodes};
ghost use Rattle.held.specs.Kept.{Keeps, KeepsKind, KeptKind};
ghost use Rattle.calls.specs.Paper.{text_outcome, pair_answer, table_outcome};
ghost use Rattle.calls.specs.Cuts.{CutRoom, cut_text};
ghost use Rattle.calls.specs.Paired.{TestedAs, Answers};
ghost use Rattle.calls.specs.Tabled.{text_slices, TableRoom, TableWritten};

use held::{Kind, Table, Tree};
use lent::enough;
use pairs::Comparison;
use reading::{Takes, TreeRead};
use tokens::{Reason, Refusal};

// Form call: the canonical text of the one tree of s, from the start of out on; answers its bytes.
pub fn form_call(s: &[u8], out: &mut [u8]) -> Result<usize, Refusal>
    ensures { text_outcome result out.new ≡ form_call s.now out.old }
{
    let fits = enough(Tree::KIND_BYTES, out.len(), true);
    let read = tables::read_lent(s, fits, Takes::Either)?;
    Ok(writing::write_form(out, 0, read.tree))
}

// Writes the forest text of a cut of a tree that has `count` nodes: it has a cut for each node but its root.
fn write_cut(out: &mut [u8], tree: Tree, count: usize, cut: usize) -> Result<usize, Refusal>
    requires { CutRoom tree count (length out.old) }
    ensures { (t : Topology) → Keeps tree t → count ≡ nodes t → text_outcome result out.new ≡ cut_text t cut out.old }
{
    if count - 1 <= cut {
        return Err(Reason::NoSuchCut.at(0));
    }
    Ok(writing::write_forest(out, 0, tree, cut))
}

// Cut call: the forest text of one cut of the one tree of s, which has to be rooted, from the start of out on; answers its bytes.
pub fn cut_call(s: &[u8], cut: usize, out: &mut [u8]) -> Result<usize, Refusal>
    ensures { text_outcome result out.new ≡ cut_call s.now cut out.old }
{
    let fits = enough(Tree::FOREST_BYTES, out.len(), true);
    let read = tables::read_lent(s, fits, Takes::RootedOnly)?;
    write_cut(out, read.tree, read.nodes, cut)
}

// Whether two trees of one kind are one move apart. For unrooted ones no forest is counted.
fn one_move_apart(first: Tree, second: Tree) -> Comparison
    requires { KeptKind first × KeptKind second }
    ensures { (x y : Kinded) → KeepsKind first x → KeepsKind second y → x.kind ≡ y.kind → TestedAs x y result }
{
    // The kind is that of the text, so it is known when the call runs.
    match first.kind {
        Kind::Rooted => pairs::one_move_apart(first, second),
        Kind::Unrooted => Comparison {
            yes: unrooted::one_move_apart(first, second),
            forests: 0,
        },
    }
}

// Two trees, the second read from text 1, where its `;` stands last.
fn compare(first: Tree, second: TreeRead) -> Result<Comparison, Refusal>
    requires { KeptKind first × KeptKind second.tree × (1 ≤ second.behind) }
    ensures { (x y : Kinded) → KeepsKind first x → KeepsKind second.tree y
        → Answers (beside x (got y second.behind)) (pair_answer result) }
{
    if let Some(reason) = tables::unlike(first, second.tree) {
        return Err(reason.at(second.behind - 1).of_second());
    }
    Ok(one_move_apart(first, second.tree))
}

// The tree of text 0, and text 1.
fn compare_with_text(first: Tree, s: &[u8]) -> Result<Comparison, Refusal>
    requires { KeptKind first }
    ensures { (x : Kinded) → KeepsKind first x → Answers (beside x (read_tree either s.now)) (pair_answer result) }
{
    match reading::read_tree(s, Takes::Either) {
        Ok(second) => compare(first, second),
        Err(x) => Err(x.of_second()),
    }
}

// Pair call: whether one move makes the tree of text 0 that of text 1, and their topologies differ; with how many forests were
// compared to tell.
pub fn pair_call(first: &[u8], second: &[u8]) -> Result<Comparison, Refusal>
    ensures { PairCall first.now second.now (pair_answer result) }
{
    if Tree::TEXT_BYTES < first.len() {
        return Err(Reason::LongText.at(0));
    }
    let second_is_long = Tree::TEXT_BYTES < second.len();
    if second_is_long {
        return Err(Reason::LongText.at(0).of_second());
    }
    let read = reading::read_tree(first, Takes::Either)?;
    compare_with_text(read.tree, second)
}

// How much the table call writes: bytes of text, and trees.
#[derive(Clone, Copy, Debug, PartialEq, Eq)]
pub struct TableSize {
    pub bytes: usize,
    pub trees: usize,
}

// Writes the canonical texts of a table one after another, and the end of each; returns the end of the last.
fn write_texts(texts: &mut [u8], ends: &mut [u32], table: Table) -> usize
    requires { TableRoom table (text_slices texts.old ends.old) }
    ensures { TableWritten table (text_slices texts.old ends.old) (text_slices texts.new ends.new) result }
{
    let mut at = 0;
    // `ends` is longer than the table and is written: a zip would cut the trees and take `ends.iter_mut()`, a longer head for the same lines.
    for i in 0..table.len {
        at = writing::write_form(texts, at, table.trees[i]);
        ends[i] = at as u32;
    }
    at
}

// Table call: the canonical texts of the trees of s, and the end of each.
pub fn table_call(s: &[u8], texts: &mut [u8], ends: &mut [u32]) -> Result<TableSize, Refusal>
    ensures { table_outcome result texts.new ends.new
        ≡ table_call s.now (text_slices texts.old ends.old) }
{
    let ends_fit = enough(Table::MAX_TREES, ends.len(), true);
    let fits = enough(Table::TEXT_BYTES, texts.len(), ends_fit);
    let table = tables::read_lent_table(s, fits, Takes::Either)?;
    Ok(TableSize {
        bytes: write_texts(texts, ends, table),
        trees: table.len,
    })
}
