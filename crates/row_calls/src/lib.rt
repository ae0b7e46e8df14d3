#![tactic(auto)]
// The public calls on rows. None asks anything of its caller: what cannot be answered is refused, and a refusal changes no lent
// cell.
ghost use Rattle.std.specs.Prelude.{◌≡◌, true};
ghost use Rattle.families.specs.Row.{is_row};
ghost use Rattle.families.specs.RowCalls.{row_call, row_text_call, RowPairCall};
ghost use Rattle.calls.specs.Paper.{text_outcome, pair_answer};

use held::Tree;
use lent::enough;
use pairs::Comparison;
use reading::Takes;
use rows::Row;
use tokens::{Reason, Refusal};

/// Row call: the row of the one tree of s, which has to be rooted, from the start of `row` on. Its size is how many numbers it has.
pub fn row_call(s: &[u8], row: &mut [u64]) -> Result<usize, Refusal>
    ensures { text_outcome result row.new ≡ row_call s.now row.old }
{
    let fits = enough(Row::NUMBERS, row.len(), true);
    let read = tables::read_lent(s, fits, Takes::RootedOnly)?;
    Ok(rows::write_row(row, read.tree))
}

/// Row text call: the canonical text of the row's tree, from the start of out on.
pub fn row_text_call(row: &[u64], out: &mut [u8]) -> Result<usize, Refusal>
    ensures { text_outcome result out.new ≡ row_text_call row.now out.old }
{
    if !enough(Tree::FORM_BYTES, out.len(), true) {
        return Err(Reason::ShortSlice.at(0));
    }
    if !rows::is_row(row) {
        return Err(Reason::NoRow.at(0));
    }
    Ok(writing::write_form(out, 0, rows::tree_of(row)))
}

// Two rows.
fn compare_rows(row: &[u64], other: &[u64]) -> Result<Comparison, Refusal>
    requires { (is_row row.now ≡ true) × (is_row other.now ≡ true) }
    ensures { RowPairCall row.now other.now (pair_answer result) }
{
    let (labels, others) = (row[0], other[0]);
    let differ = labels != others;
    if differ {
        return Err(Reason::LabelsDiffer.at(0).of_second());
    }
    Ok(pairs::one_move_apart(rows::tree_of(row), rows::tree_of(other)))
}

/// Row pair call: whether one move makes the tree of `row` that of `other`, and their topologies differ; with how many forests were
/// compared to tell.
pub fn row_pair_call(row: &[u64], other: &[u64]) -> Result<Comparison, Refusal>
    ensures { RowPairCall row.now other.now (pair_answer result) }
{
    if !rows::is_row(row) {
        Err(Reason::NoRow.at(0))
    } else if !rows::is_row(other) {
        Err(Reason::NoRow.at(0).of_second())
    } else {
        compare_rows(row, other)
    }
}
