#![tactic(auto)]
// The public calls on clades. None asks anything of its caller: what cannot be answered is refused, and a refusal changes no lent
// cell.
ghost use Rattle.std.specs.Prelude.{◌≡◌, List, Ok};
ghost use Rattle.meaning.specs.Tree.{Tree as Topology};
ghost use Rattle.held.specs.Kept.{KeepsAll};
ghost use Rattle.families.specs.SupportCall.{support_of, support_call};
ghost use Rattle.clade_calls.specs.Paper.{support_memory, support_outcome};
ghost use Rattle.clade_calls.specs.Tabled.{SupportCallRoom};

use held::{Table, Tree};
use lent::enough;
use reading::Takes;
use sorting::Pool;
use tokens::Refusal;

/// How much the support call writes: clades, bytes of the majority tree's text, and trees.
#[derive(Clone, Copy, Debug, PartialEq, Eq)]
pub struct SupportSize {
    pub clades: usize,
    pub bytes: usize,
    pub trees: usize,
}

// `clades` and `numbers` are two slices, as C lends them to `support_call`.
// Lists the clades of the table's trees and in how many each occurs, and writes the majority tree.
fn write_support(
    clades: &mut [u64],
    numbers: &mut [u16],
    text: &mut [u8],
    table: Table,
) -> SupportSize
    requires { SupportCallRoom table (support_memory clades.old numbers.old text.old) }
    ensures { (ts : List Topology) → KeepsAll table ts
        → support_outcome (Ok result) clades.new numbers.new text.new
        ≡ support_of ts (support_memory clades.old numbers.old text.old) }
{
    let trees = table.len;
    let n = support::list_support(clades, numbers, table);
    let bytes = majority::write_majority(text, clades, numbers, n, table);
    SupportSize {
        clades: n,
        bytes,
        trees,
    }
}

/// Support call: the clades of two or more labels of the trees of s, which have to be rooted, in how many trees each occurs, and the majority tree.
pub fn support_call(
    s: &[u8],
    clades: &mut [u64],
    numbers: &mut [u16],
    text: &mut [u8],
) -> Result<SupportSize, Refusal>
    ensures { support_outcome result clades.new numbers.new text.new
        ≡ support_call s.now (support_memory clades.old numbers.old text.old) }
{
    let text_fits = enough(Tree::FORM_BYTES, text.len(), true);
    let numbers_fit = enough(Pool::DISTINCT, numbers.len(), text_fits);
    let fits = enough(Pool::DISTINCT, clades.len(), numbers_fit);
    let table = tables::read_lent_table(s, fits, Takes::RootedOnly)?;
    Ok(write_support(clades, numbers, text, table))
}
