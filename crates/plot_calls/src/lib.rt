#![tactic(auto)]
// The public call that plots a tree. It asks nothing of its caller: what cannot be answered is refused, and a refusal changes no
// lent cell.
ghost use Rattle.std.specs.Prelude.{◌≡◌};
ghost use Rattle.plots.specs.PlotCall.{plot_call};
ghost use Rattle.plot_calls.specs.Paper.{plot_memory, plot_outcome};

use held::Tree;
use lent::enough;
use reading::Takes;
use tokens::Refusal;

/// Plot call: the row and the column of every node of the one tree of s, which has to be rooted, in the order of its canonical text,
/// from the start of `rows` and of `columns` on. Its size is how many nodes it has.
pub fn plot_call(s: &[u8], rows: &mut [f64], columns: &mut [u16]) -> Result<usize, Refusal>
    ensures { plot_outcome result rows.new columns.new ≡ plot_call s.now (plot_memory rows.old columns.old) }
{
    let columns_fit = enough(Tree::MAX_NODES, columns.len(), true);
    let fits = enough(Tree::MAX_NODES, rows.len(), columns_fit);
    let read = tables::read_lent(s, fits, Takes::RootedOnly)?;
    Ok(plotting::write_plot(rows, columns, read.tree))
}
