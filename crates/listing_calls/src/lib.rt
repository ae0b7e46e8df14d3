#![tactic(auto)]
// The public calls that list pairs, and the sheet call. None asks anything of its caller: what cannot be answered is refused, and
// a refusal changes no lent cell.
ghost use Rattle.std.specs.Prelude.{length};
ghost use Rattle.meaning.specs.Interchange.{OneInterchange};
ghost use Rattle.meaning.specs.Listing.{At};
ghost use Rattle.meaning.specs.Calls.{InterchangeCall, ChoosingCall, GraphCall, IslandsCall};
ghost use Rattle.meaning.specs.Sheet.{SheetCall};
ghost use Rattle.held.specs.Kept.{KeptAll};
ghost use Rattle.sharing.specs.Links.{OfTrees};
ghost use Rattle.links.specs.Copies.{choice_of};
ghost use Rattle.graph.specs.Graph.{slices, ListRoom, Graph};
ghost use Rattle.calls.specs.Paper.{text_outcome};
ghost use Rattle.listing_calls.specs.Paper.{graph_outcome, first_slices, firsts_outcome, island_slices, islands_outcome};

use held::Table;
use lent::enough;
use links::{Copies, Link};
use reading::Takes;
use sheet::Sheet;
use tokens::{Reason, Refusal};

// How much the graph calls list: trees, and pairs.
#[derive(Clone, Copy, Debug, PartialEq, Eq)]
pub struct GraphSize {
    pub trees: usize,
    pub pairs: usize,
}

// Lists the pairs of the table's trees that are one interchange apart, with copies kept apart and the first positions noted in
// memory of its own; returns the number of pairs.
fn list_interchanges(pairs: &mut [u16], counts: &mut [u16], table: Table) -> usize
    requires { KeptAll table × ListRoom (slices pairs.old counts.old) }
    ensures { OfTrees table (λ ts. Graph (length ts) (At OneInterchange ts) (slices pairs.old counts.old)
        (slices pairs.new counts.new) result) }
{
    let mut firsts = [0u16; Table::MAX_TREES];
    graph::list_pairs(
        pairs,
        counts,
        &mut firsts,
        table,
        Link::Interchange,
        Copies::KeptApart,
    )
}

// Interchange call: the pairs of rooted trees that are one interchange apart, i and then j of each, and the neighbour count of
// each tree.
pub fn interchange_call(
    s: &[u8],
    pairs: &mut [u16],
    counts: &mut [u16],
) -> Result<GraphSize, Refusal>
    ensures { InterchangeCall s.now (slices pairs.old counts.old)
        (graph_outcome result pairs.new counts.new) }
{
    let counts_fit = enough(Table::MAX_TREES, counts.len(), true);
    let fits = enough(Table::PAIR_NUMBERS, pairs.len(), counts_fit);
    let table = tables::read_lent_table(s, fits, Takes::RootedOnly)?;
    Ok(GraphSize {
        trees: table.len,
        pairs: list_interchanges(pairs, counts, table),
    })
}

// Graph call with a stated choice: the pairs that are one move apart, with copies merged or kept apart, and for every tree its
// neighbour count and the first position of its topology.
pub fn graph_call_choosing(
    s: &[u8],
    copies: Copies,
    pairs: &mut [u16],
    counts: &mut [u16],
    firsts: &mut [u16],
) -> Result<GraphSize, Refusal>
    ensures { ChoosingCall (choice_of copies) s.now (first_slices pairs.old counts.old firsts.old)
        (firsts_outcome result pairs.new counts.new firsts.new) }
{
    let firsts_fit = enough(Table::MAX_TREES, firsts.len(), true);
    let counts_fit = enough(Table::MAX_TREES, counts.len(), firsts_fit);
    let fits = enough(Table::PAIR_NUMBERS, pairs.len(), counts_fit);
    let table = tables::read_lent_table(s, fits, Takes::Either)?;
    Ok(GraphSize {
        trees: table.len,
        pairs: graph::list_moves(pairs, counts, firsts, table, copies),
    })
}

// Graph call: copies are merged.
pub fn graph_call(
    s: &[u8],
    pairs: &mut [u16],
    counts: &mut [u16],
    firsts: &mut [u16],
) -> Result<GraphSize, Refusal>
    ensures { GraphCall s.now (first_slices pairs.old counts.old firsts.old)
        (firsts_outcome result pairs.new counts.new firsts.new) }
{
    graph_call_choosing(s, Copies::Merged, pairs, counts, firsts)
}

// Islands call: what the graph call gives, and for each tree the number of its island.
pub fn islands_call(
    s: &[u8],
    pairs: &mut [u16],
    counts: &mut [u16],
    firsts: &mut [u16],
    islands: &mut [u16],
) -> Result<GraphSize, Refusal>
    ensures { IslandsCall s.now (island_slices pairs.old counts.old firsts.old islands.old)
        (islands_outcome result pairs.new counts.new firsts.new islands.new) }
{
    let islands_fit = enough(Table::MAX_TREES, islands.len(), true);
    let firsts_fit = enough(Table::MAX_TREES, firsts.len(), islands_fit);
    let counts_fit = enough(Table::MAX_TREES, counts.len(), firsts_fit);
    let fits = enough(Table::PAIR_NUMBERS, pairs.len(), counts_fit);
    let table = tables::read_lent_table(s, fits, Takes::Either)?;
    Ok(GraphSize {
        trees: table.len,
        pairs: numbering::list_islands(pairs, counts, firsts, islands, table),
    })
}

// Sheet call: what the pair lister prints for s, from the start of out on; a text that is refused has its line printed.
pub fn sheet_call(s: &[u8], out: &mut [u8]) -> Result<usize, Refusal>
    ensures { SheetCall s.now out.old (text_outcome result out.new) }
{
    if !enough(Sheet::MAX_BYTES, out.len(), true) {
        return Err(Reason::ShortSlice.at(0));
    }
    Ok(sheet::print_sheet(s, out))
}
