#![tactic(auto)]
// The pair lister's sheet, and in the module `islands` that of islands, written into lent memory: each function returns the
// place behind what it wrote.
pub mod islands;

ghost use Rattle.std.specs.Prelude.{◌≡◌, List, ◌≤◌, length};
ghost use Rattle.meaning.specs.Limits.{sheet_bytes};
ghost use Rattle.meaning.specs.Kind.{Trees};
ghost use Rattle.meaning.specs.Listing.{Pair, flat};
ghost use Rattle.meaning.specs.Sheet.{refusal_line, tree_lines, pair_lines, sheet, SheetOf};
ghost use Rattle.lent.specs.Runs.{Wrote};
ghost use Rattle.graph.specs.Listed.{PairsListed};
ghost use Rattle.tokens.specs.Paper.{number_of};
ghost use Rattle.sheet.specs.Lines.{TreesListed, UnlinkedRoom, unlinked_numbers, TreeLinesFit, PairLinesFit, SheetFits};
ghost use Rattle.sheet.specs.Printed.{TableFits, ShownAll, Printed};

use held::{Table, Tree};
pub use islands::{IslandSheet, print_islands};
use links::Copies;
use reading::Takes;
use tokens::Refusal;

// The home of the sheet's size.
#[derive(Drop)]
pub struct Sheet {}

impl Sheet {
    // Bytes of the longest first line, of the longest line of a tree, and of a pair.
    const FIRST_LINE: usize = 22;

    const TREE_LINE: usize = 38 + Tree::KIND_BYTES;

    const PAIR_LINE: usize = 13;

    // Bytes lent for a sheet: of its first line, of each tree and of each pair.
    pub const MAX_BYTES: usize = Sheet::FIRST_LINE
        + Table::MAX_TREES * Sheet::TREE_LINE
        + Table::PAIR_NUMBERS / 2 * Sheet::PAIR_LINE;
}

// Writes the unlinked number of each tree, from the start of `unlinked` on: all trees less its neighbours, whose numbers
// `counts` begins with, and less its copies, which are the trees with the same first position.
fn note_unlinked(unlinked: &mut [u16], counts: &[u16], firsts: &[u16], table: Table)
    requires { UnlinkedRoom table counts.now firsts.now (length unlinked.old) }
    ensures { (ts : Trees) (ps : List Pair) → TreesListed table counts.now firsts.now ts ps
        → Wrote (unlinked_numbers ts.trees ps) unlinked.old unlinked.new 0 (length ts.trees) }
{
    let n = table.len;
    let mut copies = [0u16; Table::MAX_TREES];
    lent::tally(&mut copies, firsts, n);
    // Three arrays at one index, of which one is written: a zip of them is longer.
    for i in 0..n {
        let linked = counts[i] as usize;
        let same = copies[firsts[i] as usize] as usize;
        unlinked[i] = (n - linked - same) as u16;
    }
}

// Writes a line for each tree of the table; `counts` begins with their neighbour counts, and `firsts` with the first position
// of each topology.
fn write_tree_lines(
    out: &mut [u8],
    at: usize,
    table: Table,
    counts: &[u16],
    firsts: &[u16],
) -> usize
    requires { TreeLinesFit table counts.now firsts.now at (length out.old) }
    ensures { (ts : Trees) (ps : List Pair) → TreesListed table counts.now firsts.now ts ps
        → Wrote (tree_lines ts ps 0 ts.trees) out.old out.new at result }
{
    let mut unlinked = [0u16; Table::MAX_TREES];
    note_unlinked(&mut unlinked, counts, firsts, table);
    let mut next = at;
    // Three arrays at one index, which is written too: a zip of them is longer.
    for i in 0..table.len {
        let neighbours = counts[i] as usize;
        let others = unlinked[i] as usize;
        next = writing::write_tree_line(out, next, i, neighbours, others, table.trees[i]);
    }
    next
}

// Writes a line for each pair; `pairs` are i and j of each.
fn write_pair_lines(out: &mut [u8], at: usize, pairs: &[u16]) -> usize
    requires { PairLinesFit pairs.now at (length out.old) }
    ensures { (ps : List Pair) → pairs.now ≡ flat ps → Wrote (pair_lines ps) out.old out.new at result }
{
    let mut next = at;
    for &[i, j] in pairs.as_chunks::<2>().0 {
        next = writing::write_pair_line(out, next, i as usize, j as usize);
    }
    next
}

// Writes the sheet of the table's trees from the start of `out` on; m pairs are listed, the neighbours counted and the first
// positions noted.
fn write_sheet(
    out: &mut [u8],
    table: Table,
    pairs: &[u16],
    counts: &[u16],
    firsts: &[u16],
    m: usize,
) -> usize
    requires { SheetFits table pairs.now counts.now firsts.now m (length out.old) }
    ensures { (ts : Trees) (ps : List Pair) → TreesListed table counts.now firsts.now ts ps → PairsListed pairs.now m ps
        → Wrote (sheet ts ps) out.old out.new 0 result }
{
    let trees = writing::write_first_line(out, 0, table.len, m);
    let links = write_tree_lines(out, trees, table, counts, firsts);
    write_pair_lines(out, links, &pairs[..2 * m])
}

// Lists the pairs of the table's trees in memory of its own, with copies kept apart, and writes their sheet.
fn write_table_sheet(out: &mut [u8], table: Table) -> usize
    requires { TableFits table sheet_bytes (length out.old) }
    ensures { ShownAll SheetOf table out.old out.new result }
{
    let mut pairs = [0u16; Table::PAIR_NUMBERS];
    let mut counts = [0u16; Table::MAX_TREES];
    let mut firsts = [0u16; Table::MAX_TREES];
    let m = graph::list_moves(
        &mut pairs,
        &mut counts,
        &mut firsts,
        table,
        Copies::KeptApart,
    );
    write_sheet(out, table, &pairs, &counts, &firsts, m)
}

// Writes the line of a refusal, which is all that is printed for a text that is refused.
fn print_refusal(out: &mut [u8], x: Refusal) -> usize
    requires { length (refusal_line (number_of x.reason) x.place) ≤ length out.old }
    ensures { Wrote (refusal_line (number_of x.reason) x.place) out.old out.new 0 result }
{
    writing::write_refusal(out, 0, usize::from(x.reason.number()), x.place)
}

// Writes what the pair lister prints for the text s from the start of `out` on; returns the number of its bytes.
pub fn print_sheet(s: &[u8], out: &mut [u8]) -> usize
    requires { sheet_bytes ≤ length out.old }
    ensures { Printed SheetOf s.now out.old out.new result }
{
    match tables::read_lent_table(s, true, Takes::Either) {
        Ok(table) => write_table_sheet(out, table),
        Err(x) => print_refusal(out, x),
    }
}

// The same, in memory of the stated size.
// docs/READING.md names it and its clause; `sheet_call` needs `print_sheet`, as C lends a slice of any length.
pub fn sheet_of(s: &[u8], out: &mut [u8; Sheet::MAX_BYTES]) -> usize
    ensures { Printed SheetOf s.now out.old out.new result }
{
    print_sheet(s, out)
}
