// The sheet of islands: a line for each island of a table's trees.
ghost use Rattle.std.specs.Prelude.{length, take};
ghost use Rattle.meaning.specs.Limits.{island_sheet_bytes};
ghost use Rattle.meaning.specs.IslandSheet.{island_lines, IslandSheetOf};
ghost use Rattle.lent.specs.Runs.{Wrote};
ghost use Rattle.sheet.specs.Islands.{IslandLinesFit};
ghost use Rattle.sheet.specs.Printed.{TableFits, ShownAll, Printed};

use held::Table;
use reading::Takes;

// The home of the sheet's size.
#[derive(Drop)]
pub struct IslandSheet {}

impl IslandSheet {
    // Bytes of the longest line.
    const LINE: usize = 15;

    // Bytes lent for a sheet: of a line of each tree, should each be an island.
    pub const MAX_BYTES: usize = Table::MAX_TREES * IslandSheet::LINE;
}

// Writes a line for each island, in order of number; `numbers` begins with those of n positions.
fn write_island_lines(out: &mut [u8], numbers: &[u16], n: usize) -> usize
    requires { IslandLinesFit numbers.now n (length out.old) }
    ensures { Wrote (island_lines (take n numbers.now)) out.old out.new 0 result }
{
    let mut sizes = [0u16; Table::MAX_TREES];
    lent::tally(&mut sizes, numbers, n);
    let mut next = 0;
    // The number i is what is compared and printed.
    for i in 0..n {
        if numbers[i] as usize == i {
            next = writing::write_island_line(out, next, i, sizes[i] as usize);
        }
    }
    next
}

// Numbers the islands of the table's trees in memory of its own, and writes their lines.
fn write_table_islands(out: &mut [u8], table: Table) -> usize
    requires { TableFits table island_sheet_bytes (length out.old) }
    ensures { ShownAll IslandSheetOf table out.old out.new result }
{
    let mut pairs = [0u16; Table::PAIR_NUMBERS];
    let mut counts = [0u16; Table::MAX_TREES];
    let mut firsts = [0u16; Table::MAX_TREES];
    let mut numbers = [0u16; Table::MAX_TREES];
    numbering::list_islands(&mut pairs, &mut counts, &mut firsts, &mut numbers, table);
    write_island_lines(out, &numbers, table.len)
}

// Writes what the islands program prints for the text s from the start of `out` on; returns the number of its bytes.
pub fn print_islands(s: &[u8], out: &mut [u8; IslandSheet::MAX_BYTES]) -> usize
    ensures { Printed IslandSheetOf s.now out.old out.new result }
{
    match tables::read_lent_table(s, true, Takes::Either) {
        Ok(table) => write_table_islands(out, table),
        Err(x) => super::print_refusal(out, x),
    }
}
