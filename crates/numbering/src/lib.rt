#![tactic(auto)]
// Islands: positions that chains of listed pairs join, and their copies. The number of each is the smallest position in it.
ghost use Rattle.std.specs.Prelude.{◌≡◌, List, map, ◌<◌, length};
ghost use Rattle.meaning.specs.Listing.{Pair, flat};
ghost use Rattle.meaning.specs.Islands.{renumbered, unite, unite_all};
ghost use Rattle.graph.specs.Graph.{slices};
ghost use Rattle.numbering.specs.Islands.{IslandsRoom, IslandGraphRoom, IslandsWritten};

use held::Table;
use links::Copies;

// `to` in place of `from`.
fn renumbered(from: u16, to: u16, x: u16) -> u16
    ensures { result ≡ renumbered from to x }
{
    if x == from { to } else { x }
}

// Puts `to` in place of `from` among the numbers.
fn renumber(numbers: &mut [u16], from: u16, to: u16)
    ensures { numbers.new ≡ map (renumbered from to) numbers.old }
{
    for x in numbers {
        *x = renumbered(from, to, *x);
    }
}

// Makes the islands of i and j one, whose numbers are among these; the smaller number stays.
fn unite(numbers: &mut [u16], i: usize, j: usize)
    requires { (i < length numbers.old) × (j < length numbers.old) }
    ensures { numbers.new ≡ unite numbers.old i j }
{
    let a = numbers[i];
    let b = numbers[j];
    if a < b {
        renumber(numbers, b, a);
    } else if b < a {
        renumber(numbers, a, b);
    }
}

// Writes the number of the island of each position. A position begins with the number of its first; `pairs` are the listed pairs.
fn number_islands(numbers: &mut [u16], firsts: &[u16], pairs: &[u16])
    requires { IslandsRoom numbers.old firsts.now pairs.now }
    ensures { (ps : List Pair) → pairs.now ≡ flat ps → numbers.new ≡ unite_all firsts.now ps }
{
    lent::copy(numbers, 0, firsts, 0, firsts.len());
    for &[i, j] in pairs.as_chunks::<2>().0 {
        unite(numbers, i as usize, j as usize);
    }
}

// Lists the pairs of first positions of the table's trees that are one move apart, the neighbour counts and the firsts, and
// writes the number of each tree's island; returns the number of pairs.
pub fn list_islands(
    pairs: &mut [u16],
    counts: &mut [u16],
    firsts: &mut [u16],
    islands: &mut [u16],
    table: Table,
) -> usize
    requires { IslandGraphRoom table (slices pairs.old counts.old) firsts.old islands.old }
    ensures { IslandsWritten table (slices pairs.old counts.old)
        (slices pairs.new counts.new) firsts.old firsts.new
        islands.old islands.new result }
{
    let m = graph::list_moves(pairs, counts, firsts, table, Copies::Merged);
    let n = table.len;
    number_islands(&mut islands[..n], &firsts[..n], &pairs[..2 * m]);
    m
}
