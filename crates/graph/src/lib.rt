#![tactic(auto)]
// The graph of a table: listing and counting its linked positions.
ghost use Rattle.std.specs.Prelude.{◌≡◌, ◌≤◌, ◌<◌};
ghost use Rattle.meaning.specs.Limits.{max_trees};
ghost use Rattle.meaning.specs.Loops.{row};
ghost use Rattle.held.specs.Kept.{kind_of};
ghost use Rattle.sharing.specs.Links.{LinkedIn, is_linked};
ghost use Rattle.graph.specs.Graph.{slices, PairRoom, PairAdded, PairsRoom, Listed, ListRoom, Graph};
ghost use Rattle.graph.specs.Copies.{GraphRoom, GraphWritten, move_of, MovesRoom, MovesWritten};

use held::{Kind, Table};
use links::{Copies, Link};
use sharing::Links;

// Lists the pair of i and j as number m, and counts it at both; returns the next number.
// `pairs`, `counts` and `firsts` stay three: C lends them so, and contracts join them by `slices`.
fn add_pair(pairs: &mut [u16], counts: &mut [u16], m: usize, i: usize, j: usize) -> usize
    requires { PairRoom (slices pairs.old counts.old) m i j }
    ensures { PairAdded (slices pairs.old counts.old)
        (slices pairs.new counts.new) m i j result }
{
    // `as`: a position fits, as is proved, where a `try_from` would have an `Err` that never comes.
    pairs[2 * m] = i as u16;
    pairs[2 * m + 1] = j as u16;
    counts[i] += 1;
    counts[j] += 1;
    m + 1
}

// Lists the linked pairs of row i among n positions as number m and on, and counts them; returns the next number.
fn list_row(
    pairs: &mut [u16],
    counts: &mut [u16],
    links: &Links,
    n: usize,
    i: usize,
    m: usize,
) -> usize
    requires { (i < n) × PairsRoom n (row n (is_linked links.now) i) (slices pairs.old counts.old) m }
    ensures { Listed (row n (is_linked links.now) i) (slices pairs.old counts.old)
        (slices pairs.new counts.new) m result }
{
    let mut next = m;
    // The number j is what is listed.
    for j in i + 1..n {
        let linked = links[i][j];
        if linked {
            next = add_pair(pairs, counts, next, i, j);
        }
    }
    next
}

// Lists the linked positions among n, in order of i, then j, as i and j from the start of `pairs` on, and the neighbour counts
// from the start of `counts` on; returns the number of pairs.
// n says how many rows of the square count: it is whole, in fixed memory.
pub fn list_links(pairs: &mut [u16], counts: &mut [u16], links: &Links, n: usize) -> usize
    requires { (n ≤ max_trees) × ListRoom (slices pairs.old counts.old) }
    ensures { Graph n (LinkedIn links.now) (slices pairs.old counts.old)
        (slices pairs.new counts.new) result }
{
    lent::fill(counts, 0, n, 0);
    let mut m = 0;
    // `list_row` takes the row's number.
    for i in 0..n {
        m = list_row(pairs, counts, links, n, i, m);
    }
    m
}

// Lists the pairs of positions of the table's trees that are so linked, with copies merged or kept apart, and the neighbour
// counts, and notes the first position of each topology; returns the number of pairs.
pub fn list_pairs(
    pairs: &mut [u16],
    counts: &mut [u16],
    firsts: &mut [u16],
    table: Table,
    by: Link,
    copies: Copies,
) -> usize
    requires { GraphRoom table (slices pairs.old counts.old) firsts.old }
    ensures { GraphWritten by copies table (slices pairs.old counts.old)
        (slices pairs.new counts.new) firsts.old firsts.new result }
{
    held::note_firsts(firsts, table);
    let mut links = [[false; Table::MAX_TREES]; Table::MAX_TREES];
    links::link_positions(&mut links, &table, firsts, by, copies);
    list_links(pairs, counts, &links, table.len)
}

// The move that links trees of this kind.
// No `From`: rooted trees are linked by interchanges too, so a kind alone does not say what links.
fn move_of(kind: Kind) -> Link
    ensures { result ≡ move_of (kind_of kind) }
{
    match kind {
        Kind::Rooted => Link::Move,
        Kind::Unrooted => Link::UnrootedMove,
    }
}

// Does so for the pairs that are one move apart, by the move of the trees' kind.
pub fn list_moves(
    pairs: &mut [u16],
    counts: &mut [u16],
    firsts: &mut [u16],
    table: Table,
    copies: Copies,
) -> usize
    requires { MovesRoom table (slices pairs.old counts.old) firsts.old }
    ensures { MovesWritten copies table (slices pairs.old counts.old)
        (slices pairs.new counts.new) firsts.old firsts.new result }
{
    let by = move_of(table.kind());
    list_pairs(pairs, counts, firsts, table, by, copies)
}
