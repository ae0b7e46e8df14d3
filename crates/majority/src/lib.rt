#![tactic(auto)]
// The majority tree of a table, written as text. Its clades stand at the front of the list of support.
ghost use Rattle.std.specs.Prelude.{◌≡◌, List, ◌+◌, ◌*◌, ◌≤◌, ltb, length};
ghost use Rattle.meaning.specs.Tree.{Tree as Topology};
ghost use Rattle.lent.specs.Runs.{Wrote};
ghost use Rattle.held.specs.Kept.{KeepsAll};
ghost use Rattle.families.specs.Grown.{GrowsTo};
ghost use Rattle.families.specs.Majority.{majority_text};
ghost use Rattle.majority.specs.Front.{Front};
ghost use Rattle.majority.specs.Texts.{bracket, marked, CladeRoom, MajorityRoom};

use forks::Clade;
use held::Table;

// Writes a bracket, if the clade is a node; returns the place behind it. An `Option` of the byte in place of `node` would be made
// anew at each of the two calls.
fn write_bracket(out: &mut [u8], at: usize, byte: u8, node: bool) -> usize
    requires { at + length (bracket node byte) ≤ length out.old }
    ensures { Wrote (bracket node byte) out.old out.new at result }
{
    if node {
        out[at] = byte;
        return at + 1;
    }
    at
}

// Writes the tree that grows to c from the clades, with brackets at these clades only; returns the place behind it.
fn write_clade(out: &mut [u8], at: usize, clades: &[u64], c: Clade) -> usize
    requires { CladeRoom clades.now c at (length out.old) }
    ensures { (t : Topology) → GrowsTo clades.now c t → Wrote (marked clades.now t) out.old out.new at result }
{
    if c.labels() < 2 {
        return writing::write_number(out, at, usize::from(c.smallest()));
    }
    let node = clades.contains(&c.bits());
    let child = c.first_child(clades);
    let first = write_bracket(out, at, b'(', node);
    let comma = write_clade(out, first, clades, child);
    out[comma] = b',';
    let close = write_clade(out, comma + 1, clades, c.without(child));
    write_bracket(out, close, b')', node)
}

// Whether the number is more than half of the trees.
fn is_above_half(number: u16, trees: usize) -> bool
    ensures { result ≡ ltb trees (2 * number) }
{
    trees < 2 * usize::from(number)
}

// How many of the numbers, from the start on, are more than half of the trees.
fn above_half(numbers: &[u16], trees: usize) -> usize
    ensures { Front numbers.now trees result }
{
    numbers
        .iter()
        .take_while(|&&number| is_above_half(number, trees))
        .count()
}

/// Writes the text of the table's majority tree, where the first n clades are its list of support; returns the place behind it.
// n says how much of the two slices is the list: C lends them whole.
pub fn write_majority(
    out: &mut [u8],
    clades: &[u64],
    numbers: &[u16],
    n: usize,
    table: Table,
) -> usize
    requires { MajorityRoom table clades.now numbers.now n (length out.old) }
    ensures { (ts : List Topology) → KeepsAll table ts
        → Wrote (majority_text ts) out.old out.new 0 result }
{
    if table.len == 0 {
        return 0;
    }
    let k = above_half(&numbers[..n], table.len);
    let whole = Clade::new(clades::labels(table.trees[0]));
    let end = write_clade(out, 0, &clades[..k], whole);
    out[end] = b';';
    end + 1
}
