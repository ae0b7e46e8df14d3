#![tactic(auto)]
// Rows: a rooted tree as its label set and its clades of two or more labels in ascending order. Whether numbers are a row; the
// module `grown` makes the tree of a row, and `written` the row of a tree.
pub mod grown;
pub mod written;

ghost use Rattle.std.specs.Prelude.{◌≡◌};
ghost use Rattle.meaning.specs.Lists.{every};
ghost use Rattle.families.specs.Row.{fits, rises_from, all_fit, part_of, is_row};

use forks::Clade;
pub use grown::tree_of;
use held::Tree;
pub use written::write_row;

/// The home of a row's size.
#[derive(Drop)]
pub struct Row {}

impl Row {
    /// A tree of n leaves has a label set and n - 1 clades of two or more labels; `as`, since `usize::from` is no `const fn`.
    pub const NUMBERS: usize = Tree::MAX_LABEL as usize;
}

// Whether c and d are nested, one way or the other, or disjoint.
fn fit(c: Clade, d: Clade) -> bool
    ensures { result ≡ fits c d }
{
    c.is_inside(d) || d.is_inside(c) || c.bits() & d.bits() == 0
}

// Whether c has two or more labels, all of them in s.
fn is_part(s: Clade, c: Clade) -> bool
    ensures { result ≡ part_of s c }
{
    c.labels() >= 2 && c.is_inside(s)
}

// Whether the clades ascend, from above 0.
fn ascends(clades: &[u64]) -> bool
    ensures { result ≡ rises_from 0 clades.now }
{
    let Some(&first) = clades.first() else {
        return true;
    };
    first > 0 && clades.is_sorted_by(|c, d| c < d)
}

// Whether each of the clades is a part of s.
fn all_parts(clades: &[u64], s: Clade) -> bool
    ensures { result ≡ every (part_of s) clades.now }
{
    clades.iter().all(|&c| is_part(s, Clade::new(c)))
}

// Whether each of the clades fits c.
fn each_fits(clades: &[u64], c: Clade) -> bool
    ensures { result ≡ every (fits c) clades.now }
{
    clades.iter().all(|&d| fit(c, Clade::new(d)))
}

// Whether any two of the clades are nested or disjoint.
fn all_fit(clades: &[u64]) -> bool
    ensures { result ≡ all_fit clades.now }
{
    for (i, &c) in clades.iter().enumerate() {
        if !each_fits(&clades[i + 1..], Clade::new(c)) {
            return false;
        }
    }
    true
}

/// Whether the numbers are the row of a tree. A label set has at most 64 labels, so no longer slice is looked through.
pub fn is_row(row: &[u64]) -> bool
    ensures { result ≡ is_row row.now }
{
    let Some((&s, clades)) = row.split_first() else {
        return false;
    };
    let s = Clade::new(s);
    let whole = usize::from(s.labels()) == row.len();
    whole && ascends(clades) && all_parts(clades, s) && all_fit(clades)
}
