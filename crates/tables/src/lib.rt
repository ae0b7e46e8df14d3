#![tactic(auto)]
// Reads a text of many trees, each of which has to fit beside the first; the module `limited` reads a text for a call.
pub mod limited;

ghost use Rattle.std.specs.Prelude.{◌≡◌, List};
ghost use Rattle.meaning.specs.Kind.{Kinded, as_trees};
ghost use Rattle.meaning.specs.Reading.{unlike as unlike_of, like_first, read_table};
ghost use Rattle.held.specs.Kept.{Kept, KeepsKind, KeptAll, KeepsTrees};
ghost use Rattle.tokens.specs.Paper.{line_of};
ghost use Rattle.reading.specs.Whole.{takes_of};
ghost use Rattle.tables.specs.Table.{TableMeets};

use held::{Table, Tree};
pub use limited::{read_lent, read_lent_table};
use reading::Takes;
use tokens::{Reason, Refusal};

/// Why b can't stand beside a, where it can't: they are of two kinds, or have other labels.
pub fn unlike(a: Tree, b: Tree) -> Option<Reason>
    requires { Kept a × Kept b }
    ensures { (x y : Kinded) → KeepsKind a x → KeepsKind b y → line_of result ≡ unlike_of x y }
{
    if a.kind != b.kind {
        return Some(Reason::OtherKind);
    }
    if clades::same_labels(a, b) {
        None
    } else {
        Some(Reason::LabelsDiffer)
    }
}

// Why the tree can't stand behind those of the table: it has to fit beside the first, and the first be taken.
fn like_first(table: Table, tree: Tree, takes: Takes) -> Option<Reason>
    requires { KeptAll table × Kept tree }
    ensures { (xs : List Kinded) (x : Kinded) → KeepsTrees table (as_trees xs) → KeepsKind tree x
        → line_of result ≡ like_first (takes_of takes) xs x }
{
    if table.len == 0 {
        return reading::untaken(takes, tree.kind);
    }
    unlike(table.trees[0], tree)
}

/// A text of 0 to 160 trees, each of the kind and with the labels of the first, which is of a kind that is taken. Refused as
/// `reading::read_at`; with 10 or 5, at its `;`, where a tree can't stand behind those before it; and with 6 where anything but a
/// blank stands behind 160 trees, at that byte.
pub fn read_table(s: &[u8], takes: Takes) -> Result<Table, Refusal>
    ensures { TableMeets s.now (read_table (takes_of takes) s.now) result }
{
    let mut table = Table::empty();
    let mut at = tokens::skip_blanks(s, 0);
    // A tree ends where its text says: no iterator over `s` gives the places.
    while at < s.len() {
        let full = table.len == Table::MAX_TREES;
        if full {
            return Err(Reason::TooManyTrees.at(at));
        }
        let read = reading::read_at(s, at)?;
        if let Some(reason) = like_first(table, read.tree, takes) {
            return Err(reason.at(read.behind - 1));
        }
        table = table.push(read.tree);
        at = tokens::skip_blanks(s, read.behind);
    }
    Ok(table)
}
