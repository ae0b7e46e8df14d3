// The tree of a row. Clades with the same smallest label are nested, so they ascend in the row as they grow: the first child
// of one is the last such clade before it, and the second child is the last of all clades with its own smallest label. A place
// is a clade's index in the row; 0, which is that of the label set, stands for a label alone.
ghost use Rattle.std.specs.Prelude.{◌≡◌, true, ◌≤◌, ◌<◌, length, drop};
ghost use Rattle.meaning.specs.Tree.{Tree as Topology};
ghost use Rattle.meaning.specs.Limits.{max_label};
ghost use Rattle.meaning.specs.Clade.{lowest};
ghost use Rattle.meaning.specs.Kind.{rooted};
ghost use Rattle.lent.specs.Runs.{Wrote};
ghost use Rattle.held.specs.Held.{pre};
ghost use Rattle.held.specs.Kept.{KeepsKind};
ghost use Rattle.families.specs.Grown.{GrowsTo};
ghost use Rattle.families.specs.Row.{is_row, row_tree};
ghost use Rattle.rows.specs.Places.{last_place, clade_at};
ghost use Rattle.rows.specs.Rows.{RowNoted, GrowRoom};

use crate::Row;
use forks::Clade;
use held::{Kind, Tree};

// A row, and the places that are noted of it: for each clade that of the last before it with the same smallest label, and for
// each label that of the last with it. A place is kept as a byte, in fixed memory, so 0 is a number and no `None`.
#[derive(Drop)]
struct Places<'a> {
    row: &'a [u64],
    before: [u8; Row::NUMBERS],
    last: [u8; Row::NUMBERS],
    ghost noted: { RowNoted row.now before last },
}

impl<'a> Places<'a> {
    fn new(row: &'a [u64]) -> Self
        requires { is_row row.now ≡ true }
        ensures { result.row.now ≡ row.now }
    {
        let mut before = [0u8; Row::NUMBERS];
        let mut last = [0u8; Row::NUMBERS];
        // By number, since the place is what is noted; `as`: no `From` of a narrower type, and a `TryFrom` would have an `Err` that
        // never comes.
        for i in 1..row.len() {
            let l = usize::from(Clade::new(row[i]).smallest()) - 1;
            before[i] = last[l];
            last[l] = i as u8;
        }
        Self { row, before, last }
    }

    // The place of the last clade with the smallest label of c.
    fn last_like(&self, c: Clade) -> u8
        requires { lowest c ≤ max_label }
        ensures { result ≡ last_place self.now.row.now (length self.now.row.now) (lowest c) }
    {
        self.last[usize::from(c.smallest()) - 1]
    }

    // The clade at a place; at 0 the smallest label of c alone.
    fn clade_at(&self, place: u8, c: Clade) -> Clade
        requires { (place < length self.now.row.now) × (0 < c) }
        ensures { result ≡ clade_at self.now.row.now place c }
    {
        if place > 0 {
            Clade::new(self.row[usize::from(place)])
        } else {
            c.low_bit()
        }
    }

    // Writes the nodes of the tree that grows to c, the clade at `place`, from `at` on; returns the place behind them.
    fn grow(&self, out: &mut [u8], at: usize, place: u8, c: Clade) -> usize
        requires { GrowRoom self.now.row.now place c at (length out.old) }
        ensures { (t : Topology) → GrowsTo (drop 1 self.now.row.now) c t → Wrote (pre t) out.old out.new at result }
    {
        let leaf = place == 0;
        if leaf {
            out[at] = c.smallest();
            return at + 1;
        }
        let first = self.before[usize::from(place)];
        let child = self.clade_at(first, c);
        out[at] = Tree::FORK + c.labels();
        let next = self.grow(out, at + 1, first, child);
        let rest = c.without(child);
        let second = self.last_like(rest);
        self.grow(out, next, second, rest)
    }
}

/// The tree of a row.
pub fn tree_of(row: &[u64]) -> Tree
    requires { is_row row.now ≡ true }
    ensures { KeepsKind result (record { kind = rooted; tree = row_tree row.now }) }
{
    let places = Places::new(row);
    let s = Clade::new(row[0]);
    let mut node = [0u8; Tree::MAX_NODES];
    places.grow(&mut node, 0, places.last_like(s), s);
    Tree {
        node,
        kind: Kind::Rooted,
    }
}
