// The clades of two or more labels of a table's trees, all in one array.
ghost use Rattle.std.specs.Prelude.{◌≡◌, List, map, length};
ghost use Rattle.meaning.specs.Tree.{Tree as Topology, canon};
ghost use Rattle.lent.specs.Runs.{Wrote};
ghost use Rattle.held.specs.Kept.{KeepsAll, KeptAll};
ghost use Rattle.families.specs.Support.{pooled};
ghost use Rattle.sorting.specs.Pool.{pool_size};

use held::Table;
use sorting::Pool;

/// Gathers the clades of two or more labels of the table's trees, tree by tree; returns how many there are.
pub fn gather(xs: &mut [u64; Pool::SIZE], table: Table) -> usize
    requires { KeptAll table × (length xs.old ≡ pool_size) }
    ensures { (ts : List Topology) → KeepsAll table ts
        → Wrote (pooled (map canon ts)) xs.old xs.new 0 result }
{
    let mut next = 0;
    for &tree in &table.trees[..table.len] {
        next = forks::note_clades(xs, next, tree);
    }
    next
}
