#![tactic(auto)]
// Clade support: the clades of a table's trees with the number of trees that have each, listed.
pub mod counted;
pub mod gather;

ghost use Rattle.std.specs.Prelude.{List};
ghost use Rattle.meaning.specs.Tree.{Tree as Topology};
ghost use Rattle.held.specs.Kept.{KeepsAll};
ghost use Rattle.support.specs.Supports.{SupportRoom, SupportListed};

use held::Table;
use sorting::Pool;

/// Lists each clade of two or more labels of the table's trees once, and how many trees have it; returns how many there are.
pub fn list_support(out: &mut [u64], outs: &mut [u16], table: Table) -> usize
    requires { SupportRoom table out.old outs.old }
    ensures { (ts : List Topology) → KeepsAll table ts
        → SupportListed ts out.old out.new outs.old outs.new result }
{
    let mut pool = [0u64; Pool::SIZE];
    let n = gather::gather(&mut pool, table);
    let pool = &mut pool[..n];
    sorting::sort(pool);
    let mut clades = [0u64; Pool::SIZE];
    let mut numbers = [0u16; Pool::SIZE];
    let m = counted::distinct(&mut clades, &mut numbers, pool);
    counted::regroup(out, outs, &clades[..m], &numbers[..m], table.len)
}
