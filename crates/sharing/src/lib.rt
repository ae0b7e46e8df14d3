#![tactic(auto)]
// Which first positions have trees that share a forest. Each cut of each first tree is an entry, with the fingerprint of its forest
// as its key. Only entries with equal keys are compared, and these exactly, where their trees stand.
ghost use Rattle.std.specs.Prelude.{List, ℕ, unwrap_or};
ghost use Rattle.meaning.specs.Tree.{Tree as Topology};
ghost use Rattle.lent.specs.Runs.{Says};
ghost use Rattle.held.specs.Kept.{KeepsAll};
ghost use Rattle.pairs.specs.Pair.{SameForest};
ghost use Rattle.chains.specs.Chains.{Last};
ghost use Rattle.sharing.specs.Links.{OfTrees};
ghost use Rattle.sharing.specs.Entries.{forest_at, Entry, SameAs, Keyed, Laid, LayRoom, EntryIn, Seeks, Seekable, Linkable, LinkRoom, LinkedBack, SharesLinked, ShareRoom};

use chains::Entries;
use held::Table;

// Which positions are linked: i and j in row i and column j.
pub type Links = [[bool; Table::MAX_TREES]; Table::MAX_TREES];

// Lays out the keys of the first trees' cuts: that of node p of tree i, and of the cut there, at i * ROW + p.
pub fn lay_out(keys: &mut [u32], table: &Table, firsts: &[u16])
    requires { LayRoom table.now firsts.now keys.old }
    ensures { OfTrees table.now (λ ts. Keyed ts keys.new) }
{
    // Two arrays and the row's place hang on i: a zip with `enumerate` would name three things for it.
    for i in 0..table.len {
        if firsts[i] as usize == i {
            prints::note_keys(keys, i * Entries::ROW, table.trees[i]);
        }
    }
}

// Whether the entries q and e have the same forest.
fn same_forest_at(table: &Table, q: usize, e: usize) -> bool
    requires { EntryIn table.now q × EntryIn table.now e }
    ensures { (ts : List Topology) → KeepsAll table.now ts → Entry ts q → Entry ts e
        → Says result (SameForest (forest_at ts q) (forest_at ts e)) }
{
    let x = &table.trees[q / Entries::ROW].node;
    let y = &table.trees[e / Entries::ROW].node;
    pairs::same_forest(x, q % Entries::ROW - 1, y, e % Entries::ROW - 1)
}

// The last entry before e that has its forest. Equal forests have equal keys, so it is among those.
fn find_twin(table: &Table, same: &[u16; Entries::SIZE], e: usize) -> Option<usize>
    requires { Seekable table.now same.now e }
    ensures { (ts : List Topology) (keys : List ℕ) (end : ℕ) → Seeks ts table.now keys same.now end e
        → Last (SameAs ts e) e (unwrap_or result 0) }
{
    // No count: each entry names the next. `chains::find` walks so too: one function of both would take the test as a closure.
    let mut q = same[e] as usize;
    while q != 0 {
        if same_forest_at(table, q, e) {
            return Some(q);
        }
        q = same[q] as usize;
    }
    None
}

// Links the tree of e to those with its forest at an entry before.
fn link_back(links: &mut Links, twins: &[u16; Entries::SIZE], e: usize)
    requires { LinkRoom links.old twins.now e }
    ensures { (ts : List Topology) → Linkable ts twins.now e → LinkedBack ts links.old links.new e }
{
    let j = e / Entries::ROW;
    // No count: each entry names the next.
    let mut q = twins[e] as usize;
    while q != 0 {
        links[q / Entries::ROW][j] = true;
        q = twins[q] as usize;
    }
}

// Links the trees of the entries before `end` that share a forest.
pub fn link_sharing(
    links: &mut Links,
    table: &Table,
    keys: &[u32; Entries::SIZE],
    same: &[u16; Entries::SIZE],
    end: usize,
)
    requires { ShareRoom links.old table.now keys.now same.now end }
    ensures { (ts : List Topology) → Laid table.now ts keys.now
        → SharesLinked ts links.new end }
{
    let mut twins = [0u16; Entries::SIZE];
    // Entries are told by their numbers, which `find_twin` and `link_back` take and `twins` holds; 0 is none, as in `chains`.
    for e in 1..end {
        // Key 0 for none, in fixed memory: each key that is noted is above 0.
        if keys[e] != 0 {
            twins[e] = find_twin(table, same, e).unwrap_or(0) as u16;
            link_back(links, &twins, e);
        }
    }
}
