// Links of first positions by a test that each two of them are put to.
ghost use Rattle.held.specs.Kept.{Kept};
ghost use Rattle.held.specs.declared.Tree.{Tree as Record};
ghost use Rattle.links.specs.Copies.{FirstsRoom};
ghost use Rattle.links.specs.Tested.{Tested};

use held::{Table, Tree};
use sharing::Links;

// Links the first positions of topologies that pass the test: each two that are not linked are tried.
pub fn link_tried<F: Fn(Tree, Tree) -> bool>(
    links: &mut Links,
    table: &Table,
    firsts: &[u16],
    test: F,
)
    requires room { FirstsRoom table.now firsts.now links.old }
    requires takes_kept { (a b : Record) → Kept a → Kept b → F.pre test a b }
    ensures { Tested (F.post test) table.now firsts.now links.old links.new }
{
    // By index: i and j are row and column of the square, and two trees of the table.
    for i in 0..table.len {
        for j in i + 1..table.len {
            let first = firsts[i] as usize == i && firsts[j] as usize == j;
            links[i][j] = links[i][j] || first && test(table.trees[i], table.trees[j]);
        }
    }
}
