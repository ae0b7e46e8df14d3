#![tactic(auto)]
// A tree's forks by their clades, the clades of two or more labels: those of a held tree listed. The module `clade` has what is
// asked of one: its labels, and which clade is its first child.
pub mod clade;

ghost use Rattle.meaning.specs.Tree.{Tree as Topology, canon};
ghost use Rattle.lent.specs.Runs.{Wrote};
ghost use Rattle.held.specs.Kept.{Keeps};
ghost use Rattle.families.specs.Clades.{clades as clades_of};
ghost use Rattle.forks.specs.Noting.{NoteRoom};

pub use clade::Clade;
use held::{Node, Tree};

/// Notes the clades of two or more labels of the tree from `at` on, in the order of its nodes; returns the place behind them.
pub fn note_clades(xs: &mut [u64], at: usize, tree: Tree) -> usize
    requires { NoteRoom tree xs.old at }
    ensures { (t : Topology) → Keeps tree t → Wrote (clades_of (canon t)) xs.old xs.new at result }
{
    let n = tree.node;
    let mut m = [0u64; Tree::MAX_NODES];
    clades::note(&mut m, &n);
    let nodes = Node::new(&n, 0).width();
    let mut next = at;
    // By number: a node and its clade stand at one place of two arrays, and a zip of both parts is no shorter.
    for k in 0..nodes {
        let fork = n[k] > Tree::FORK;
        if fork {
            xs[next] = m[k];
            next += 1;
        }
    }
    next
}
