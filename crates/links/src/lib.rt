#![tactic(auto)]
// Which positions of a table are linked: first positions of topologies by a forest that they share or by a test of each two, and
// copies as their firsts are.
pub mod forests;
pub mod tried;

ghost use Rattle.std.specs.Prelude.{◌≡◌, ◌<◌, get_or, true};
ghost use Rattle.meaning.specs.Limits.{max_trees};
ghost use Rattle.sharing.specs.Links.{NoneLinked, Shows};
ghost use Rattle.links.specs.Copies.{link_of, FirstsRoom, FirstsLinked, CopyRoom, TreesLinked};

use forests::link_moves;
use held::Table;
use sharing::Links;
use tried::link_tried;

// What links two trees.
#[derive(Drop)]
pub enum Link {
    Move,
    UnrootedMove,
    Interchange,
}

// What becomes of copies: they are merged into the first of them, or kept apart.
#[derive(Drop)]
pub enum Copies {
    Merged,
    KeptApart,
}

// Links the first positions of topologies that are so linked.
fn link_firsts(links: &mut Links, table: &Table, firsts: &[u16], by: Link)
    requires { FirstsRoom table.now firsts.now links.old × NoneLinked links.old }
    ensures { FirstsLinked by table.now links.new }
{
    // Contracts cite `by`, as `FirstsLinked by` and `GraphWritten by`: closures would need the relation in a trait, and a type for each.
    match by {
        Link::Move => link_moves(links, table, firsts),
        Link::UnrootedMove => {
            link_moves(links, table, firsts);
            link_tried(links, table, firsts, unrooted::respun);
        }
        Link::Interchange => link_tried(links, table, firsts, interchanges::one_interchange_apart),
    }
}

// Whether two positions whose firsts are a and b are linked; copies are not.
fn link_of(links: &Links, a: usize, b: usize) -> bool
    requires { (a < max_trees) × (b < max_trees) }
    ensures { result ≡ link_of links.now a b }
{
    if a < b {
        links[a][b]
    } else {
        b < a && links[b][a]
    }
}

// Links each two of n positions whose firsts are linked.
fn copy_links(links: &mut Links, linked: &Links, firsts: &[u16], n: usize)
    requires { CopyRoom firsts.now n links.old }
    ensures { Shows links.new n (λ i j. link_of linked.now (get_or firsts.now i 0) (get_or firsts.now j 0) ≡ true) }
{
    // By index: i and j are row and column of the square, and two places of `firsts`.
    for i in 0..n {
        for j in i + 1..n {
            links[i][j] = link_of(linked, firsts[i] as usize, firsts[j] as usize);
        }
    }
}

// Links the positions of the table's trees that are so linked, with copies merged or kept apart.
pub fn link_positions(links: &mut Links, table: &Table, firsts: &[u16], by: Link, copies: Copies)
    requires { FirstsRoom table.now firsts.now links.old × NoneLinked links.old }
    ensures { TreesLinked by copies table.now links.new }
{
    // The caller of `norbelath_graph_choosing` chooses, so it is a value.
    match copies {
        Copies::Merged => link_firsts(links, table, firsts, by),
        Copies::KeptApart => {
            let mut linked = [[false; Table::MAX_TREES]; Table::MAX_TREES];
            link_firsts(&mut linked, table, firsts, by);
            copy_links(links, &linked, firsts, table.len);
        }
    }
}
