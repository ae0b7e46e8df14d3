// Links of first positions by a forest that their trees share.
ghost use Rattle.sharing.specs.Links.{Square, NoneLinked};
ghost use Rattle.links.specs.declared.Link.TheVariants.{Move};
ghost use Rattle.links.specs.Copies.{FirstsRoom, FirstsLinked};

use chains::Entries;
use held::Table;
use sharing::Links;

// Links the first positions of topologies that are one move apart: distinct trees are exactly when they share a forest
// (Lemma 2.2 of document 001).
pub fn link_moves(links: &mut Links, table: &Table, firsts: &[u16])
    requires { FirstsRoom table.now firsts.now links.old × NoneLinked links.old }
    ensures { FirstsLinked Move table.now links.new × Square links.new }
{
    let mut keys = [0u32; Entries::SIZE];
    sharing::lay_out(&mut keys, table, firsts);
    let end = table.len * Entries::ROW;
    let mut same = [0u16; Entries::SIZE];
    chains::note_same(&mut same, &keys, end);
    sharing::link_sharing(links, table, &keys, &same, end);
}
