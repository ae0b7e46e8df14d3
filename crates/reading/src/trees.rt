// Reads a tree, and a text of exactly one tree of a kind that is taken.
ghost use Rattle.std.specs.Prelude.{◌≡◌};
ghost use Rattle.meaning.specs.Tree.{Tree as Topology};
ghost use Rattle.meaning.specs.Unrooted.{standing};
ghost use Rattle.meaning.specs.Reading.{tree_at, untaken as untaken_of, read_tree};
ghost use Rattle.held.specs.Kept.{kind_of, Keeps, Kept, KeepsKind};
ghost use Rattle.tokens.specs.Paper.{line_of};
ghost use Rattle.reading.specs.Whole.{takes_of, TreeMeets};

use super::tops::read_top;
use super::{Takes, TreeRead};
use held::{Kind, Tree};
use tokens::{Marks, Reason, Refusal, Run, read_mark};

/// Why a tree of this kind is not taken, where it is not.
pub fn untaken(takes: Takes, kind: Kind) -> Option<Reason>
    ensures { line_of result ≡ untaken_of (takes_of takes) (kind_of kind) }
{
    match (takes, kind) {
        (Takes::RootedOnly, Kind::Unrooted) => Some(Reason::OtherKind),
        _ => None,
    }
}

// The tree of this kind whose top was read as the rooted tree `top`.
fn standing(top: Tree, kind: Kind) -> Tree
    requires { Kept top }
    ensures { (t : Topology) → Keeps top t → KeepsKind result (record { kind = kind_of kind; tree = standing (kind_of kind) t }) }
{
    // The kind is that of the text, so it is known when the call runs.
    match kind {
        Kind::Rooted => Tree { kind, ..top },
        Kind::Unrooted => held::hung(top),
    }
}

/// The tree at `from`: a mark or none, the top and `;`. Refused with 1 to 4, at the first place where the text goes wrong.
pub fn read_at(s: &[u8], from: usize) -> Result<TreeRead, Refusal>
    ensures { TreeMeets (tree_at s.now from) result }
{
    let mark = read_mark(s, from)?;
    let mut node = [0u8; Tree::MAX_DRAFT];
    let mut marks: Marks = [false; Run::TOO_LARGE];
    let top = read_top(s, mark.behind, mark.kind, &mut node, &mut marks)?;
    let behind = tokens::expect_byte(s, top.behind, b';')?;
    Ok(TreeRead {
        tree: standing(Tree::canonical(&node), mark.kind),
        nodes: top.nodes,
        behind,
    })
}

/// A text with exactly one tree, of a kind that is taken: behind its `;` are blanks only. Refused as `read_at`; with 10, at the `;`,
/// where the kind is not taken; and then with 1, at the first byte that is no blank behind it.
pub fn read_tree(s: &[u8], takes: Takes) -> Result<TreeRead, Refusal>
    ensures { TreeMeets (read_tree (takes_of takes) s.now) result }
{
    let read = read_at(s, 0)?;
    if let Some(reason) = untaken(takes, read.tree.kind) {
        return Err(reason.at(read.behind - 1));
    }
    let end = tokens::skip_blanks(s, read.behind);
    if end < s.len() {
        return Err(Reason::WrongByte.at(end));
    }
    Ok(read)
}
