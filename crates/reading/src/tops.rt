// Reads the top of a tree: a rooted tree's is a node, an unrooted one's a label, or a bracket with two labels or three nodes.
// Three nodes a, b and c are held as the fork of a and the fork of b and c.
ghost use Rattle.std.specs.Prelude.{◌-◌};
ghost use Rattle.meaning.specs.Kind.{unrooted};
ghost use Rattle.meaning.specs.Tree.{Tree as Topology};
ghost use Rattle.meaning.specs.Limits.{max_open};
ghost use Rattle.meaning.specs.Reading.{read_node, third_at, three_at, top_at};
ghost use Rattle.held.specs.Kept.{kind_of};
ghost use Rattle.tokens.specs.Draft.{Draft};
ghost use Rattle.reading.specs.Opening.{TopMeets, Halves, HasHalves};

use held::{Kind, Tree};
use tokens::{Marks, Reason, Refusal, Step};

// Brackets that may open inside that of a top.
const INNER_OPEN: usize = Tree::MAX_OPEN - 1;

// The rest of a top behind its nodes a and b: `)` where these are two labels, or a third node. The byte at `half`, before b, is
// that of the fork of b and the third; of two labels, which are nodes 1 and 3, the second takes its place.
fn read_third(
    s: &[u8],
    from: usize,
    node: &mut [u8],
    half: usize,
    end: usize,
    marks: &mut Marks,
) -> Result<Step, Refusal>
    requires { HasHalves node.old marks.old half end }
    ensures { (a b : Topology) → Halves node.old marks.old half end a b
        → TopMeets node.new (third_at (read_node (max_open - 1) s.now) s.now a b from) result }
{
    let two_labels = end == 4;
    if two_labels {
        let q = tokens::skip_blanks(s, from);
        if tokens::byte_at(s, q) == b')' {
            node[2] = node[3];
            node[0] = super::fork_byte(0, 3);
            return Ok(Step {
                behind: q + 1,
                nodes: 3,
            });
        }
    }
    let comma = tokens::expect_byte(s, from, b',')?;
    let third = super::read_node(s, comma, INNER_OPEN, node, end, marks)?;
    let last = third.nodes;
    node[half] = super::fork_byte(half, last);
    node[0] = super::fork_byte(0, last);
    Ok(Step {
        behind: tokens::expect_byte(s, third.behind, b')')?,
        nodes: last,
    })
}

// The rest of an unrooted tree's top, behind its bracket.
fn read_three(s: &[u8], from: usize, node: &mut [u8], marks: &mut Marks) -> Result<Step, Refusal>
    requires { Draft node.old marks.old 0 max_open }
    ensures { TopMeets node.new (three_at (read_node (max_open - 1) s.now) s.now from) result }
{
    node[0] = 0;
    let first = super::read_node(s, from, INNER_OPEN, node, 1, marks)?;
    let comma = tokens::expect_byte(s, first.behind, b',')?;
    let half = first.nodes;
    node[half] = 0;
    let second = super::read_node(s, comma, INNER_OPEN, node, half + 1, marks)?;
    read_third(s, second.behind, node, half, second.nodes, marks)
}

// The top of an unrooted tree: as `read_node`, but for what a bracket opens. One function of both would take that as a closure which
// calls it again.
fn read_unrooted(s: &[u8], from: usize, node: &mut [u8], marks: &mut Marks) -> Result<Step, Refusal>
    requires { Draft node.old marks.old 0 max_open }
    ensures { TopMeets node.new (top_at unrooted s.now from) result }
{
    let q = tokens::skip_blanks(s, from);
    let b = tokens::byte_at(s, q);
    if tokens::is_digit(b) {
        return tokens::read_label(s, q, node, 0, marks);
    }
    if b == b'(' {
        return read_three(s, q + 1, node, marks);
    }
    Err(Reason::WrongByte.at(q))
}

/// The top of a tree of this kind, as the draft's first nodes. Refused at the place of the first byte, label or bracket that can't
/// stand there.
pub fn read_top(
    s: &[u8],
    from: usize,
    kind: Kind,
    node: &mut [u8],
    marks: &mut Marks,
) -> Result<Step, Refusal>
    requires { Draft node.old marks.old 0 max_open }
    ensures { TopMeets node.new (top_at (kind_of kind) s.now from) result }
{
    // The kind is that of the text, so it is known when the call runs.
    match kind {
        Kind::Rooted => super::read_node(s, from, Tree::MAX_OPEN, node, 0, marks),
        Kind::Unrooted => read_unrooted(s, from, node, marks),
    }
}
