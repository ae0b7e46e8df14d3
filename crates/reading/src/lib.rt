#![tactic(auto)]
// Reads tree text: nodes and forks; the modules read a top, a tree and a text of one tree.
mod tops;
pub mod trees;

ghost use Rattle.std.specs.Prelude.{◌≡◌, suc, ◌+◌, ◌-◌, ◌/◌, ◌≤◌, ◌<◌};
ghost use Rattle.meaning.specs.Limits.{max_label};
ghost use Rattle.meaning.specs.Reading.{fork_at, read_node};
ghost use Rattle.tokens.specs.Draft.{draft_bytes, seen, Draft, NodeMeets};

use held::Tree;
use tokens::{
    Marks, Reason, Refusal, Step, byte_at, expect_byte, is_digit, read_label, skip_blanks,
};
pub use trees::{read_at, read_tree, untaken};

/// A tree that was read, how many nodes it has, and the place behind it.
#[derive(Clone, Copy)]
pub struct TreeRead {
    pub tree: Tree,
    pub nodes: usize,
    pub behind: usize,
}

/// Which kinds of trees a call takes.
#[derive(Clone, Copy, Debug, PartialEq, Eq)]
pub enum Takes {
    Either,
    RootedOnly,
}

// The byte of a fork at the node `at` whose nodes end before `end`: 64 and its leaves.
fn fork_byte(at: usize, end: usize) -> u8
    requires { (at < end) × (end ≤ at + draft_bytes) }
    ensures { result ≡ max_label + (end - at + 1) / 2 }
{
    let leaves = (end - at + 1) / 2;
    // `as`: a `try_from` would have to say what becomes of a number above 255, and there is none here.
    Tree::FORK + leaves as u8
}

// The node at `from`, as the node `at`, where `room` more brackets may open.
// The draft's bytes, its marks and the place in it stay parameters here and below: what `Draft` says of them names the `room`, which
// falls with each bracket, so that it is no invariant of a type.
#[cycle(read_fork_read_node)]
fn read_node(
    s: &[u8],
    from: usize,
    room: usize,
    node: &mut [u8],
    at: usize,
    marks: &mut Marks,
) -> Result<Step, Refusal>
    requires { Draft node.old marks.old at room }
    ensures { NodeMeets node.old node.new marks.new at
        (read_node room s.now from (seen node.old at)) result }
{
    let q = skip_blanks(s, from);
    let b = byte_at(s, q);
    if is_digit(b) {
        return read_label(s, q, node, at, marks);
    }
    let opens = b == b'(';
    if opens {
        let too_deep = room == 0;
        if too_deep {
            return Err(Reason::TooDeep.at(q));
        }
        return read_fork(s, q + 1, room - 1, node, at, marks);
    }
    Err(Reason::WrongByte.at(q))
}

// The rest of a fork, behind its bracket, as the node `at`. Its byte is 0, which is no label, until its leaves are known.
#[cycle(read_fork_read_node)]
fn read_fork(
    s: &[u8],
    from: usize,
    room: usize,
    node: &mut [u8],
    at: usize,
    marks: &mut Marks,
) -> Result<Step, Refusal>
    requires { Draft node.old marks.old at (suc room) }
    ensures { NodeMeets node.old node.new marks.new at
        (fork_at (read_node room s.now) s.now from (seen node.old at)) result }
{
    node[at] = 0;
    let first = read_node(s, from, room, node, at + 1, marks)?;
    let comma = expect_byte(s, first.behind, b',')?;
    let second = read_node(s, comma, room, node, first.nodes, marks)?;
    node[at] = fork_byte(at, second.nodes);
    Ok(Step {
        behind: expect_byte(s, second.behind, b')')?,
        nodes: second.nodes,
    })
}
