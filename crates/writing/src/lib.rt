#![tactic(auto)]
// Numbers, lines, canonical texts and forest texts, written into lent memory: each function returns the place behind what it wrote.
ghost use Rattle.std.specs.Prelude.{[], ◌∷◌, ◌++◌, ◌+◌, ◌≤◌, length};
ghost use Rattle.meaning.specs.Tree.{Tree as Topology, digits, write, canon};
ghost use Rattle.meaning.specs.Kind.{Kinded};
ghost use Rattle.meaning.specs.Unrooted.{bare, write_unrooted};
ghost use Rattle.meaning.specs.EitherKind.{write_as, form_as};
ghost use Rattle.meaning.specs.Move.{cut_at, forest};
ghost use Rattle.meaning.specs.Sheet.{two_fields, first_line, tree_line, pair_line, refusal_line};
ghost use Rattle.meaning.specs.IslandSheet.{island_line};
ghost use Rattle.lent.specs.Runs.{Wrote};
ghost use Rattle.held.specs.Node.{subtree};
ghost use Rattle.held.specs.Kept.{Keeps, KeepsKind, KeptKindRoom};
ghost use Rattle.writing.specs.Writing.{ForestFits};

// Numbers are written by hand and not by `Display`: they go into memory that C lends. `out` and `at` stay two parameters: each method of
// a struct that holds a `&mut` would have to ensure besides that it is the same memory.
use held::{Kind, Node, Shape, Tree};

/// Writes n in decimal into `out` from `at` on. The digits before the last are those of n / 10.
pub fn write_number(out: &mut [u8], at: usize, n: usize) -> usize
    requires { at + length (digits n) ≤ length out.old }
    ensures { Wrote (digits n) out.old out.new at result }
{
    if n <= 9 {
        // A digit: `try_from` would have a refusal here that never comes, and so below.
        out[at] = b'0' + n as u8;
        return at + 1;
    }
    let last = write_number(out, at, n / 10);
    out[last] = b'0' + (n % 10) as u8;
    last + 1
}

/// Writes the subtree as it is held, with no semicolon. The tree is walked down, and the leaves below the node fall.
pub fn write_node(out: &mut [u8], at: usize, node: Node) -> usize
    requires { at + length (write (subtree node)) ≤ length out.old }
    ensures { Wrote (write (subtree node.entry)) out.old out.new at result }
{
    match node.shape() {
        Shape::Leaf(label) => write_number(out, at, usize::from(label)),
        Shape::Fork(first, second) => {
            out[at] = b'(';
            let comma = write_node(out, at + 1, first);
            out[comma] = b',';
            let close = write_node(out, comma + 1, second);
            out[close] = b')';
            close + 1
        }
    }
}

// Writes the subtree and the byte `end` behind it.
fn write_part(out: &mut [u8], at: usize, node: Node, end: u8) -> usize
    requires { at + length (write (subtree node)) + 1 ≤ length out.old }
    ensures { Wrote (write (subtree node.entry) ++ (end ∷ [])) out.old out.new at result }
{
    let behind = write_node(out, at, node);
    out[behind] = end;
    behind + 1
}

// Writes the whole text, with nothing behind it.
fn write_text(out: &mut [u8], at: usize, text: &[u8]) -> usize
    requires { at + length text.now ≤ length out.old }
    ensures { Wrote text.now out.old out.new at result }
{
    lent::copy(out, at, text, 0, text.len())
}

// Writes the subtree as it is held, without brackets around it.
fn write_bare(out: &mut [u8], at: usize, node: Node) -> usize
    requires { at + length (bare (subtree node)) ≤ length out.old }
    ensures { Wrote (bare (subtree node.entry)) out.old out.new at result }
{
    match node.shape() {
        Shape::Leaf(_) => write_node(out, at, node),
        Shape::Fork(first, second) => {
            let next = write_part(out, at, first, b',');
            write_node(out, next, second)
        }
    }
}

// Writes the unrooted tree for which the held tree stands. A fork at its second child is the top, so its own brackets are
// left out and those of the root stand around all three.
fn write_unrooted(out: &mut [u8], at: usize, root: Node) -> usize
    requires { at + length (write_unrooted (subtree root)) ≤ length out.old }
    ensures { Wrote (write_unrooted (subtree root.entry)) out.old out.new at result }
{
    match root.shape() {
        Shape::Leaf(_) => write_node(out, at, root),
        Shape::Fork(first, second) => {
            out[at] = b'(';
            let next = write_part(out, at + 1, first, b',');
            let close = write_bare(out, next, second);
            out[close] = b')';
            close + 1
        }
    }
}

// Writes the tree as it is held, an unrooted one behind its mark, with no semicolon.
fn write_tree(out: &mut [u8], at: usize, tree: Tree) -> usize
    requires { KeptKindRoom (λ x. at + length (write_as x.kind (canon x.tree))) tree (length out.old) }
    ensures { (x : Kinded) → KeepsKind tree x
        → Wrote (write_as x.kind (canon x.tree)) out.old out.new at result }
{
    let root = Node::new(&tree.node, 0);
    // The kind is that of the text, so it is known when the call runs.
    match tree.kind {
        Kind::Rooted => write_node(out, at, root),
        Kind::Unrooted => {
            let top = write_text(out, at, b"[&U]");
            write_unrooted(out, top, root)
        }
    }
}

/// Writes the canonical text. A tree is in canonical order, so it is written as it is held.
pub fn write_form(out: &mut [u8], at: usize, tree: Tree) -> usize
    requires { KeptKindRoom (λ x. at + length (form_as x.kind x.tree)) tree (length out.old) }
    ensures { (x : Kinded) → KeepsKind tree x
        → Wrote (form_as x.kind x.tree) out.old out.new at result }
{
    let end = write_tree(out, at, tree);
    out[end] = b';';
    end + 1
}

/// Writes the forest text of cut c. What is left is put in canonical order anew; what was pruned is in it already, as each
/// subtree of a tree in canonical order is.
pub fn write_forest(out: &mut [u8], at: usize, tree: Tree, c: usize) -> usize
    requires { ForestFits tree c at (length out.old) }
    ensures { (t : Topology) → Keeps tree t → Wrote (forest (cut_at t c)) out.old out.new at result }
{
    let left = tree.remainder(c);
    let rest = Node::new(&left.node, 0);
    let pruned = Node::new(&tree.node, c + 1);
    let next = write_part(out, at, rest, b' ');
    write_part(out, next, pruned, b';')
}

// Writes a text and the number n behind it.
fn write_field(out: &mut [u8], at: usize, text: &[u8], n: usize) -> usize
    requires { at + length (text.now ++ digits n) ≤ length out.old }
    ensures { Wrote (text.now ++ digits n) out.old out.new at result }
{
    let number = write_text(out, at, text);
    write_number(out, number, n)
}

/// Writes a line of two numbers, n behind the text a and m behind the text b.
pub fn write_two_fields(out: &mut [u8], at: usize, a: &[u8], n: usize, b: &[u8], m: usize) -> usize
    requires { at + length (two_fields a.now n b.now m) ≤ length out.old }
    ensures { Wrote (two_fields a.now n b.now m) out.old out.new at result }
{
    let second = write_field(out, at, a, n);
    let end = write_field(out, second, b, m);
    write_text(out, end, b"\n")
}

// The four lines below stay functions: each has its texts once, and its contract names its line of document 03.

/// Writes how many trees and how many pairs there are.
pub fn write_first_line(out: &mut [u8], at: usize, trees: usize, pairs: usize) -> usize
    requires { at + length (first_line trees pairs) ≤ length out.old }
    ensures { Wrote (first_line trees pairs) out.old out.new at result }
{
    write_two_fields(out, at, b"trees ", trees, b" pairs ", pairs)
}

/// Writes the line of a pair of positions, i and then j.
pub fn write_pair_line(out: &mut [u8], at: usize, i: usize, j: usize) -> usize
    requires { at + length (pair_line i j) ≤ length out.old }
    ensures { Wrote (pair_line i j) out.old out.new at result }
{
    write_two_fields(out, at, b"pair ", i, b" ", j)
}

/// Writes the line of an island, its number and then its size.
pub fn write_island_line(out: &mut [u8], at: usize, number: usize, size: usize) -> usize
    requires { at + length (island_line number size) ≤ length out.old }
    ensures { Wrote (island_line number size) out.old out.new at result }
{
    write_two_fields(out, at, b"island ", number, b" ", size)
}

/// A refusal's line is the whole sheet, with no line before it or behind.
pub fn write_refusal(out: &mut [u8], at: usize, number: usize, place: usize) -> usize
    requires { at + length (refusal_line number place) ≤ length out.old }
    ensures { Wrote (refusal_line number place) out.old out.new at result }
{
    write_two_fields(out, at, b"refused ", number, b" at ", place)
}

/// Writes the line of a tree: its position, its neighbours and its unlinked number, each counted by the caller, and its text.
pub fn write_tree_line(
    out: &mut [u8],
    at: usize,
    position: usize,
    neighbours: usize,
    unlinked: usize,
    tree: Tree,
) -> usize
    requires { KeptKindRoom (λ x. at + length (tree_line x.kind position neighbours unlinked x.tree)) tree (length out.old) }
    ensures { (x : Kinded) → KeepsKind tree x
        → Wrote (tree_line x.kind position neighbours unlinked x.tree) out.old out.new at result }
{
    let linked = write_field(out, at, b"tree ", position);
    let apart = write_field(out, linked, b" neighbours ", neighbours);
    let space = write_field(out, apart, b" unlinked ", unlinked);
    let form = write_text(out, space, b" ");
    let end = write_form(out, form, tree);
    write_text(out, end, b"\n")
}
