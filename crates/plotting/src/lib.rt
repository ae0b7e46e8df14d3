#![tactic(auto)]
// The plot of a held tree: where each of its nodes is drawn, and what is drawn for it.
ghost use Rattle.std.specs.Prelude.{◌≡◌, ℕ, ◌≤◌, length};
ghost use Rattle.meaning.specs.Limits.{max_nodes};
ghost use Rattle.meaning.specs.Tree.{Tree as Topology, canon};
ghost use Rattle.lent.specs.Runs.{Wrote};
ghost use Rattle.held.specs.Held.{Holds};
ghost use Rattle.held.specs.Node.{subtree};
ghost use Rattle.held.specs.Kept.{Keeps, Kept};
ghost use Rattle.plots.specs.Plot.{halfway, rows as rows_of, columns as columns_of, drawn};
ghost use Rattle.plotting.specs.Placing.{Space, Placed};
ghost use Rattle.plotting.specs.Drawing.{RowsAt, Drawable, drawn_by};

use held::{Node, Shape, Tree};

/// Where a node is drawn.
#[derive(Clone, Copy)]
pub struct Place {
    pub column: f64,
    pub row: f64,
}

/// What is drawn for a node: a tip at its row, or a fork at its row that joins the rows of its first and its second child.
#[derive(Clone, Copy)]
pub enum Drawing {
    Tip(f64),
    Fork(f64, f64, f64),
}

// Half the sum of two rows: one sum and one product.
fn between(x: f64, y: f64) -> f64
    ensures { result ≡ halfway x y }
{
    (x + y) * 0.5
}

// Places the subtree, with `above` forks above it and `before` leaves before it: each node's row and column go to its own index.
// Returns the place of its root. The tree is walked down, and the leaves below the node fall.
// `rows` and `columns` are two slices, as C lends them to the plot call.
fn place_node(rows: &mut [f64], columns: &mut [u16], node: Node, above: u16, before: u16) -> Place
    requires { Space (subtree node) node.at above before (length rows.old) (length columns.old) }
    ensures { Placed (subtree node.entry) node.entry.at above before rows.old rows.new columns.old columns.new result.column result.row }
{
    columns[node.at] = above;
    match node.shape() {
        Shape::Leaf(_) => {
            let tip = f64::from(before);
            rows[node.at] = tip;
            Place {
                column: f64::from(above),
                row: tip,
            }
        }
        Shape::Fork(first, second) => {
            let middle = before + u16::from(first.leaves());
            let x = place_node(rows, columns, first, above + 1, before);
            let y = place_node(rows, columns, second, above + 1, middle);
            let row = between(x.row, y.row);
            rows[node.at] = row;
            Place {
                column: f64::from(above),
                row,
            }
        }
    }
}

/// Writes the row and the column of every node from the start of each slice on, in the order of the canonical text; returns how
/// many nodes there are.
pub fn write_plot(rows: &mut [f64], columns: &mut [u16], tree: Tree) -> usize
    requires { Kept tree × (max_nodes ≤ length rows.old) × (max_nodes ≤ length columns.old) }
    ensures { (t : Topology) → Keeps tree t
        → Wrote (rows_of (canon t)) rows.old rows.new 0 result
        × Wrote (columns_of (canon t)) columns.old columns.new 0 result }
{
    let root = Node::new(&tree.node, 0);
    place_node(rows, columns, root, 0, 0);
    root.width()
}

/// The drawing of the node k of a tree whose rows are written.
pub fn draw(rows: &[f64], n: &[u8], k: usize) -> Drawing
    requires { Drawable n.now rows.now k }
    ensures { (t : Topology) (c i : ℕ) → Holds n.now k t → RowsAt rows.now k c i t → drawn_by result ≡ drawn i t }
{
    match Node::new(n, k).shape() {
        Shape::Leaf(_) => Drawing::Tip(rows[k]),
        Shape::Fork(first, second) => Drawing::Fork(rows[k], rows[first.at], rows[second.at]),
    }
}
