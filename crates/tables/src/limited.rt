// Reads a text for a call: one that is not lent enough reads nothing, and neither is a text read that is too long.
ghost use Rattle.std.specs.Prelude.{◌≡◌, length};
ghost use Rattle.meaning.specs.Reading.{read_tree};
ghost use Rattle.meaning.specs.Calls.{lent, limited, answered, table_read};
ghost use Rattle.tokens.specs.Paper.{line_of};
ghost use Rattle.reading.specs.Whole.{takes_of};
ghost use Rattle.tables.specs.Lent.{withheld, TreeLent, TableLent};

use held::{Table, Tree};
use reading::{Takes, TreeRead};
use tokens::{Reason, Refusal};

// `fits` is a flag, as in document 01's `lent` and `withheld`.
// Why a call reads nothing of s, where it reads nothing: its slices are too short, or s is too long.
// `fits` is a bool, as the definition `lent` takes it: the slices are measured before any text is looked at.
fn withheld(s: &[u8], fits: bool) -> Option<Reason>
    ensures { line_of result ≡ withheld fits (length s.now) }
{
    if !fits {
        return Some(Reason::ShortSlice);
    }
    let long = Tree::TEXT_BYTES < s.len();
    if long {
        return Some(Reason::LongText);
    }
    None
}

/// The one tree of s, for a call whose lent slices are long enough (`fits`) or not. Refused with 7, at 0, where they are not, then
/// with 8, at 0, where s has more than 65,535 bytes, and then as `reading::read_tree`.
pub fn read_lent(s: &[u8], fits: bool, takes: Takes) -> Result<TreeRead, Refusal>
    ensures { TreeLent (lent fits (limited 0 s.now (answered 0 (read_tree (takes_of takes) s.now)))) result }
{
    if let Some(reason) = withheld(s, fits) {
        return Err(reason.at(0));
    }
    reading::read_tree(s, takes)
}

/// The trees of s, for a call whose lent slices are long enough (`fits`) or not. Refused with 7 and 8 as `read_lent`, and then as
/// `read_table`.
// One function of both would take the reader as a closure, and be longer than the two.
pub fn read_lent_table(s: &[u8], fits: bool, takes: Takes) -> Result<Table, Refusal>
    ensures { TableLent (lent fits (table_read (takes_of takes) s.now)) result }
{
    if let Some(reason) = withheld(s, fits) {
        return Err(reason.at(0));
    }
    super::read_table(s, takes)
}
