// Reads the mark before a tree: [&U], [&R], or none, which makes it rooted.
ghost use Rattle.std.specs.Prelude.{◌<◌};
ghost use Rattle.meaning.specs.Reading.{letter_at, mark_at};
ghost use Rattle.tokens.specs.Draft.{TokenMeets};
ghost use Rattle.tokens.specs.Mark.{exactly_at, MarkMeets};

use super::{Reason, Refusal};
use held::Kind;

/// A mark: the kind that it gives a tree, and the place behind it.
#[derive(Clone, Copy, Debug, PartialEq, Eq)]
pub struct Mark {
    pub kind: Kind,
    pub behind: usize,
}

/// The byte b at p itself, with no blank before it: the place behind it. Refused with 1 where it does not stand there, at p.
pub fn expect_exactly(s: &[u8], p: usize, b: u8) -> Result<usize, Refusal>
    requires { 0 < b }
    ensures { TokenMeets (exactly_at b s.now p) result }
{
    if super::byte_at(s, p) != b {
        return Err(Reason::WrongByte.at(p));
    }
    Ok(p + 1)
}

// The letter of a mark.
fn read_letter(s: &[u8], p: usize) -> Result<Mark, Refusal>
    ensures { MarkMeets (letter_at s.now p) result }
{
    let unrooted = super::byte_at(s, p) == b'U';
    if unrooted {
        return Ok(Mark {
            kind: Kind::Unrooted,
            behind: p + 1,
        });
    }
    Ok(Mark {
        kind: Kind::Rooted,
        behind: expect_exactly(s, p, b'R')?,
    })
}

/// The mark behind blanks: its kind and the place behind it; where none begins there, rooted and `from`. Refused with 1 where a
/// bracket begins no mark, at the byte that is wrong.
pub fn read_mark(s: &[u8], from: usize) -> Result<Mark, Refusal>
    ensures { MarkMeets (mark_at s.now from) result }
{
    let q = super::skip_blanks(s, from);
    if super::byte_at(s, q) != b'[' {
        return Ok(Mark {
            kind: Kind::Rooted,
            behind: from,
        });
    }
    let p = expect_exactly(s, q + 1, b'&')?;
    let letter = read_letter(s, p)?;
    Ok(Mark {
        kind: letter.kind,
        behind: expect_exactly(s, letter.behind, b']')?,
    })
}
