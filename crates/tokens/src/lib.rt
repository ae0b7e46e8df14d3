#![tactic(auto)]
// Reads the tokens of tree text: blanks, labels and single bytes; the module reads a mark.
pub mod marks;

ghost use Rattle.std.specs.Prelude.{◌≡◌, ℕ, min, ◌<◌, get_or};
ghost use Rattle.meaning.specs.Reading.{is_blank, is_digit, skip, run_end, value, bad_label, label_at};
ghost use Rattle.tokens.specs.Draft.{too_large, seen, Draft, NodeMeets, token_at, TokenMeets};
ghost use Rattle.tokens.specs.Paper.{number_of};

use held::Tree;
pub use marks::read_mark;
use std::fmt;

/// The lines of the refusal list: why a text, a row, an index or a number is refused, and behind the colon at which place.
#[derive(Clone, Copy, Debug, PartialEq, Eq)]
pub enum Reason {
    /// A byte that cannot stand there, or the text ends too soon: that byte, or the length.
    WrongByte,
    /// A label that is not 1 to 64: its first digit.
    BadLabel,
    /// A label that is already in this tree: its first digit.
    LabelAgain,
    /// A bracket that opens while 63 are open: that bracket.
    TooDeep,
    /// Labels other than the first or the held trees': the `;` of the tree that differs.
    LabelsDiffer,
    /// Any byte but a blank after 160 trees: that byte; or a tree while 160 are held: 0.
    TooManyTrees,
    /// A lent slice that is too short: 0.
    ShortSlice,
    /// A text above 65,535 bytes: 0.
    LongText,
    /// A cut number that the tree does not have: 0.
    NoSuchCut,
    /// Not of the first tree's kind, or unrooted in a call for rooted trees only: its `;`.
    OtherKind,
    /// Numbers that are the row of no tree: 0.
    NoRow,
    /// Memory that is that of no set of held trees: 0.
    NoIndex,
    /// A number that no held tree has: 0.
    NoSuchTree,
}

impl Reason {
    /// The line's number, 1 to 13. A program in C gets it as the result.
    // `u8::from(reason)` would not say that it is the number of the list.
    pub fn number(self) -> u8
        ensures { result ≡ number_of self }
    {
        match self {
            Reason::WrongByte => Refusal::WRONG_BYTE,
            Reason::BadLabel => Refusal::BAD_LABEL,
            Reason::LabelAgain => Refusal::LABEL_AGAIN,
            Reason::TooDeep => Refusal::TOO_DEEP,
            Reason::LabelsDiffer => Refusal::LABELS_DIFFER,
            Reason::TooManyTrees => Refusal::TOO_MANY_TREES,
            Reason::ShortSlice => Refusal::SHORT_SLICE,
            Reason::LongText => Refusal::LONG_TEXT,
            Reason::NoSuchCut => Refusal::NO_SUCH_CUT,
            Reason::OtherKind => Refusal::OTHER_KIND,
            Reason::NoRow => Refusal::NO_ROW,
            Reason::NoIndex => Refusal::NO_INDEX,
            Reason::NoSuchTree => Refusal::NO_SUCH_TREE,
        }
    }

    /// The refusal at a place of text 0.
    pub fn at(self, place: usize) -> Refusal
        ensures { result ≡ record { reason = self; text = 0; place = place } }
    {
        Refusal {
            reason: self,
            text: 0,
            place,
        }
    }
}

/// A line of the refusal list, which text (0, or 1 for the second of a pair) and the place, in bytes from the text's start.
#[derive(Clone, Copy, Debug, PartialEq, Eq)]
pub struct Refusal {
    pub reason: Reason,
    // A number, as `refusal_of` and a program in C have it.
    pub text: u8,
    pub place: usize,
}

// The numbers of the refusal list, under the names that programs in C, Rust and Python have them by.
impl Refusal {
    pub const WRONG_BYTE: u8 = 1;

    pub const BAD_LABEL: u8 = 2;

    pub const LABEL_AGAIN: u8 = 3;

    pub const TOO_DEEP: u8 = 4;

    pub const LABELS_DIFFER: u8 = 5;

    pub const TOO_MANY_TREES: u8 = 6;

    pub const SHORT_SLICE: u8 = 7;

    pub const LONG_TEXT: u8 = 8;

    pub const NO_SUCH_CUT: u8 = 9;

    pub const OTHER_KIND: u8 = 10;

    pub const NO_ROW: u8 = 11;

    pub const NO_INDEX: u8 = 12;

    pub const NO_SUCH_TREE: u8 = 13;

    /// The same of the second text of a pair.
    pub fn of_second(self) -> Self
        ensures { result ≡ record { reason = self.reason; text = 1; place = self.place } }
    {
        Self { text: 1, ..self }
    }
}

/// As one line of text, without the line's end.
impl fmt::Display for Refusal {
    ghost use Rattle.std.specs.Prelude.{Some};
    ghost use Rattle.tokens.specs.Printed.{refusal_text};

    ghost output = { λ x. Some (refusal_text x) };

    fn fmt<W: fmt::Write>(&self, f: &mut fmt::Formatter<W>) -> fmt::Result {
        write!(
            f,
            "refused {} in {} at {}",
            self.reason.number(),
            self.text,
            self.place
        )
    }
}

/// Where reading goes on: the place behind what was read, and the number of the next node.
#[derive(Clone, Copy, Debug, PartialEq, Eq)]
pub struct Step {
    pub behind: usize,
    pub nodes: usize,
}

/// A run of digits: where it ends, and its value or `TOO_LARGE`, whichever is less.
#[derive(Clone, Copy, Debug, PartialEq, Eq)]
pub struct Run {
    pub end: usize,
    pub value: usize,
}

impl Run {
    /// One above the largest label: no larger value has to be told apart.
    // `as`, as a `From` can't be called in a constant.
    pub const TOO_LARGE: usize = Tree::MAX_LABEL as usize + 1;
}

/// Which labels were read: each value below `TOO_LARGE` has its mark.
pub type Marks = [bool; Run::TOO_LARGE];

/// The byte at a place; 0 behind the end.
// `s.get(at).copied().unwrap_or(0)` is no plainer.
pub fn byte_at(s: &[u8], at: usize) -> u8
    ensures { result ≡ get_or s.now at 0 }
{
    if at < s.len() { s[at] } else { 0 }
}

#[tactic(auto, unfolding(meaning::specs::Reading::is_blank))]
fn is_blank(b: u8) -> bool
    ensures { result ≡ is_blank b }
{
    matches!(b, b' ' | b'\t' | b'\r' | b'\n')
}

/// Whether the byte is one of `0` to `9`.
#[tactic(auto, unfolding(meaning::specs::Reading::is_digit))]
pub fn is_digit(b: u8) -> bool
    ensures { result ≡ is_digit b }
{
    b.is_ascii_digit()
}

/// The place behind the blanks (space, tab, CR, LF) that stand at `from`; `from` itself where none does, or behind the end.
pub fn skip_blanks(s: &[u8], from: usize) -> usize
    ensures { result ≡ skip s.now from }
{
    let rest = &s[from.min(s.len())..];
    from + rest.iter().take_while(|&&b| is_blank(b)).count()
}

// The run of digits at a place. A value above 64 is held down, so that no run is too long.
// The loop has to tell the end and the value: over the digits alone it would count the end beside them.
// The value is held down and no Option: a value of 0 is refused by the same line of the list as one above 64.
fn digit_run(s: &[u8], from: usize) -> Run
    ensures end { result.end ≡ run_end s.now from }
    ensures value { result.value ≡ min too_large (value s.now from) }
{
    let mut end = from;
    let mut value: usize = 0;
    while end < s.len() && is_digit(s[end]) {
        value = (value * 10 + usize::from(s[end] - b'0')).min(Run::TOO_LARGE);
        end += 1;
    }
    Run { end, value }
}

// Whether a label breaks the rule, by its value, which may be held down as in `Run`.
fn bad_label(v: usize) -> bool
    ensures { (w : ℕ) → v ≡ min too_large w → result ≡ bad_label w }
{
    let low = v < 1;
    low || usize::from(Tree::MAX_LABEL) < v
}

/// The label whose first digit is at q, as the node `at`, and its mark. Refused with 2 where its value is not 1 to 64, and with 3
/// where its mark is set: both at q.
pub fn read_label(
    s: &[u8],
    q: usize,
    node: &mut [u8],
    at: usize,
    marks: &mut Marks,
) -> Result<Step, Refusal>
    requires { Draft node.old marks.old at 0 }
    ensures { NodeMeets node.old node.new marks.new at
        (label_at s.now q (seen node.old at)) result }
{
    let run = digit_run(s, q);
    let v = run.value;
    if bad_label(v) {
        return Err(Reason::BadLabel.at(q));
    }
    if marks[v] {
        return Err(Reason::LabelAgain.at(q));
    }
    // `as`: a `try_from` would have to say what becomes of a value above 64, and there is none here.
    node[at] = v as u8;
    marks[v] = true;
    Ok(Step {
        behind: run.end,
        nodes: at + 1,
    })
}

/// The token b, after blanks: the place behind it. Refused with 1 where another byte stands there, at that byte.
pub fn expect_byte(s: &[u8], from: usize, b: u8) -> Result<usize, Refusal>
    requires { 0 < b }
    ensures { TokenMeets (token_at b s.now from) result }
{
    marks::expect_exactly(s, skip_blanks(s, from), b)
}
