#![tactic(auto)]
// Lent memory: slices measured, and runs of elements copied, filled, compared and counted.
// A run is a slice, a place and a length: if callers cut it out, its bounds would be goals of each caller, where now one clause is.
ghost use Rattle.std.specs.Prelude.{◌≡◌, ◌&&◌, ◌+◌, ◌-◌, ◌≤◌, leb, length, take, drop, replicate};
ghost use Rattle.std.proofs.lemmas.List.Edits.{sets};
ghost use Rattle.lent.specs.Runs.{Wrote, SameRun, Zeros, Common, Says};
ghost use Rattle.lent.specs.Tallies.{TallyRoom, Tallied};

/// Whether a slice of `len` cells has the stated size, and the others have theirs.
pub fn enough(least: usize, len: usize, others: bool) -> bool
    ensures { result ≡ (leb least len && others) }
{
    least <= len && others
}

/// Copies `count` elements of s from `from` on into `out` from `at` on; returns the place behind them.
pub fn copy<T: Copy>(out: &mut [T], at: usize, s: &[T], from: usize, count: usize) -> usize
    requires { (at + count ≤ length out.old) × (from + count ≤ length s.now) }
    ensures { Wrote (take count (drop from s.now)) out.old out.new at result }
{
    // By index: std's `copy_from_slice` brings memmove, a name that the archive for C would need from outside.
    for k in 0..count {
        out[at + k] = s[from + k];
    }
    at + count
}

/// Sets the elements from `from` to `to` to x.
pub fn fill<T: Copy>(cells: &mut [T], from: usize, to: usize, x: T)
    requires { to ≤ length cells.old }
    ensures { cells.new ≡ sets cells.old from (replicate (to - from) x) }
{
    // By index: std's `fill` asks, and tells only, what holds of a T whose clones are equal, which Copy does not say of a T.
    for k in from..to {
        cells[k] = x;
    }
}

/// Adds one at place x of `tallies` for each x among the first n numbers.
pub fn tally(tallies: &mut [u16], numbers: &[u16], n: usize)
    requires { TallyRoom tallies.old numbers.now n }
    ensures { Tallied (take n numbers.now) tallies.old tallies.new }
{
    for x in &numbers[..n] {
        tallies[usize::from(*x)] += 1;
    }
}

/// Whether `count` bytes of x from i on are those of y from j on.
pub fn same_run(x: &[u8], i: usize, y: &[u8], j: usize, count: usize) -> bool
    requires { (i + count ≤ length x.now) × (j + count ≤ length y.now) }
    ensures { Says result (SameRun x.now i y.now j count) }
{
    &x[i..i + count] == &y[j..j + count]
}

/// Whether the bytes from `from` to `to` are zeros.
pub fn all_zero(bytes: &[u8], from: usize, to: usize) -> bool
    requires { to ≤ length bytes.now }
    ensures { Says result (Zeros bytes.now from to) }
{
    bytes[..to].iter().skip(from).all(|b| *b == 0)
}

/// How many bytes from the start on x and y have in common; n is the most.
pub fn common(x: &[u8], y: &[u8], n: usize) -> usize
    requires { (n ≤ length x.now) × (n ≤ length y.now) }
    ensures { Common x.now y.now n result }
{
    (0..n).position(|i| x[i] != y[i]).unwrap_or(n)
}
