#![tactic(auto)]
// What the test programs print of an answer.
use pairs::Comparison;
use std::io;
use tokens::Refusal;

/// The first n bytes of a slice, or all of it where it has fewer.
pub fn print_first(rt: &impl Print, text: &[u8], n: usize) -> io::Result<()> {
    rt.write_all(&text[..n.min(text.len())])
}

/// The text that an answer says is written in `out`, or the refusal, and the line's end.
pub fn print_text(rt: &impl Print, answer: Result<usize, Refusal>, out: &[u8]) -> io::Result<()> {
    match answer {
        Ok(n) => {
            print_first(rt, out, n)?;
            println!(rt; "")
        }
        Err(x) => println!(rt; "{x}"),
    }
}

/// Yes or no, and how many forests were compared, or the refusal, and the line's end.
// No `Display` of a `Comparison`: these words are the test programs' own.
pub fn print_pair(rt: &impl Print, answer: Result<Comparison, Refusal>) -> io::Result<()> {
    match answer {
        Ok(told) => {
            let said = if told.yes { "yes" } else { "no" };
            println!(rt; "{said}, compared {}", told.forests)
        }
        Err(x) => println!(rt; "{x}"),
    }
}
