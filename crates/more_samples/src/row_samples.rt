// The calls on rows on samples.
use held::Tree;
use rows::Row;
use std::io;
use tokens::Refusal;

// The first numbers of a slice, a blank before each.
fn print_numbers(rt: &impl Print, numbers: &[u64], n: usize) -> io::Result<()> {
    for number in numbers.iter().take(n) {
        print!(rt; " {number}")?;
    }
    Ok(())
}

fn print_row(rt: &impl Print, answer: Result<usize, Refusal>, row: &[u64]) -> io::Result<()> {
    match answer {
        Ok(n) => {
            print_numbers(rt, row, n)?;
            println!(rt; "")
        }
        Err(x) => println!(rt; " {x}"),
    }
}

fn row(rt: &impl Print, text: &str) -> io::Result<()> {
    let mut out = [0u64; Row::NUMBERS];
    let answer = row_calls::row_call(text.as_bytes(), &mut out);
    print!(rt; "row {text} :")?;
    print_row(rt, answer, &out)
}

fn row_text(rt: &impl Print, row: &[u64]) -> io::Result<()> {
    let mut out = [0u8; Tree::FORM_BYTES];
    print!(rt; "text of row")?;
    print_numbers(rt, row, row.len())?;
    print!(rt; " : ")?;
    let answer = row_calls::row_text_call(row, &mut out);
    answers::print_text(rt, answer, &out)
}

fn row_pair(rt: &impl Print, row: &[u64], other: &[u64]) -> io::Result<()> {
    print!(rt; "pair of rows")?;
    print_numbers(rt, row, row.len())?;
    print!(rt; " and")?;
    print_numbers(rt, other, other.len())?;
    print!(rt; " : ")?;
    answers::print_pair(rt, row_calls::row_pair_call(row, other))
}

// One leaf, two, the deepest tree, and refusals.
fn rows_of_texts(rt: &impl Print) -> io::Result<()> {
    for text in [
        "7;",
        "(2,1);",
        "(3,(2,1));",
        "((4,1),(3,2));",
        "[&R](10,(64,2));",
        "(1,2",
        "(1,2);x",
        "(1,65);",
        "(1,1);",
        "",
        "[&U](1,2,3);",
        "[&U]7;x",
    ] {
        row(rt, text)?;
    }
    print!(rt; "row of the deepest tree :")?;
    let mut out = [0u64; Row::NUMBERS];
    let answer = row_calls::row_call(
        b"(((((((((((((((((((((((((((((((((((((((((((((((((((((((((((((((1,2),3),4),5),6),7),8),9),10),11),12),13),14),15),16),17),18),19),20),21),22),23),24),25),26),27),28),29),30),31),32),33),34),35),36),37),38),39),40),41),42),43),44),45),46),47),48),49),50),51),52),53),54),55),56),57),58),59),60),61),62),63),64);",
        &mut out,
    );
    print_row(rt, answer, &out)
}

// Rows, and each way in which numbers are the row of no tree.
fn texts_of_rows(rt: &impl Print) -> io::Result<()> {
    row_text(rt, &[64])?;
    row_text(rt, &[3, 3])?;
    row_text(rt, &[7, 6, 7])?;
    row_text(rt, &[15, 6, 9, 15])?;
    row_text(
        rt,
        &[
            9223372036854776322,
            9223372036854775810,
            9223372036854776322,
        ],
    )?;
    row_text(rt, &[])?;
    row_text(rt, &[0])?;
    row_text(rt, &[3])?;
    row_text(rt, &[3, 3, 3])?;
    row_text(rt, &[7, 7, 3])?;
    row_text(rt, &[7, 3, 3])?;
    row_text(rt, &[7, 1, 7])?;
    row_text(rt, &[11, 3, 7])?;
    row_text(rt, &[7, 3, 6])?;
    row_text(rt, &[15, 3, 12])?;
    row_text(rt, &[15, 3, 12, 15, 15])?;
    row_text(rt, &[15, 12, 3, 15])
}

// Yes and no, other labels, and which row is refused.
fn pairs_of_rows(rt: &impl Print) -> io::Result<()> {
    row_pair(rt, &[64], &[64])?;
    row_pair(rt, &[3, 3], &[3, 3])?;
    row_pair(rt, &[7, 3, 7], &[7, 6, 7])?;
    row_pair(rt, &[15, 3, 7, 15], &[15, 3, 12, 15])?;
    row_pair(rt, &[15, 3, 7, 15], &[15, 12, 13, 15])?;
    row_pair(rt, &[31, 24, 25, 27, 31], &[31, 3, 7, 15, 31])?;
    row_pair(rt, &[1], &[2])?;
    row_pair(rt, &[7, 3, 7], &[11, 3, 11])?;
    row_pair(rt, &[3], &[5])?;
    row_pair(rt, &[1], &[6])?;
    row_pair(rt, &[6], &[1])?;
    row_pair(rt, &[1], &[])
}

// One element less than is asked for, with a text and a row that would be refused too.
fn short_slices(rt: &impl Print) -> io::Result<()> {
    let mut numbers = [0u64; Row::NUMBERS - 1];
    print!(rt; "63 numbers for a row :")?;
    let answer = row_calls::row_call(b"", &mut numbers);
    print_row(rt, answer, &numbers)?;
    let mut bytes = [0u8; Tree::FORM_BYTES - 1];
    print!(rt; "308 bytes for the text of a row : ")?;
    let answer = row_calls::row_text_call(&[3], &mut bytes);
    answers::print_text(rt, answer, &bytes)
}

/// The row, row text and row pair calls.
pub fn rows(rt: &impl Print) -> io::Result<()> {
    rows_of_texts(rt)?;
    texts_of_rows(rt)?;
    pairs_of_rows(rt)?;
    short_slices(rt)
}
