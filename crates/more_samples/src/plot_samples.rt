// The plot call on samples.
use held::Tree;
use std::io;
use tokens::Refusal;

// How many 1024ths a row has, without what is left.
fn parts(row: f64) -> u64 {
    let x = row * 1024.0;
    if x > -1.0 {
        if x < 18446744073709551616.0 {
            return std::num::truncating_f64_to_u64(x);
        }
    }
    0
}

// The first rows of a slice in 1024ths, as far as it has them.
fn print_rows(rt: &impl Print, rows: &[f64], number: usize) -> io::Result<()> {
    for row in rows.iter().take(number) {
        print!(rt; " {}", parts(*row))?;
    }
    Ok(())
}

fn print_plot(
    rt: &impl Print,
    answer: Result<usize, Refusal>,
    rows: &[f64],
    columns: &[u16],
) -> io::Result<()> {
    match answer {
        Ok(n) => {
            print!(rt; "{n} nodes, columns")?;
            super::listing_samples::print_counts(rt, columns, n)?;
            print!(rt; ", rows in 1024ths")?;
            print_rows(rt, rows, n)?;
            println!(rt; "")
        }
        Err(x) => println!(rt; "{x}"),
    }
}

fn plot(rt: &impl Print, text: &str) -> io::Result<()> {
    let mut rows = [0.0f64; Tree::MAX_NODES];
    let mut columns = [0u16; Tree::MAX_NODES];
    let answer = plot_calls::plot_call(text.as_bytes(), &mut rows, &mut columns);
    print!(rt; "plot {text} : ")?;
    print_plot(rt, answer, &rows, &columns)
}

// One element less than is asked for, with a text that would be refused too.
fn short_slices(rt: &impl Print) -> io::Result<()> {
    let mut rows = [0.0f64; Tree::MAX_NODES];
    let mut columns = [0u16; Tree::MAX_NODES];
    let mut few_rows = [0.0f64; Tree::MAX_NODES - 1];
    let mut few_columns = [0u16; Tree::MAX_NODES - 1];
    print!(rt; "126 rows for a plot : ")?;
    let answer = plot_calls::plot_call(b"", &mut few_rows, &mut columns);
    print_plot(rt, answer, &few_rows, &columns)?;
    print!(rt; "126 columns for a plot : ")?;
    let other = plot_calls::plot_call(b"", &mut rows, &mut few_columns);
    print_plot(rt, other, &rows, &few_columns)
}

/// One leaf, two, children in another order than the canonical one, the deepest tree, and refusals.
pub fn plots(rt: &impl Print) -> io::Result<()> {
    for text in [
        "7;",
        "(2,1);",
        "(3,(2,1));",
        "((4,1),(3,2));",
        "[&R](10,(64,2));",
        "((((5,4),3),2),1);",
        "(((((((((((((((((((((((((((((((((((((((((((((((((((((((((((((((1,2),3),4),5),6),7),8),9),10),11),12),13),14),15),16),17),18),19),20),21),22),23),24),25),26),27),28),29),30),31),32),33),34),35),36),37),38),39),40),41),42),43),44),45),46),47),48),49),50),51),52),53),54),55),56),57),58),59),60),61),62),63),64);",
        "(1,2",
        "(1,2);x",
        "(1,65);",
        "(1,1);",
        "",
        "[&U](1,2,3);",
    ] {
        plot(rt, text)?;
    }
    short_slices(rt)
}
