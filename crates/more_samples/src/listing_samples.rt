// The calls that list pairs, and the sheet call, on samples.
use held::Table;
use links::Copies;
use listing_calls::GraphSize;
use sheet::{IslandSheet, Sheet};
use std::io;

// The first pairs of a slice, as far as it has them.
fn print_pairs(rt: &impl Print, pairs: &[u16], number: usize) -> io::Result<()> {
    for [i, j] in pairs.as_chunks::<2>().0.iter().take(number) {
        print!(rt; " {i}-{j}")?;
    }
    Ok(())
}

/// The first numbers of a slice, as far as it has them, a blank before each.
pub fn print_counts(rt: &impl Print, counts: &[u16], number: usize) -> io::Result<()> {
    for count in counts.iter().take(number) {
        print!(rt; " {count}")?;
    }
    Ok(())
}

fn print_lists(rt: &impl Print, size: GraphSize, pairs: &[u16], counts: &[u16]) -> io::Result<()> {
    print!(rt; "{} trees, pairs", size.trees)?;
    print_pairs(rt, pairs, size.pairs)?;
    print!(rt; ", counts")?;
    print_counts(rt, counts, size.trees)
}

// The graph call, which merges copies, or the same with copies kept apart.
fn chosen_graph(rt: &impl Print, text: &[u8], copies: Copies) -> io::Result<()> {
    let mut pairs = [0u16; Table::PAIR_NUMBERS];
    let mut counts = [0u16; Table::MAX_TREES];
    let mut firsts = [0u16; Table::MAX_TREES];
    match listing_calls::graph_call_choosing(text, copies, &mut pairs, &mut counts, &mut firsts) {
        Ok(size) => {
            print_lists(rt, size, &pairs, &counts)?;
            print!(rt; ", firsts")?;
            print_counts(rt, &firsts, size.trees)?;
            println!(rt; "")
        }
        Err(x) => println!(rt; "{x}"),
    }
}

fn interchanges(rt: &impl Print, text: &[u8]) -> io::Result<()> {
    let mut pairs = [0u16; Table::PAIR_NUMBERS];
    let mut counts = [0u16; Table::MAX_TREES];
    match listing_calls::interchange_call(text, &mut pairs, &mut counts) {
        Ok(size) => {
            print_lists(rt, size, &pairs, &counts)?;
            println!(rt; "")
        }
        Err(x) => println!(rt; "{x}"),
    }
}

// The islands call's lists are the graph call's, so the islands' numbers are printed alone.
fn islands(rt: &impl Print, text: &[u8]) -> io::Result<()> {
    let mut pairs = [0u16; Table::PAIR_NUMBERS];
    let mut counts = [0u16; Table::MAX_TREES];
    let mut firsts = [0u16; Table::MAX_TREES];
    let mut numbers = [0u16; Table::MAX_TREES];
    let answer = listing_calls::islands_call(
        text,
        &mut pairs,
        &mut counts,
        &mut firsts,
        &mut numbers,
    );
    match answer {
        Ok(size) => {
            print!(rt; "{} trees, {} pairs, islands", size.trees, size.pairs)?;
            print_counts(rt, &numbers, size.trees)?;
            println!(rt; "")
        }
        Err(x) => println!(rt; "{x}"),
    }
}

// What the islands program prints; it ends each of its lines itself.
fn print_island_sheet(rt: &impl Print, text: &[u8]) -> io::Result<()> {
    let mut out = [0u8; IslandSheet::MAX_BYTES];
    print!(rt; "sheet of islands :\n")?;
    let n = sheet::print_islands(text, &mut out);
    rt.write_all(&out[..n])
}

// What the calls that list pairs give for a table.
fn graph(rt: &impl Print, text: &str) -> io::Result<()> {
    let bytes = text.as_bytes();
    print!(rt; "graph {text} : ")?;
    chosen_graph(rt, bytes, Copies::Merged)?;
    print!(rt; "copies kept apart : ")?;
    chosen_graph(rt, bytes, Copies::KeptApart)?;
    print!(rt; "interchanges : ")?;
    interchanges(rt, bytes)?;
    print!(rt; "islands : ")?;
    islands(rt, bytes)?;
    print_island_sheet(rt, bytes)
}

// A sheet ends each of its lines itself.
fn print_sheet(rt: &impl Print, text: &str) -> io::Result<()> {
    let mut out = [0u8; Sheet::MAX_BYTES];
    println!(rt; "sheet {text} :")?;
    match listing_calls::sheet_call(text.as_bytes(), &mut out) {
        Ok(n) => answers::print_first(rt, &out, n),
        Err(x) => println!(rt; "{x}"),
    }
}

/// Tables of few trees and many, of copies, of either kind, and refusals.
pub fn graphs(rt: &impl Print) -> io::Result<()> {
    for text in [
        "",
        "1;1;1;",
        "((1,2),3);(3,(2,1));(1,(2,3));((1,3),2);",
        "(((1,2),3),4);((1,2),(3,4));(((3,4),1),2);",
        "((((4,5),1),2),3);((((1,2),3),4),5);",
        "(((1,2),3),4);(((2,3),1),4);(((1,3),2),4);((1,2),(3,4));(((1,2),4),3);",
        "(((1,2),3),4);(((1,4),2),3);((2,3),(1,4));",
        "((((5,6),1),2),(3,4));((((1,2),3),4),(5,6));((((1,2),4),3),(5,6));((((5,6),2),1),(3,4));",
        "(1,2);(1,2",
        "[&U](2,(3,(4,5)),1);[&U](((2,5),3),4,1);[&U]((4,5),(3,2),1);[&U]((3,(5,4)),2,1);",
        "[&U](1,2,(3,(4,5)));[&U](1,4,(3,(2,5)));[&U](1,5,(3,(2,4)));[&U]((2,1),(4,5),3);",
        "[&U](1,2);[&U](2,1);",
        "(1,2);[&U](1,2);",
        "[&U]1;[&U]2;",
    ] {
        graph(rt, text)?;
    }
    Ok(())
}

/// The sheet that document 01 prints, a table of copies, trees that are no neighbours, and a refusal's line.
pub fn sheets(rt: &impl Print) -> io::Result<()> {
    for text in [
        "((2,1),3);(3,(2,1));(1,(2,3));((1,3),2);",
        "1;1;1;",
        "((((4,5),1),2),3);((((1,2),3),4),5);((3,(2,1)),4,5);",
        "((((4,5),1),2),3);((((1,2),3),4),5);((((2,1),3),4),5);",
        "[&U](1,2,(3,4));[&U]((3,1),2,4);[&U](4,(2,1),3);",
        "(1,2);[&U](1,2);",
    ] {
        print_sheet(rt, text)?;
    }
    Ok(())
}
