#![tactic(auto)]
// Runs the samples that are not proved ones, and the edges, of the calls on one tree, on two and on the texts of a table, and
// prints a line for each.
mod unrooted_samples;

use held::{Table, Tree};
use std::io;

fn form(rt: &impl Print, text: &str) -> io::Result<()> {
    let mut out = [0u8; Tree::KIND_BYTES];
    let answer = calls::form_call(text.as_bytes(), &mut out);
    print!(rt; "form {text} : ")?;
    answers::print_text(rt, answer, &out)
}

fn cut(rt: &impl Print, text: &str, number: usize) -> io::Result<()> {
    let mut out = [0u8; Tree::FOREST_BYTES];
    let answer = calls::cut_call(text.as_bytes(), number, &mut out);
    print!(rt; "cut {number} of {text} : ")?;
    answers::print_text(rt, answer, &out)
}

fn pair(rt: &impl Print, first: &str, second: &str) -> io::Result<()> {
    let answer = calls::pair_call(first.as_bytes(), second.as_bytes());
    print!(rt; "pair {first} and {second} : ")?;
    answers::print_pair(rt, answer)
}

// The last tree's end is the number of bytes.
fn table(rt: &impl Print, text: &str) -> io::Result<()> {
    let mut texts = [0u8; Table::TEXT_BYTES];
    let mut ends = [0u32; Table::MAX_TREES];
    match calls::table_call(text.as_bytes(), &mut texts, &mut ends) {
        Ok(size) => {
            print!(rt; "{} trees, {} bytes: ", size.trees, size.bytes)?;
            answers::print_text(rt, Ok(size.bytes), &texts)
        }
        Err(x) => println!(rt; "{x}"),
    }
}

// A slice one byte shorter than is asked for, with a text that would be refused too.
fn short_slices(rt: &impl Print) -> io::Result<()> {
    let mut form_bytes = [0u8; Tree::KIND_BYTES - 1];
    print!(rt; "312 bytes for a form : ")?;
    let answer = calls::form_call(b"", &mut form_bytes);
    answers::print_text(rt, answer, &form_bytes)?;
    let mut forest_bytes = [0u8; Tree::FOREST_BYTES - 1];
    print!(rt; "306 bytes for a forest : ")?;
    let answer = calls::cut_call(b"", 0, &mut forest_bytes);
    answers::print_text(rt, answer, &forest_bytes)
}

fn long_texts(rt: &impl Print) -> io::Result<()> {
    let blanks = [b' '; Tree::TEXT_BYTES];
    let more = [b' '; Tree::TEXT_BYTES + 1];
    let mut out = [0u8; Tree::KIND_BYTES];
    print!(rt; "65,535 blanks : ")?;
    let answer = calls::form_call(&blanks, &mut out);
    answers::print_text(rt, answer, &out)?;
    print!(rt; "65,536 blanks : ")?;
    let answer = calls::form_call(&more, &mut out);
    answers::print_text(rt, answer, &out)?;
    print!(rt; "65,536 blanks as the second : ")?;
    answers::print_pair(rt, calls::pair_call(b"x", &more))
}

fn forms(rt: &impl Print) -> io::Result<()> {
    for text in [
        "(1,2);x",
        "(1,64);",
        "",
        "  ",
        "(1,65",
        "(1,1",
        "(1,6",
        "(01,2);",
        "(01,1);",
        "0007;",
        "000;",
        "(1,065);",
        "(1,0);",
        "(1,100000000000000000000000000000000);",
        "\t( 12 ,\r\n( 3, 4 ) ) ; \n",
        "1 2;",
        "(1,(2,3);",
        "(1)",
        "1;;",
        "(((((((((((((((((((((((((((((((((((((((((((((((((((((((((((((((1,2),3),4),5),6),7),8),9),10),11),12),13),14),15),16),17),18),19),20),21),22),23),24),25),26),27),28),29),30),31),32),33),34),35),36),37),38),39),40),41),42),43),44),45),46),47),48),49),50),51),52),53),54),55),56),57),58),59),60),61),62),63),64);",
        "((((((((((((((((((((((((((((((((((((((((((((((((((((((((((((((((1,2),3),4),5),6),7),8),9),10),11),12),13),14),15),16),17),18),19),20),21),22),23),24),25),26),27),28),29),30),31),32),33),34),35),36),37),38),39),40),41),42),43),44),45),46),47),48),49),50),51),52),53),54),55),56),57),58),59),60),61),62),63),64);",
    ] {
        form(rt, text)?;
    }
    Ok(())
}

fn cuts(rt: &impl Print) -> io::Result<()> {
    for (text, number) in [
        ("((1,2),(3,4));", 1),
        ("((1,2),(3,4));", 2),
        ("((1,2),(3,4));", 4),
        ("((1,2),(3,4));", 5),
        ("((1,2),(3,4));", 6),
        ("((1,2),(3,4));", usize::MAX),
        ("(2,1);", 0),
        ("(2,1);", 1),
        ("(2,1);", 2),
        ("9;", 0),
        ("(1,2);x", 99),
        ("(((4,5),6),(1,(2,3)));", 3),
    ] {
        cut(rt, text, number)?;
    }
    Ok(())
}

fn pairs(rt: &impl Print) -> io::Result<()> {
    for (first, second) in [
        ("1;", "1;"),
        ("(1,2);", "(2,1);"),
        ("((1,2),3);", "(1,(2,3));"),
        (" ( ( 1 , 2 ) , 3 ) ; ", "\n(1,(2,3));"),
        ("((1,2),3);", "((1,2),4);"),
        ("((1,2),3);", "(1,2); "),
        ("((1,2),3)", "x"),
        ("((1,2),3);", "((1,2),3"),
        ("(((1,2),3),4);", "((1,4),(2,3));"),
    ] {
        pair(rt, first, second)?;
    }
    Ok(())
}

fn tables(rt: &impl Print) -> io::Result<()> {
    for (name, text) in [
        ("table of nothing", ""),
        ("table of blanks", " \n\t\r"),
        ("table of three", "((2,1),3);(3,(1,2)); (1,(3,2));"),
        ("table (1,2);(1,3)x", "(1,2);(1,3)x"),
        ("table (1,2);(1,3);x", "(1,2);(1,3);x"),
        (
            "160 trees",
            "1;1;1;1;1;1;1;1;1;1;1;1;1;1;1;1;1;1;1;1;1;1;1;1;1;1;1;1;1;1;1;1;1;1;1;1;1;1;1;1;1;1;1;1;1;1;1;1;1;1;1;1;1;1;1;1;1;1;1;1;1;1;1;1;1;1;1;1;1;1;1;1;1;1;1;1;1;1;1;1;1;1;1;1;1;1;1;1;1;1;1;1;1;1;1;1;1;1;1;1;1;1;1;1;1;1;1;1;1;1;1;1;1;1;1;1;1;1;1;1;1;1;1;1;1;1;1;1;1;1;1;1;1;1;1;1;1;1;1;1;1;1;1;1;1;1;1;1;1;1;1;1;1;1;1;1;1;1;1;1;",
        ),
        (
            "161 trees",
            "1;1;1;1;1;1;1;1;1;1;1;1;1;1;1;1;1;1;1;1;1;1;1;1;1;1;1;1;1;1;1;1;1;1;1;1;1;1;1;1;1;1;1;1;1;1;1;1;1;1;1;1;1;1;1;1;1;1;1;1;1;1;1;1;1;1;1;1;1;1;1;1;1;1;1;1;1;1;1;1;1;1;1;1;1;1;1;1;1;1;1;1;1;1;1;1;1;1;1;1;1;1;1;1;1;1;1;1;1;1;1;1;1;1;1;1;1;1;1;1;1;1;1;1;1;1;1;1;1;1;1;1;1;1;1;1;1;1;1;1;1;1;1;1;1;1;1;1;1;1;1;1;1;1;1;1;1;1;1;1;1;",
        ),
        (
            "160 trees and x",
            "1;1;1;1;1;1;1;1;1;1;1;1;1;1;1;1;1;1;1;1;1;1;1;1;1;1;1;1;1;1;1;1;1;1;1;1;1;1;1;1;1;1;1;1;1;1;1;1;1;1;1;1;1;1;1;1;1;1;1;1;1;1;1;1;1;1;1;1;1;1;1;1;1;1;1;1;1;1;1;1;1;1;1;1;1;1;1;1;1;1;1;1;1;1;1;1;1;1;1;1;1;1;1;1;1;1;1;1;1;1;1;1;1;1;1;1;1;1;1;1;1;1;1;1;1;1;1;1;1;1;1;1;1;1;1;1;1;1;1;1;1;1;1;1;1;1;1;1;1;1;1;1;1;1;1;1;1;1;1;1; x",
        ),
    ] {
        print!(rt; "{name} : ")?;
        table(rt, text)?;
    }
    Ok(())
}

fn main(rt: HostRuntime) -> io::Result<()> {
    forms(&rt)?;
    cuts(&rt)?;
    pairs(&rt)?;
    tables(&rt)?;
    unrooted_samples::all(&rt)?;
    short_slices(&rt)?;
    long_texts(&rt)
}
