// The support call on samples.
use held::Tree;
use sorting::Pool;
use std::io;

// The first clades and how many trees have each, as far as the slices have them.
fn print_clades(rt: &impl Print, clades: &[u64], numbers: &[u16], number: usize) -> io::Result<()> {
    for (clade, trees) in clades.iter().zip(numbers).take(number) {
        print!(rt; " {clade} in {trees},")?;
    }
    Ok(())
}

fn support(rt: &impl Print, text: &str) -> io::Result<()> {
    let mut clades = [0; Pool::DISTINCT];
    let mut numbers = [0u16; Pool::DISTINCT];
    let mut out = [0u8; Tree::FORM_BYTES];
    print!(rt; "support {text} : ")?;
    match clade_calls::support_call(text.as_bytes(), &mut clades, &mut numbers, &mut out) {
        Ok(size) => {
            print!(rt; "{} trees, clades", size.trees)?;
            print_clades(rt, &clades, &numbers, size.clades)?;
            print!(rt; " majority ")?;
            answers::print_text(rt, Ok(size.bytes), &out)
        }
        Err(x) => println!(rt; "{x}"),
    }
}

/// No trees, one leaf, ties, a clade in half of the trees, one in more, copies, and refusals.
pub fn supports(rt: &impl Print) -> io::Result<()> {
    for text in [
        "",
        " 7 ;",
        "((1,2),3);(1,(2,3));((1,3),2);",
        "(1,(2,(3,4)));((1,2),(3,4));((3,4),(2,1));((1,3),(2,4));",
        "((10,2),(3,(20,1)));((2,10),((1,20),3));((1,2),(3,(20,10)));",
        "(1,2);(1,2",
        "(1,2);(1,3);",
        "[&U](1,2,3);",
        "(1,2);[&U](1,3);",
        "[&R]((1,2),3);(3,(2,1));",
    ] {
        support(rt, text)?;
    }
    Ok(())
}
