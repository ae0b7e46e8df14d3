#![tactic(auto)]
// The islands program: reads standard input to its end and prints a line for each island, or says on standard error that the
// input could not be read, and prints nothing. One byte above the limit is enough to refuse the text; what stands behind the
// buffer is not read. The status is 1 where standard input could not be read or standard output not written whole, and else 0.
use held::Tree;
use sheet::IslandSheet;
use std::process::ExitCode;

// As the pair lister's but for what is printed: one function of both would take the memory to print from and the step that fills it,
// with a clause on what the step may do with each slice, and be longer than the two.
fn main(rt: HostRuntime) -> ExitCode {
    let mut text = [0u8; Tree::TEXT_BYTES + 1];
    let Ok(length) = console::read_input(&rt, &mut text) else {
        return ExitCode::FAILURE;
    };
    let mut out = [0u8; IslandSheet::MAX_BYTES];
    let printed = sheet::print_islands(&text[..length], &mut out);
    if console::print(&rt, &out[..printed]).is_err() {
        return ExitCode::FAILURE;
    }
    ExitCode::SUCCESS
}
