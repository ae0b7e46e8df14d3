#![tactic(auto)]
// The pair lister: reads standard input to its end and prints the sheet, or says on standard error that the input could not be
// read, and prints nothing. One byte above the limit is enough to refuse the text; what stands behind the buffer is not read.
// The status is 1 where standard input could not be read or standard output not written whole, and else 0.
use held::Tree;
use sheet::Sheet;
use std::process::ExitCode;

fn main(rt: HostRuntime) -> ExitCode {
    let mut text = [0u8; Tree::TEXT_BYTES + 1];
    let Ok(length) = console::read_input(&rt, &mut text) else {
        return ExitCode::FAILURE;
    };
    let mut out = [0u8; Sheet::MAX_BYTES];
    let printed = sheet::sheet_of(&text[..length], &mut out);
    if console::print(&rt, &out[..printed]).is_err() {
        return ExitCode::FAILURE;
    }
    ExitCode::SUCCESS
}
