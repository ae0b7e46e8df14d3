// The calls on rows for programs in C and Rust.
ghost use Rattle.std.specs.Prelude.{◌≡◌};
ghost use Rattle.families.specs.RowCalls.{row_call, row_text_call, RowPairCall};
ghost use Rattle.replies.specs.Coded.{coded, pair_value, text_coded};

use replies::{hand_back, reply_of};

/// Row call: the numbers are how many the row has and 0.
#[unsafe(no_mangle)]
pub extern "C" fn norbelath_row(
    text: &[u8],
    row: &mut [u64],
    first: &mut u64,
    second: &mut u64,
) -> u8
    ensures { text_coded result first.new second.new row.new ≡ row_call text.now row.old }
{
    hand_back(reply_of(row_calls::row_call(text, row)), first, second)
}

/// Row text call: the numbers are the bytes written and 0.
#[unsafe(no_mangle)]
pub extern "C" fn norbelath_row_text(
    row: &[u64],
    out: &mut [u8],
    first: &mut u64,
    second: &mut u64,
) -> u8
    ensures { text_coded result first.new second.new out.new ≡ row_text_call row.now out.old }
{
    hand_back(reply_of(row_calls::row_text_call(row, out)), first, second)
}

/// Row pair call: the numbers are 1 for yes or 0 for no, and how many forests were compared.
#[unsafe(no_mangle)]
pub extern "C" fn norbelath_row_pair(
    row: &[u64],
    other: &[u64],
    first: &mut u64,
    second: &mut u64,
) -> u8
    ensures { RowPairCall row.now other.now (coded pair_value result first.new second.new) }
{
    hand_back(
        reply_of(row_calls::row_pair_call(row, other)),
        first,
        second,
    )
}
