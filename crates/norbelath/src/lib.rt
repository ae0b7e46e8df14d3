#![tactic(auto)]
// The calls for programs in C and Rust. None asks anything of its caller. Each answers by a result and lent numbers, two or, of
// the support call, three: `coded` and `support_value` of the crate `replies` say which answer they are, and include/norbelath.h
// says it to a caller. Slices and numbers to write to stand one by one in the parameters: the C interface.
pub mod clade_exports;
pub mod index_exports;
pub mod plot_exports;
pub mod row_exports;

ghost use Rattle.std.specs.Prelude.{◌≡◌};
ghost use Rattle.meaning.specs.Calls.{form_call, cut_call, PairCall, table_call, InterchangeCall, ChoosingCall, GraphCall, IslandsCall};
ghost use Rattle.meaning.specs.Sheet.{SheetCall};
ghost use Rattle.replies.specs.Coded.{coded, pair_value, text_coded, table_coded, graph_coded, choice_coded, firsts_coded, islands_coded};

use replies::{copies_of, hand_back, reply_of};

/// Form call: the numbers are the bytes written and 0.
#[unsafe(no_mangle)]
pub extern "C" fn norbelath_form(
    text: &[u8],
    out: &mut [u8],
    first: &mut u64,
    second: &mut u64,
) -> u8
    ensures { text_coded result first.new second.new out.new ≡ form_call text.now out.old }
{
    hand_back(reply_of(calls::form_call(text, out)), first, second)
}

/// Cut call: the numbers are the bytes written and 0.
#[unsafe(no_mangle)]
pub extern "C" fn norbelath_cut(
    text: &[u8],
    cut: u64,
    out: &mut [u8],
    first: &mut u64,
    second: &mut u64,
) -> u8
    ensures { text_coded result first.new second.new out.new ≡ cut_call text.now cut out.old }
{
    // `as`: `usize::try_from` would have to say what becomes of a number that does not fit, and each does.
    hand_back(
        reply_of(calls::cut_call(text, cut as usize, out)),
        first,
        second,
    )
}

/// Pair call: the numbers are 1 for yes or 0 for no, and how many forests were compared.
#[unsafe(no_mangle)]
pub extern "C" fn norbelath_pair(text: &[u8], other: &[u8], first: &mut u64, second: &mut u64) -> u8
    ensures { PairCall text.now other.now (coded pair_value result first.new second.new) }
{
    hand_back(reply_of(calls::pair_call(text, other)), first, second)
}

/// Table call: the numbers are the bytes written and the trees.
#[unsafe(no_mangle)]
pub extern "C" fn norbelath_table(
    text: &[u8],
    texts: &mut [u8],
    ends: &mut [u32],
    first: &mut u64,
    second: &mut u64,
) -> u8
    ensures { table_coded result first.new second.new texts.new ends.new
        ≡ table_call text.now (record { texts = texts.old; ends = ends.old }) }
{
    hand_back(
        reply_of(calls::table_call(text, texts, ends)),
        first,
        second,
    )
}

/// Graph call with a stated choice: the numbers are the trees and the pairs.
#[unsafe(no_mangle)]
pub extern "C" fn norbelath_graph_choosing(
    text: &[u8],
    choice: u8,
    pairs: &mut [u16],
    counts: &mut [u16],
    firsts: &mut [u16],
    first: &mut u64,
    second: &mut u64,
) -> u8
    ensures { ChoosingCall (choice_coded choice) text.now
        (record { graph = record { pairs = pairs.old; counts = counts.old }; firsts = firsts.old })
        (firsts_coded result first.new second.new pairs.new counts.new firsts.new) }
{
    let copies = copies_of(choice);
    hand_back(
        reply_of(listing_calls::graph_call_choosing(text, copies, pairs, counts, firsts)),
        first,
        second,
    )
}

/// Graph call: the numbers are the trees and the pairs.
#[unsafe(no_mangle)]
pub extern "C" fn norbelath_graph(
    text: &[u8],
    pairs: &mut [u16],
    counts: &mut [u16],
    firsts: &mut [u16],
    first: &mut u64,
    second: &mut u64,
) -> u8
    ensures { GraphCall text.now
        (record { graph = record { pairs = pairs.old; counts = counts.old }; firsts = firsts.old })
        (firsts_coded result first.new second.new pairs.new counts.new firsts.new) }
{
    hand_back(
        reply_of(listing_calls::graph_call(text, pairs, counts, firsts)),
        first,
        second,
    )
}

/// Interchange call: the numbers are the trees and the pairs.
#[unsafe(no_mangle)]
pub extern "C" fn norbelath_interchanges(
    text: &[u8],
    pairs: &mut [u16],
    counts: &mut [u16],
    first: &mut u64,
    second: &mut u64,
) -> u8
    ensures { InterchangeCall text.now (record { pairs = pairs.old; counts = counts.old })
        (graph_coded result first.new second.new pairs.new counts.new) }
{
    hand_back(
        reply_of(listing_calls::interchange_call(text, pairs, counts)),
        first,
        second,
    )
}

/// Islands call: the numbers are the trees and the pairs.
#[unsafe(no_mangle)]
pub extern "C" fn norbelath_islands(
    text: &[u8],
    pairs: &mut [u16],
    counts: &mut [u16],
    firsts: &mut [u16],
    islands: &mut [u16],
    first: &mut u64,
    second: &mut u64,
) -> u8
    ensures { IslandsCall text.now
        (record {
          lists = record { graph = record { pairs = pairs.old; counts = counts.old }; firsts = firsts.old };
          islands = islands.old;
        })
        (islands_coded result first.new second.new pairs.new counts.new firsts.new islands.new) }
{
    hand_back(
        reply_of(listing_calls::islands_call(text, pairs, counts, firsts, islands)),
        first,
        second,
    )
}

/// Sheet call: the numbers are the bytes written and 0.
#[unsafe(no_mangle)]
pub extern "C" fn norbelath_sheet(
    text: &[u8],
    out: &mut [u8],
    first: &mut u64,
    second: &mut u64,
) -> u8
    ensures { SheetCall text.now out.old (text_coded result first.new second.new out.new) }
{
    hand_back(
        reply_of(listing_calls::sheet_call(text, out)),
        first,
        second,
    )
}
