// The calls on an index for programs in C and Rust.
ghost use Rattle.holdings.specs.IndexCalls.{AddCall, AskCall, RemoveCall};
ghost use Rattle.replies.specs.Coded.{text_coded, done_coded};

use replies::{hand_back, reply_of};

/// Adding call: the numbers are the tree's number and 0.
#[unsafe(no_mangle)]
pub extern "C" fn norbelath_index_add(
    memory: &mut [u8],
    text: &[u8],
    first: &mut u64,
    second: &mut u64,
) -> u8
    ensures { AddCall text.now memory.old (text_coded result first.new second.new memory.new) }
{
    hand_back(
        reply_of(index_calls::index_add_call(memory, text)),
        first,
        second,
    )
}

/// Asking call: the numbers are how many neighbours are listed and 0.
#[unsafe(no_mangle)]
pub extern "C" fn norbelath_index_neighbours(
    memory: &[u8],
    number: usize,
    list: &mut [u16],
    first: &mut u64,
    second: &mut u64,
) -> u8
    ensures { AskCall number memory.now list.old (text_coded result first.new second.new list.new) }
{
    hand_back(
        reply_of(index_calls::index_neighbours_call(memory, number, list)),
        first,
        second,
    )
}

/// Removing call: the numbers are 0 and 0.
#[unsafe(no_mangle)]
pub extern "C" fn norbelath_index_remove(
    memory: &mut [u8],
    number: usize,
    first: &mut u64,
    second: &mut u64,
) -> u8
    ensures { RemoveCall number memory.old (done_coded result first.new second.new memory.new) }
{
    hand_back(
        reply_of(index_calls::index_remove_call(memory, number)),
        first,
        second,
    )
}
