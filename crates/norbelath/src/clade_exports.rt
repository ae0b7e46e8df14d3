// The calls on clades for programs in C and Rust.
ghost use Rattle.std.specs.Prelude.{◌≡◌};
ghost use Rattle.families.specs.SupportCall.{support_call};
ghost use Rattle.clade_calls.specs.Paper.{support_memory};
ghost use Rattle.replies.specs.LongCoded.{support_coded};

use replies::support_reply;

/// Support call: the numbers are the clades, the bytes of the majority tree's text and the trees.
#[unsafe(no_mangle)]
pub extern "C" fn norbelath_support(
    text: &[u8],
    clades: &mut [u64],
    trees: &mut [u16],
    out: &mut [u8],
    first: &mut u64,
    second: &mut u64,
    third: &mut u64,
) -> u8
    ensures { support_coded result first.new second.new third.new clades.new trees.new out.new
        ≡ support_call text.now (support_memory clades.old trees.old out.old) }
{
    let reply = support_reply(clade_calls::support_call(text, clades, trees, out));
    *first = reply.first;
    *second = reply.second;
    *third = reply.third;
    reply.result
}
