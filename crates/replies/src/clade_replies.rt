// The answers of the calls on clades, with a third number.
ghost use Rattle.std.specs.Prelude.{◌≡◌};
ghost use Rattle.clade_calls.specs.Paper.{support_answer};
ghost use Rattle.replies.specs.LongCoded.{support_value};

use clade_calls::SupportSize;
use tokens::Refusal;

/// A result and the three numbers beside it.
// The support call alone has three, so that it is no instance of `reply_of`: the C interface.
#[derive(Clone, Copy, Debug, PartialEq, Eq)]
pub struct LongReply {
    pub result: u8,
    pub first: u64,
    pub second: u64,
    pub third: u64,
}

/// The answer of the support call: of what is accepted, the result 0, the clades, the bytes and the trees; else the refusal's number,
/// which text, the place, and 0.
// `as`: std has no `From` of a usize for u64.
pub fn support_reply(answer: Result<SupportSize, Refusal>) -> LongReply
    ensures { support_value result.result result.first result.second result.third ≡ support_answer answer }
{
    match answer {
        Ok(size) => LongReply {
            result: 0,
            first: size.clades as u64,
            second: size.bytes as u64,
            third: size.trees as u64,
        },
        Err(x) => LongReply {
            result: x.reason.number(),
            first: u64::from(x.text),
            second: x.place as u64,
            third: 0,
        },
    }
}
