#![tactic(auto)]
// Answers as programs in C and Rust get them: a result and two numbers, or, of the support call, three. `coded` and `support_value`
// in specs/ say which answer they are.
pub mod clade_replies;
pub mod numbers;

ghost use Rattle.std.specs.Prelude.{◌≡◌};
ghost use Rattle.links.specs.Copies.{choice_of};
ghost use Rattle.tokens.specs.Paper.{answer_of};
ghost use Rattle.replies.specs.Coded.{coded, choice_coded};

pub use clade_replies::support_reply;
use links::Copies;
pub use numbers::Numbers;
use tokens::Refusal;

/// A result and the two numbers beside it.
#[derive(Clone, Copy, Debug, PartialEq, Eq)]
pub struct Reply {
    pub result: u8,
    pub first: u64,
    pub second: u64,
}

/// An answer as a reply: of what is accepted, the result 0 and its numbers; else the refusal's number, which text and the place.
// `as`: std has no `From` of a usize for u64.
pub fn reply_of<T: Numbers>(answer: Result<T, Refusal>) -> Reply
    ensures { coded T.value result.result result.first result.second ≡ answer_of T.paper answer }
{
    match answer {
        Ok(value) => {
            let (first, second) = value.numbers();
            Reply {
                result: 0,
                first,
                second,
            }
        }
        Err(x) => Reply {
            result: x.reason.number(),
            first: u64::from(x.text),
            second: x.place as u64,
        },
    }
}

/// A reply as the result and the lent numbers.
// A program in C is handed numbers of its own to write to: the C interface.
pub fn hand_back(reply: Reply, first: &mut u64, second: &mut u64) -> u8
    ensures { record { result = result; first = first.new; second = second.new } ≡ reply }
{
    *first = reply.first;
    *second = reply.second;
    reply.result
}

/// What becomes of copies: 0 merges them, and any other number keeps them apart.
// A number: the C function `norbelath_graph_choosing` is handed one.
pub fn copies_of(choice: u8) -> Copies
    ensures { choice_of result ≡ choice_coded choice }
{
    match choice {
        0 => Copies::Merged,
        _ => Copies::KeptApart,
    }
}
