// The lower layer (document 01, The page, and The page code): a page of a message is encoded, and pages are solved.
#![tactic(auto)]

ghost use Rattle.std.specs.Prelude.{◌≡◌};
ghost use Rattle.pagecode.specs.Answer.{answer_number};

mod elimination;
mod encoding;
pub mod field;
mod laying;
mod matrix;
mod missing;
mod numbers;
mod page;
mod reduction;
mod sizes;
mod solving;

pub use encoding::encode_page;
pub use numbers::is_legal;
use refusal::Refusal;
pub use solving::solve;

// The number that document 01 gives an answer: that of its refusal, or 0.
pub fn answer_number(answer: Result<(), Refusal>) -> u64
    ensures { result ≡ answer_number answer }
{
    match answer {
        Ok(()) => 0,
        Err(r) => refusal::number(r),
    }
}
