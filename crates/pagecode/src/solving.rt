// Solving pages for the message that has them (document 01, The page code, third paragraph).
ghost use Rattle.pagecode.specs.Solve.{Solved};

use crate::numbers::{all_different, all_legal, are_pages};
use crate::reduction::solve_pages;
use crate::sizes::MESSAGE_OCTETS;
use refusal::Refusal;

// Solves k pages, given the 53k octets of their contents and their k numbers, for the message that has them, into 1,696 octets.
#[tactic(auto, unfolding(crate::specs::Solve::solve_answer))]
pub fn solve(contents: &[u8], numbers: &[u64], out: &mut [u8]) -> Result<(), Refusal>
    ensures { Solved contents.now numbers.now out.old result out.new }
{
    if !are_pages(numbers.len(), contents.len()) {
        return Err(Refusal::Length);
    }
    let Some(out) = out.as_mut_array::<MESSAGE_OCTETS>() else {
        return Err(Refusal::Out);
    };
    if !all_legal(numbers) {
        return Err(Refusal::PageNumber);
    }
    if !all_different(numbers) {
        return Err(Refusal::Repeat);
    }
    solve_pages(contents, numbers, out);
    Ok(())
}
