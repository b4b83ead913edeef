// The tests of sizes and page numbers (document 01, The page, and The page code).
ghost use Rattle.std.specs.Prelude.{◌≡◌, length};
ghost use Rattle.std.specs.List.{list_all};
ghost use Rattle.pagecode.specs.Page.{legal};
ghost use Rattle.pagecode.specs.Encode.{are_pages};
ghost use Rattle.pagecode.specs.Solve.{different};

use crate::sizes::{CONTENT_OCTETS, MOST_PAGES};

// Whether n octets are k pages, k from 1 to 32.
#[tactic(auto, unfolding(crate::specs::Encode::are_pages))]
pub fn are_pages(k: usize, n: usize) -> bool
    ensures { result ≡ are_pages k n }
{
    1 <= k && k <= MOST_PAGES && n == k * CONTENT_OCTETS
}

// Whether p is a legal page number of size k.
#[tactic(auto, unfolding(crate::specs::Page::legal))]
pub fn is_legal(k: usize, p: u64) -> bool
    ensures { result ≡ legal k p }
{
    (1 <= p && p <= k as u64) || (33 <= p && p <= 255)
}

// Whether every number is legal, the size being how many there are.
pub fn all_legal(numbers: &[u64]) -> bool
    ensures { result ≡ list_all (legal (length numbers.now)) numbers.now }
{
    let k = numbers.len();
    numbers.iter().all(|p| is_legal(k, *p))
}

// Whether no number stands twice. By `iter().enumerate().all(..)` the same place would stand in a closure, which is no plainer.
pub fn all_different(numbers: &[u64]) -> bool
    ensures { result ≡ different numbers.now }
{
    for i in 0..numbers.len() {
        if numbers[i + 1..].contains(&numbers[i]) {
            return false;
        }
    }
    true
}
