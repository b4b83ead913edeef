// The store: the contents of the pages that wait, and their numbers.
// It stays a slice, with its length in the contracts: `has_feed` of the C interface lends it so, and `Made` says its length.
ghost use Rattle.std.specs.Prelude.{◌≡◌, ◌+◌, ◌*◌, ◌≤◌, ◌<◌, ◌==◌, drop, length, replicate, take, position};
ghost use Rattle.collector.specs.Feed.{same_octets};
ghost use Rattle.lists.specs.Lists.{laid};

use crate::state::PLACE_OCTETS;

// The place of a number.
pub fn find_number(numbers: &[u8], n: u8) -> Option<usize>
    ensures { result ≡ position (λ m. n == m) numbers.now }
{
    numbers.iter().position(|m| n == *m)
}

// Whether the 53 octets from `at` on are the page's content.
pub fn is_same_content(store: &[u8], at: usize, page: &[u8; 56]) -> bool
    requires { (length store.now ≡ 13568) × (at + 53 ≤ 13568) }
    ensures { result ≡ same_octets (take 53 (drop at store.now)) (drop 3 page.now) }
{
    store[at..at + 53] == page[3..]
}

// Lays the page's content over the store from `at` on.
pub fn put_content(store: &mut [u8], at: usize, page: &[u8; 56])
    requires { (length store.old ≡ 13568) × (at + 53 ≤ 13568) }
    ensures { store.new ≡ laid store.old at (drop 3 page.now) }
{
    store[at..at + 53].copy_from_slice(&page[3..]);
}

// Lays zeros over the octets of place i.
pub fn clear_place(store: &mut [u8], i: usize)
    requires { (length store.old ≡ 13568) × (i < 8) }
    ensures { store.new ≡ laid store.old (i * 1696) (replicate 1696 0) }
{
    let at = i * PLACE_OCTETS;
    store[at..at + PLACE_OCTETS].fill(0);
}

// Lays zeros over a whole store, of whatever length.
pub fn clear_store(store: &mut [u8])
    ensures { store.new ≡ replicate (length store.old) 0 }
{
    store.fill(0);
}

// The same numbers, wide. A function of its own: written where `solve` is called, the proof of the map's result did not close.
pub fn wide_numbers(numbers: [u8; 32]) -> [u64; 32]
    ensures { result ≡ numbers }
{
    numbers.map(u64::from)
}
