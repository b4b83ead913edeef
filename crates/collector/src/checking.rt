// Whether a head and a store are those of a collector that our calls made.
ghost use Rattle.std.specs.Prelude.{◌≡◌, [], ◌*◌, ◌≤◌, length, take, max, fold};
ghost use Rattle.collector.specs.Checks.{noughts, is_key, are_numbers, is_rest, is_kept, is_open, is_place, are_eight, any_has, is_again, are_apart, is_made};
ghost use Rattle.collector.specs.Image.{Decides, Made};

use crate::finding::has_key;
use crate::keeping::Waiting;
use crate::starting::is_startable;
use crate::state::{Head, Key, LAST_SECOND, PLACE_OCTETS, PLACES, Place, PlaceState, STORE_OCTETS};

// The largest of some octets, or 0. The fold looks at every octet and has no way out, so that many are looked at at once:
// by `all`, which was tried, an image's feed takes 10 microseconds in place of 0.4.
fn largest(octets: &[u8]) -> u8
    ensures { result ≡ fold max 0 octets.now }
{
    octets.iter().fold(0, |most, octet| most.max(*octet))
}

// Whether octets are all 0.
fn are_nought(octets: &[u8]) -> bool
    ensures { result ≡ noughts octets.now }
{
    largest(octets) == 0
}

// Whether a page that is held can have the key.
fn is_key(key: Key) -> bool
    ensures { result ≡ is_key key }
{
    key.status <= 1 && key.number <= 31 && 1 <= key.size && key.size <= 32
}

// Whether numbers are legal for the size, and all different.
fn are_numbers(numbers: &[u8], size: u8) -> bool
    ensures { result ≡ are_numbers size [] numbers.now }
{
    numbers.iter().enumerate().all(|(i, number)| {
        pagecode::is_legal(usize::from(size), u64::from(*number)) && !numbers[..i].contains(number)
    })
}

// Whether what is behind the pages of a place is 0: its numbers and its octets.
fn is_rest(numbers: &[u8], octets: &[u8]) -> bool
    ensures { result ≡ is_rest 0 numbers.now octets.now }
{
    are_nought(numbers) && are_nought(octets)
}

// Whether a place may have the key and the first second.
fn is_kept(key: Key, first: u64, last: u64) -> bool
    ensures { result ≡ is_kept last key first }
{
    is_key(key) && first <= last
}

// Whether a place can be open with this key, these pages and nothing behind them.
fn is_open(held: &Waiting, octets: &[u8], last: u64) -> bool
    requires { length octets.now ≡ 1696 }
    ensures { result ≡ is_open last held.now.key held.now.first held.now.count held.now.numbers octets.now }
{
    is_kept(held.key, held.first, last)
        && 1 <= held.count
        && held.count < usize::from(held.key.size)
        && are_numbers(&held.numbers[..held.count], held.key.size)
        && is_rest(&held.numbers[held.count..], &octets[held.count * 53..])
}

// Whether a place and its octets are as a feed leaves them.
fn is_place(place: &Place, octets: &[u8], last: u64) -> bool
    requires { length octets.now ≡ 1696 }
    ensures { result ≡ is_place last place.now octets.now }
{
    let numbers = place.numbers;
    match place.state {
        PlaceState::Free => is_rest(&numbers, octets),
        PlaceState::Open(key, first, count) => {
            let held = Waiting {
                key,
                first,
                count,
                numbers,
            };
            is_open(&held, octets, last)
        }
        PlaceState::Done(key, first) => is_kept(key, first, last) && is_rest(&numbers, octets),
    }
}

// Whether the places and their parts of the store are as a feed leaves them.
fn are_places(places: &[Place; PLACES], store: &[u8], last: u64) -> bool
    requires { length store.now ≡ 13568 }
    ensures { result ≡ are_eight last places.now store.now }
{
    places.iter().enumerate().all(|(i, place)| is_place(
        place,
        &store[i * PLACE_OCTETS..i * PLACE_OCTETS + PLACE_OCTETS],
        last,
    ))
}

// Whether a place has the key.
fn is_used(key: Key, places: &[Place]) -> bool
    ensures { result ≡ any_has key places.now }
{
    places.iter().any(|place| has_key(place, key))
}

// Whether a place has the key of this one.
fn is_again(place: &Place, places: &[Place]) -> bool
    ensures { result ≡ is_again place.now.state places.now }
{
    match place.state {
        PlaceState::Free => false,
        PlaceState::Open(key, _, _) | PlaceState::Done(key, _) => is_used(key, places),
    }
}

// Whether no two places have one key.
fn are_apart(places: &[Place; PLACES]) -> bool
    ensures { result ≡ are_apart places.now }
{
    places
        .iter()
        .enumerate()
        .all(|(i, place)| !is_again(place, &places[i + 1..]))
}

// Whether each test of a head and a store passes.
fn passes(head: &Head, store: &[u8]) -> bool
    ensures { result ≡ is_made head.now store.now }
{
    store.len() == STORE_OCTETS
        && is_startable(head.timeout)
        && head.last <= LAST_SECOND
        && are_apart(&head.places)
        && are_places(&head.places, store, head.last)
}

// Whether a head and a store are those of a collector that our calls made.
pub fn is_made(head: Head, store: &[u8]) -> bool
    ensures { Decides result (Made (record { head = head; store = store.now })) }
{
    passes(&head, store)
}
