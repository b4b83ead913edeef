// A place of the collector in 41 octets: nine of its state, and its 32 page numbers.
ghost use Rattle.std.specs.Prelude.{◌≡◌, [], ◌∷◌, ◌++◌, ◌+◌, ◌≤◌, length};
ghost use Rattle.lists.specs.Lists.{laid};
ghost use Rattle.image.specs.Octets.{word, state_octets, place_octets};
ghost use Rattle.image.specs.Reading.{key_at, state_at, place_at};

use crate::octets::{put_octets, put_word, read_numbers, read_word};
use collector::{Key, Place, PlaceState};

pub const PLACE_OCTETS: usize = 41;

// The kinds stay numbers: each is an octet of the image's format, which `has_start` and `has_feed` of the C interface keep over a reset (`state_octets`).
const FREE: u8 = 0;

const OPEN: u8 = 1;

const DONE: u8 = 2;

// Lays the nine octets of a state over a buffer.
fn put_state(out: &mut [u8], at: usize, kind: u8, key: Key, first: u64, count: u8)
    requires { at + 9 ≤ length out.old }
    ensures { out.new ≡ laid out.old at (kind ∷ key.status ∷ key.number ∷ key.size ∷ (word first ++ (count ∷ []))) }
{
    put_octets(out, at, &[kind, key.status, key.number, key.size]);
    put_word(out, at + 4, first);
    out[at + 8] = count;
}

// Writes a state: what its case does not use is 0.
fn write_state(out: &mut [u8], at: usize, state: PlaceState)
    requires { at + 9 ≤ length out.old }
    ensures { out.new ≡ laid out.old at (state_octets state) }
{
    match state {
        PlaceState::Free => {
            let none = Key {
                status: 0,
                number: 0,
                size: 0,
            };
            put_state(out, at, FREE, none, 0, 0);
        }
        PlaceState::Open(key, first, count) => {
            put_state(out, at, OPEN, key, first, (count % 256) as u8);
        }
        PlaceState::Done(key, first) => {
            put_state(out, at, DONE, key, first, 0);
        }
    }
}

// Writes a place.
pub fn write_place(out: &mut [u8], at: usize, place: &Place)
    requires { at + 41 ≤ length out.old }
    ensures { (out.new ≡ laid out.old at (place_octets place.now)) × (length (place_octets place.now) ≡ 41) }
{
    write_state(out, at, place.state);
    put_octets(out, at + 9, &place.numbers);
}

// The key of the state in front of octets.
fn read_key(octets: &[u8]) -> Key
    requires { 9 ≤ length octets.now }
    ensures { result ≡ key_at octets.now }
{
    Key {
        status: octets[1],
        number: octets[2],
        size: octets[3],
    }
}

// The state in front of octets: free, unless its first octet says open or done.
fn read_state(octets: &[u8]) -> PlaceState
    requires { 9 ≤ length octets.now }
    ensures { result ≡ state_at octets.now }
{
    let key = read_key(octets);
    let first = read_word(&octets[4..]);
    match octets[0] {
        OPEN => PlaceState::Open(key, first, usize::from(octets[8])),
        DONE => PlaceState::Done(key, first),
        _ => PlaceState::Free,
    }
}

// The place in front of octets.
pub fn read_place(octets: &[u8]) -> Place
    requires { 41 ≤ length octets.now }
    ensures { result ≡ place_at octets.now }
{
    Place {
        state: read_state(octets),
        numbers: read_numbers(&octets[9..]),
    }
}
