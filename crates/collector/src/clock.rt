// Check 2: the second becomes the last one, and places whose time-out is over are freed.
ghost use Rattle.std.specs.Prelude.{◌≡◌, ◌<◌, List, map, replicate};
ghost use Rattle.collector.specs.Place.{Place as PlaceModel, over, free, expire};
ghost use Rattle.collector.specs.Image.{place_image};
ghost use Rattle.collector.specs.Steps.{state_over, Hold, Holding, expire_at};

use crate::state::{PLACES, Place, PlaceState};
use crate::store::clear_place;

// Whether a first second is a time-out or more ago.
fn is_over(first: u64, timeout: u64, second: u64) -> bool
    ensures { result ≡ over timeout second first }
{
    timeout <= second && first <= second - timeout
}

// Whether a place's first second is a time-out or more ago.
fn is_place_over(place: &Place, timeout: u64, second: u64) -> bool
    ensures { result ≡ state_over timeout second place.now.state }
{
    match place.state {
        PlaceState::Free => false,
        PlaceState::Open(_, first, _) | PlaceState::Done(_, first) => {
            is_over(first, timeout, second)
        }
    }
}

// A free place.
pub fn free_place() -> Place
    ensures { result ≡ place_image free }
{
    Place {
        state: PlaceState::Free,
        numbers: [0u8; 32],
    }
}

// Frees place i if its time-out is over.
fn expire_place(places: &mut [Place; PLACES], store: &mut [u8], i: usize, timeout: u64, second: u64)
    requires { (i < 8) × Holding places.old store.old }
    ensures { (ps : List PlaceModel) → Hold ps places.old store.old → Hold (expire_at timeout second i ps) places.new store.new }
{
    if is_place_over(&places[i], timeout, second) {
        clear_place(store, i);
        places[i] = free_place();
    }
}

// Frees every place whose time-out is over. By index: of a store that `chunks_exact_mut` lends the library's contract tells no octet.
pub fn tick_places(places: &mut [Place; PLACES], store: &mut [u8], timeout: u64, second: u64)
    requires { Holding places.old store.old }
    ensures { (ps : List PlaceModel) → Hold ps places.old store.old → Hold (map (expire timeout second) ps) places.new store.new }
{
    for i in 0..PLACES {
        expire_place(places, store, i, timeout, second);
    }
}

// Eight free places.
pub fn free_places() -> [Place; PLACES]
    ensures { result ≡ map place_image (replicate 8 free) }
{
    let place = free_place();
    [place; PLACES]
}
