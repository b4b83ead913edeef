// Places are looked for: that of a key, and the lowest free one.
ghost use Rattle.std.specs.Prelude.{◌≡◌, position};
ghost use Rattle.collector.specs.Steps.{state_free, state_has_key};

use crate::state::{Key, Place, PlaceState};

// Whether a place has the key.
pub fn has_key(place: &Place, key: Key) -> bool
    ensures { result ≡ state_has_key key place.now.state }
{
    match place.state {
        PlaceState::Free => false,
        PlaceState::Open(held, _, _) | PlaceState::Done(held, _) => key == held,
    }
}

// The place that has the key.
pub fn find_place(places: &[Place], key: Key) -> Option<usize>
    ensures { result ≡ position (λ p. state_has_key key p.state) places.now }
{
    places.iter().position(|place| has_key(place, key))
}

// The lowest free place.
pub fn lowest_free(places: &[Place]) -> Option<usize>
    ensures { result ≡ position (λ p. state_free p.state) places.now }
{
    places
        .iter()
        .position(|place| place.state == PlaceState::Free)
}
