// A head in 336 octets: the time-out, the last second, and eight places.
ghost use Rattle.std.specs.Prelude.{◌≡◌};
ghost use Rattle.image.specs.Octets.{head_octets};
ghost use Rattle.image.specs.Reading.{head_at};

use crate::octets::{put_word, read_word};
use crate::place::{PLACE_OCTETS, read_place, write_place};
use collector::{Head, Place};

pub const HEAD_OCTETS: usize = 336;

const PLACES: usize = 8;

// The octets in front of the places.
const CLOCK_OCTETS: usize = 8;

// Writes a head.
pub fn write_head(head: &Head, out: &mut [u8; HEAD_OCTETS])
    ensures { out.new ≡ head_octets head.now }
{
    put_word(out, 0, head.timeout);
    put_word(out, 4, head.last);
    for (i, place) in head.places.iter().enumerate() {
        write_place(out, CLOCK_OCTETS + PLACE_OCTETS * i, place);
    }
}

// The eight places that stand in octets.
fn read_places(octets: &[u8; HEAD_OCTETS]) -> [Place; PLACES]
    ensures { result ≡ (head_at octets.now).places }
{
    let mut places = collector::free_places();
    for (i, place) in places.iter_mut().enumerate() {
        *place = read_place(&octets[CLOCK_OCTETS + PLACE_OCTETS * i..]);
    }
    places
}

// The head that stands in octets.
pub fn read_head(octets: &[u8; HEAD_OCTETS]) -> Head
    ensures { result ≡ head_at octets.now }
{
    Head {
        timeout: read_word(octets),
        last: read_word(&octets[4..]),
        places: read_places(octets),
    }
}
