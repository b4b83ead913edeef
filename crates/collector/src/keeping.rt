// A page is held at its place, and the last one solves the message (document 01, The collector, after check 5).
ghost use Rattle.std.specs.Prelude.{List, [], ◌∷◌, ◌++◌, length};
ghost use Rattle.collector.specs.Place.{Key as KeyModel, Held, done};
ghost use Rattle.collector.specs.Feed.{Collector, ready, grow, held_of, message_of};
ghost use Rattle.collector.specs.Steps.{Does, Keeping, Finishing, settled_at};

use crate::state::{Fed, Head, Key, PLACE_OCTETS, Place, PlaceState};
use crate::store::{clear_place, put_content, wide_numbers};
use refusal::Refusal;

// What a place has while its message is not solved: its key, the second of its first page, how many pages, and their numbers.
// A row of 32 and a count, and no list: so a place has them (`Place`, which the image's 41 octets hold, `place_octets`), and the libraries use no heap.
#[derive(Clone, Copy)]
pub struct Waiting {
    pub key: Key,
    pub first: u64,
    pub count: usize,
    pub numbers: [u8; 32],
}

// The last page has come: the message is solved, and the place is done.
fn finish_place(
    head: &mut Head,
    store: &mut [u8],
    i: usize,
    all: Waiting,
    out: &mut [u8; PLACE_OCTETS],
) -> Result<Fed, Refusal>
    requires { (c : Collector) × (k : KeyModel) × (pages : List Held) × Finishing c k pages head.old store.old i all }
    ensures { (c : Collector) (k : KeyModel) (pages : List Held) → Finishing c k pages head.old store.old i all
        → Does (settled_at c i (record { answer = ready k.size (message_of pages); place = done k all.first })) out.old result head.new store.new out.new }
{
    let at = i * PLACE_OCTETS;
    let size = usize::from(all.key.size);
    let wide = wide_numbers(all.numbers);
    let contents = &store[at..at + size * 53];
    let numbers = &wide[..size];
    pagecode::solve(contents, numbers, out)?;
    clear_place(store, i);
    head.places[i] = Place {
        state: PlaceState::Done(all.key, all.first),
        numbers: [0u8; 32],
    };
    Ok(Fed::Ready(size as u64))
}

// The page joins those of place i: KEPT, or READY.
pub fn keep_page(
    head: &mut Head,
    store: &mut [u8],
    i: usize,
    held: Waiting,
    page: &[u8; 56],
    out: &mut [u8; PLACE_OCTETS],
) -> Result<Fed, Refusal>
    requires { (c : Collector) × (k : KeyModel) × (pages : List Held) × Keeping c k pages head.old store.old i held page.now }
    ensures { (c : Collector) (k : KeyModel) (pages : List Held) → Keeping c k pages head.old store.old i held page.now
        → Does (settled_at c i (grow k held.first (pages ++ (held_of page.now ∷ [])))) out.old result head.new store.new out.new }
{
    put_content(store, i * PLACE_OCTETS + held.count * 53, page);
    let mut more = held;
    more.numbers[held.count] = page[2];
    more.count = held.count + 1;
    if more.count == usize::from(held.key.size) {
        return finish_place(head, store, i, more, out);
    }
    head.places[i] = Place {
        state: PlaceState::Open(held.key, held.first, more.count),
        numbers: more.numbers,
    };
    Ok(Fed::Kept(more.count as u64))
}
