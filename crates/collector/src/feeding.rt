// A feed (document 01, The collector): the checks in their order.
// The head and the store are two parameters, since `has_feed` of the C interface lends them apart.
ghost use Rattle.std.specs.Prelude.{◌≡◌, true, ℕ, ◌<◌, get_or, length};
ghost use Rattle.collector.specs.Place.{has_key, free};
ghost use Rattle.collector.specs.Feed.{Collector as CollectorModel, key_of, held_of, judge, good, arrive, hold, received, feed as fed_to};
ghost use Rattle.collector.specs.Image.{key_image, Made, Feeds};
ghost use Rattle.collector.specs.Steps.{State, MadeOf, Does, settled_at};

use crate::clock::{free_places, tick_places};
use crate::finding::{find_place, lowest_free};
use crate::header::{Judged, judge_page};
use crate::keeping::{Waiting, keep_page};
use crate::state::{Collector, Fed, Head, Key, LAST_SECOND, PLACE_OCTETS, PlaceState};
use crate::store::{clear_store, find_number, is_same_content};
use refusal::Refusal;

// Check 4: the page comes to place i, which has its key.
fn meet_page(
    head: &mut Head,
    store: &mut [u8],
    i: usize,
    page: &[u8; 56],
    out: &mut [u8; PLACE_OCTETS],
) -> Result<Fed, Refusal>
    requires { (i < 8) × (judge page.now ≡ good (key_of page.now) (held_of page.now))
        × ((c : CollectorModel) × State c head.old store.old × (has_key (key_of page.now) (get_or c.places i free) ≡ true)) }
    ensures { (c : CollectorModel) → State c head.old store.old → (t : ℕ)
        → Does (settled_at c i (arrive (get_or c.places i free) (key_of page.now) t (held_of page.now))) out.old result head.new store.new out.new }
{
    let place = head.places[i];
    match place.state {
        PlaceState::Free => Err(Refusal::Full),
        PlaceState::Done(_, _) => Err(Refusal::Done),
        PlaceState::Open(key, first, count) => {
            let numbers = place.numbers;
            let Some(j) = find_number(&numbers[..count], page[2]) else {
                let held = Waiting {
                    key,
                    first,
                    count,
                    numbers,
                };
                return keep_page(head, store, i, held, page, out);
            };
            if is_same_content(store, i * PLACE_OCTETS + j * 53, page) {
                return Err(Refusal::Repeat);
            }
            Err(Refusal::Conflict)
        }
    }
}

// Checks 4 and 5: the place of the key, or the lowest free one.
fn hold_page(
    head: &mut Head,
    store: &mut [u8],
    key: Key,
    second: u64,
    page: &[u8; 56],
    out: &mut [u8; PLACE_OCTETS],
) -> Result<Fed, Refusal>
    requires { (key ≡ key_image (key_of page.now)) × (judge page.now ≡ good (key_of page.now) (held_of page.now)) × MadeOf head.old store.old }
    ensures { (c : CollectorModel) → State c head.old store.old
        → Does (hold c second (key_of page.now) (held_of page.now)) out.old result head.new store.new out.new }
{
    if let Some(i) = find_place(&head.places, key) {
        return meet_page(head, store, i, page, out);
    }
    let Some(j) = lowest_free(&head.places) else {
        return Err(Refusal::Full);
    };
    let none = Waiting {
        key,
        first: second,
        count: 0,
        numbers: [0u8; 32],
    };
    keep_page(head, store, j, none, page, out)
}

// Checks 3 to 5, after the clock.
fn receive(
    head: &mut Head,
    store: &mut [u8],
    second: u64,
    page: &[u8; 56],
    out: &mut [u8; PLACE_OCTETS],
) -> Result<Fed, Refusal>
    requires { MadeOf head.old store.old }
    ensures { (c : CollectorModel) → State c head.old store.old
        → Does (received c second (judge page.now)) out.old result head.new store.new out.new }
{
    match judge_page(page)? {
        Judged::Stop => {
            clear_store(store);
            head.places = free_places();
            Err(Refusal::Stop)
        }
        Judged::Hold(key) => hold_page(head, store, key, second, page, out),
    }
}

// A feed, on a head and a store.
fn feed_head(
    head: &mut Head,
    store: &mut [u8],
    second: u64,
    page: &[u8],
    out: &mut [u8],
) -> Result<Fed, Refusal>
    requires { MadeOf head.old store.old }
    ensures { (c : CollectorModel) → State c head.old store.old
        → Does (fed_to c (record { second = second; page = page.now; room = length out.old })) out.old result head.new store.new out.new }
{
    let Some(page) = page.as_array() else {
        return Err(Refusal::Length);
    };
    let Some(out) = out.as_mut_array() else {
        return Err(Refusal::Out);
    };
    if second > LAST_SECOND {
        return Err(Refusal::Second);
    }
    if second < head.last {
        return Err(Refusal::Clock);
    }
    tick_places(&mut head.places, store, head.timeout, second);
    head.last = second;
    receive(head, store, second, page, out)
}

// A feed on a collector in two parts: its head, and its store where it stands.
pub fn feed_in_place(
    head: &mut Head,
    store: &mut [u8],
    second: u64,
    page: &[u8],
    out: &mut [u8],
) -> Result<Fed, Refusal>
    requires { Made (record { head = head.old; store = store.old }) }
    ensures { Feeds (record { head = head.old; store = store.old }) (record { second = second; page = page.now; room = length out.old }) out.old
        result (record { head = head.new; store = store.new }) out.new }
{
    feed_head(head, store, second, page, out)
}

// A feed: the collector, a second, a page and an output buffer.
pub fn feed(
    collector: &mut Collector,
    second: u64,
    page: &[u8],
    out: &mut [u8],
) -> Result<Fed, Refusal>
    requires { Made collector.old }
    ensures { Feeds collector.old (record { second = second; page = page.now; room = length out.old }) out.old result collector.new out.new }
{
    feed_in_place(&mut collector.head, &mut collector.store, second, page, out)
}
