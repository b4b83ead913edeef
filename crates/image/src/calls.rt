// The calls on a collector that is octets. They take any octets, lengths and numbers.
ghost use Rattle.std.specs.Prelude.{◌≡◌, length};
ghost use Rattle.collector.specs.Feed.{fresh};
ghost use Rattle.collector.specs.Image.{head_image, Decides};
ghost use Rattle.image.specs.Calls.{started_answer, started, Feeds};
ghost use Rattle.image.specs.Reading.{Holds};

use crate::head::{HEAD_OCTETS, read_head, write_head};
use collector::{Fed, Head};
use refusal::Refusal;

const STORE_OCTETS: usize = 13568;

// The head of a fresh collector. `collector::start` makes one too, but in a whole collector, with its store of 13,568 octets; here the store stands where it is lent.
fn fresh_head(timeout: u64) -> Head
    ensures { result ≡ head_image (fresh timeout) }
{
    Head {
        timeout,
        last: 0,
        places: collector::free_places(),
    }
}

// A fresh collector of a time-out of 1 to 600 s.
pub fn start(head: &mut [u8], store: &mut [u8], timeout: u64) -> Result<(), Refusal>
    ensures { (result ≡ started_answer (record { head = head.old; store = store.old }) timeout)
        × (record { head = head.new; store = store.new } ≡ started (record { head = head.old; store = store.old }) timeout) }
{
    let Some(octets) = head.as_mut_array() else {
        return Err(Refusal::Length);
    };
    if store.len() != STORE_OCTETS {
        return Err(Refusal::Length);
    }
    if !collector::is_startable(timeout) {
        return Err(Refusal::Timeout);
    }
    write_head(&fresh_head(timeout), octets);
    collector::clear_store(store);
    Ok(())
}

// Whether octets are those of a collector that our calls made. `held` is the head that was read of them; it must be written to the same octets.
fn is_image(held: Head, head: &[u8; HEAD_OCTETS], store: &[u8]) -> bool
    ensures { Decides result (Holds held (record { head = head.now; store = store.now })) }
{
    let mut again = [0u8; HEAD_OCTETS];
    write_head(&held, &mut again);
    again == *head && collector::is_made(held, store)
}

// A feed: a second, a page and an output buffer.
pub fn feed(
    head: &mut [u8],
    store: &mut [u8],
    second: u64,
    page: &[u8],
    out: &mut [u8],
) -> Result<Fed, Refusal>
    ensures { Feeds (record { head = head.old; store = store.old }) (record { second = second; page = page.now; room = length out.old }) out.old result
        (record { head = head.new; store = store.new }) out.new }
{
    let Some(octets) = head.as_mut_array() else {
        return Err(Refusal::Length);
    };
    if store.len() != STORE_OCTETS {
        return Err(Refusal::Length);
    }
    let mut held = read_head(octets);
    if !is_image(held, octets, store) {
        return Err(Refusal::Form);
    }
    let fed = collector::feed_in_place(&mut held, store, second, page, out);
    write_head(&held, octets);
    fed
}
