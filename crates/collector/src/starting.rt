// A collector is started (document 01, The collector).
ghost use Rattle.std.specs.Prelude.{◌≡◌};
ghost use Rattle.collector.specs.Feed.{fresh, startable, start_answer, begun};
ghost use Rattle.collector.specs.Image.{collector_image, Made};

use crate::clock::free_places;
use crate::state::{Collector, Head, STORE_OCTETS, Started};
use refusal::Refusal;

// The product's time-out, in seconds (ICD 6.4.1).
pub const TIMEOUT: u64 = 150;

// Whether a collector may have the time-out.
pub fn is_startable(timeout: u64) -> bool
    ensures { result ≡ startable timeout }
{
    1 <= timeout && timeout <= 600
}

// A fresh collector.
fn fresh_collector(timeout: u64) -> Collector
    ensures { result ≡ collector_image (fresh timeout) }
{
    Collector {
        head: Head {
            timeout,
            last: 0,
            places: free_places(),
        },
        store: [0u8; STORE_OCTETS],
    }
}

// A fresh collector of a time-out of 1 to 600 s; else TIMEOUT, beside one of 1 s.
pub fn start(timeout: u64) -> Started
    ensures { (result.answer ≡ start_answer timeout) × (result.collector ≡ collector_image (begun timeout)) × Made result.collector }
{
    if is_startable(timeout) {
        let collector = fresh_collector(timeout);
        return Started {
            answer: Ok(()),
            collector,
        };
    }
    let collector = fresh_collector(1);
    Started {
        answer: Err(Refusal::Timeout),
        collector,
    }
}
