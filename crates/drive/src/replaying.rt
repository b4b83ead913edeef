// A recorded drive, replayed: the checks in their order.
ghost use Rattle.std.specs.Prelude.{◌≡◌};
ghost use Rattle.drive.specs.Drive.{are_entries, Replays};

use crate::logging::{ENTRY_OCTETS, LOG_OCTETS, log_entries};
use refusal::Refusal;

const MOST_OCTETS: usize = 4294967296;

// Whether so many octets are whole entries, and not too many of them.
fn is_whole(octets: usize) -> bool
    ensures { result ≡ are_entries octets }
{
    octets % ENTRY_OCTETS == 0 && octets <= MOST_OCTETS
}

// Feeds a fresh collector the entries of a recorded drive, and logs each answer: how many octets of log. 55 octets for each entry are enough: `log-fits` in proofs/Room.antt.
pub fn replay(timeout: u64, entries: &[u8], log: &mut [u8]) -> Result<u64, Refusal>
    ensures { Replays timeout entries.now log.old result log.new }
{
    if !is_whole(entries.len()) {
        return Err(Refusal::Length);
    }
    if log.len() != LOG_OCTETS * (entries.len() / ENTRY_OCTETS) {
        return Err(Refusal::Out);
    }
    let started = collector::start(timeout);
    started.answer?;
    let mut fresh = started.collector;
    Ok(log_entries(&mut fresh.head, &mut fresh.store, entries, log) as u64)
}
