// Entries are fed one after another, and their answers logged.
ghost use Rattle.std.specs.Prelude.{◌≡◌, [], ◌∷◌, ◌+◌, ◌*◌, ◌/◌, ◌≤◌, length};
ghost use Rattle.collector.specs.Feed.{Collector, fresh};
ghost use Rattle.drive.specs.Drive.{log_of};
ghost use Rattle.drive.specs.Steps.{Appends, Small, fed_log, State, Roomy, Does};

use collector::{Fed, Head};
use refusal::Refusal;

// An entry: a second of 8 octets, and a page.
pub const ENTRY_OCTETS: usize = 64;

const SECOND_OCTETS: usize = 8;

// The octets of log for each entry: two, and 53 for the page that it may bring to a message.
pub const LOG_OCTETS: usize = 55;

const MESSAGE_OCTETS: usize = 1696;

const PAGE_OCTETS: usize = 53;

// The first octet of what is logged of an answer. These kinds stay numbers: each is an octet of the log's format, which `has_replay` of the C interface writes (`logged`).
const KEPT: u8 = 1;

const READY: u8 = 2;

const REFUSED: u8 = 3;

// The log while it is written: its octets, and how many of them are. Each method keeps the slice that is lent (`same`).
#[derive(Drop)]
struct Log<'a> {
    octets: &'a mut [u8],
    end: usize,
}

impl<'a> Log<'a> {
    // Two octets behind those that are written.
    fn push_pair(&mut self, kind: u8, number: u8)
        requires { self.old.end + 2 ≤ length self.old.octets.now }
        ensures appends { Appends self.old.octets.now self.old.end (kind ∷ number ∷ []) self.new.octets.now self.new.end }
        ensures same { self.new.octets.ghost_name ≡ self.old.octets.ghost_name }
    {
        self.octets[self.end] = kind;
        self.octets[self.end + 1] = number;
        self.end += 2;
    }

    // Octets behind those that are written.
    fn push_octets(&mut self, octets: &[u8])
        requires { self.old.end + length octets.now ≤ length self.old.octets.now }
        ensures appends { Appends self.old.octets.now self.old.end octets.now self.new.octets.now self.new.end }
        ensures same { self.new.octets.ghost_name ≡ self.old.octets.ghost_name }
    {
        let end = self.end + octets.len();
        self.octets[self.end..end].copy_from_slice(octets);
        self.end = end;
    }

    // What is logged of a page that was taken, whose message is in the front of a buffer.
    fn push_fed(&mut self, fed: Fed, out: &[u8; MESSAGE_OCTETS])
        requires { Small (Ok fed) × (self.old.end + length (fed_log (Ok fed) out.now) ≤ length self.old.octets.now) }
        ensures appends { Appends self.old.octets.now self.old.end (fed_log (Ok fed) out.now) self.new.octets.now self.new.end }
        ensures same { self.new.octets.ghost_name ≡ self.old.octets.ghost_name }
    {
        match fed {
            Fed::Kept(n) => self.push_pair(KEPT, n as u8),
            Fed::Ready(k) => {
                self.push_pair(READY, k as u8);
                self.push_octets(&out[..k as usize * PAGE_OCTETS]);
            }
        }
    }

    // What is logged of an answer, whose message is in the front of a buffer.
    fn push_answer(&mut self, answer: Result<Fed, Refusal>, out: &[u8; MESSAGE_OCTETS])
        requires { Small answer × (self.old.end + length (fed_log answer out.now) ≤ length self.old.octets.now) }
        ensures appends { Appends self.old.octets.now self.old.end (fed_log answer out.now) self.new.octets.now self.new.end }
        ensures same { self.new.octets.ghost_name ≡ self.old.octets.ghost_name }
    {
        match answer {
            Ok(fed) => self.push_fed(fed, out),
            Err(r) => self.push_pair(REFUSED, refusal::number(r) as u8),
        }
    }
}

// Feeds one entry, and logs its answer.
fn log_entry(head: &mut Head, store: &mut [u8], entry: &[u8], log: &mut Log)
    requires { (length entry.now ≡ 64) × ((c : Collector) × Roomy c head.old store.old entry.now log.old.end (length log.old.octets.now)) }
    ensures does { (c : Collector) → Roomy c head.old store.old entry.now log.old.end (length log.old.octets.now)
        → Does c entry.now log.old.octets.now log.old.end head.new log.new.end store.new log.new.octets.now }
    ensures same { log.new.octets.ghost_name ≡ log.old.octets.ghost_name }
{
    let mut out = [0u8; MESSAGE_OCTETS];
    let second = bits::number_at(entry, 0, 64);
    let fed = collector::feed_in_place(head, store, second, &entry[SECOND_OCTETS..], &mut out);
    log.push_answer(fed, &out);
}

// Feeds the entries, and logs each answer; the length of the log.
pub fn log_entries(head: &mut Head, store: &mut [u8], entries: &[u8], log: &mut [u8]) -> usize
    requires { State (fresh head.old.timeout) head.old store.old × (length log.old ≡ 55 * (length entries.now / 64)) }
    ensures { Appends log.old 0 (log_of head.old.timeout entries.now) log.new result }
{
    let mut log = Log {
        octets: log,
        end: 0,
    };
    for entry in entries.chunks_exact(ENTRY_OCTETS) {
        log_entry(head, store, entry, &mut log);
    }
    log.end
}
