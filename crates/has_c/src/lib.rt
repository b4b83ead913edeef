// The box for C: include/has.h says each call in C's terms. A slice is a pointer and a length.
#![tactic(auto)]

mod codes;

ghost use Rattle.std.specs.Prelude.{◌≡◌, ◌≤◌, length, take};
ghost use Rattle.pagecode.specs.Encode.{Encoded};
ghost use Rattle.pagecode.specs.Solve.{Solved};
ghost use Rattle.reader.specs.Reader.{reading, Reads};
ghost use Rattle.writer.specs.Writer.{Writes};
ghost use Rattle.mt1.specs.Time.{reference_time};
ghost use Rattle.image.specs.Calls.{started_answer, started, Feeds};
ghost use Rattle.drive.specs.Drive.{Replays};
ghost use Rattle.has_c.specs.Codes.{Is, Codes, page_code, read_code, value_code, fed_code};

use codes::{fed_code, page_code, read_code, value_code};
use refusal::Refusal;

const MOST_PAGES: usize = 32;

// One page of a message; the value is 0.
#[unsafe(no_mangle)]
pub extern "C" fn has_encode_page(
    message: &[u8],
    status: u64,
    number: u64,
    page: u64,
    out: &mut [u8],
) -> u64
    ensures { Codes (λ a. Encoded message.now status number page out.old a out.new) (page_code 0) result }
{
    page_code(pagecode::encode_page(message, status, number, page, out), 0)
}

// At most 32 page numbers, as wide as `solve` takes them. By the array's `map`, a call of one plain page took 0.30 µs in the place of 0.11.
fn wide_numbers(numbers: &[u8]) -> [u64; 32]
    requires { length numbers.now ≤ 32 }
    ensures { take (length numbers.now) result ≡ numbers.now }
{
    let mut wide = [0u64; MOST_PAGES];
    for (i, &number) in numbers.iter().enumerate() {
        wide[i] = u64::from(number);
    }
    wide
}

// The message of as many pages as there are numbers; the value is how many.
#[unsafe(no_mangle)]
pub extern "C" fn has_solve(contents: &[u8], numbers: &[u8], out: &mut [u8]) -> u64
    ensures { Codes (λ a. Solved contents.now numbers.now out.old a out.new) (page_code (length numbers.now)) result }
{
    let k = numbers.len();
    if k > MOST_PAGES {
        return page_code(Err(Refusal::Length), 0);
    }
    let wide = wide_numbers(numbers);
    page_code(pagecode::solve(contents, &wide[..k], out), k as u64)
}

// The records of a message; the value is how many, or the bit place of the refusal.
#[unsafe(no_mangle)]
pub extern "C" fn has_read(message: &[u8], mask_id: u64, mask: &[u8], records: &mut [u8]) -> u64
    ensures { Codes (λ a. Reads reading (record { octets = message.now; lent = record { id = mask_id; octets = mask.now }; room = length records.old }) records.old a records.new) read_code result }
{
    read_code(reader::read(message, mask_id, mask, records))
}

// The message of records; the value is its size.
#[unsafe(no_mangle)]
pub extern "C" fn has_write(records: &[u8], mask_id: u64, mask: &[u8], out: &mut [u8]) -> u64
    ensures { Codes (λ a. Writes (record { records = records.now; lent = record { id = mask_id; octets = mask.now }; room = length out.old }) out.old a out.new) value_code result }
{
    value_code(writer::write(records, mask_id, mask, out))
}

// The second that a time of hour means; the value is the second.
#[unsafe(no_mangle)]
pub extern "C" fn has_reference_time(second: u64, time: u64) -> u64
    ensures { Is (value_code (reference_time second time)) result }
{
    value_code(mt1::reference_time(second, time))
}

// A fresh collector, in octets; the value is 0.
#[unsafe(no_mangle)]
pub extern "C" fn has_start(head: &mut [u8], store: &mut [u8], timeout: u64) -> u64
    ensures { Is (page_code 0 (started_answer (record { head = head.old; store = store.old }) timeout)) result
        × (record { head = head.new; store = store.new } ≡ started (record { head = head.old; store = store.old }) timeout) }
{
    page_code(image::start(head, store, timeout), 0)
}

// A feed to a collector in octets; the value says KEPT with the count, or READY with the size.
#[unsafe(no_mangle)]
pub extern "C" fn has_feed(
    head: &mut [u8],
    store: &mut [u8],
    second: u64,
    page: &[u8],
    out: &mut [u8],
) -> u64
    ensures { Codes (λ a. Feeds (record { head = head.old; store = store.old }) (record { second = second; page = page.now; room = length out.old }) out.old a
        (record { head = head.new; store = store.new }) out.new) fed_code result }
{
    fed_code(image::feed(head, store, second, page, out))
}

// A recorded drive; the value is how many octets of log it has.
#[unsafe(no_mangle)]
pub extern "C" fn has_replay(timeout: u64, entries: &[u8], log: &mut [u8]) -> u64
    ensures { Codes (λ a. Replays timeout entries.now log.old a log.new) value_code result }
{
    value_code(drive::replay(timeout, entries, log))
}
