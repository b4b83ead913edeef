// A list of records as the bits of a message, whatever its octets are: whether they are a message's is judged behind this, by reading them back.
ghost use Rattle.std.specs.Prelude.{◌≡◌, ◌+◌, ◌-◌, ◌*◌, ◌/◌, ◌≤◌, ◌==◌, length, slice_index};
ghost use Rattle.std.specs.List.{find, range_with_len};
ghost use Rattle.writer.specs.Rendering.{Appends, Whole, second_at, rendered_of, rendered};

use crate::append::Body;
use crate::block::{
    Message, append_block, append_clocks, append_header, append_mask, append_subset,
};
use crate::part::Part;

// The first record behind the first system's own that is a system's. Of `chunks_exact(16).position(..)` the check finds no proof: not that no
// record before it is a system's.
fn next_system(records: &[u8]) -> Option<usize>
    ensures { result ≡ find (λ k. slice_index records.now (16 * k) == 2) (range_with_len 2 (length records.now / 16 - 2)) }
{
    (2..records.len() / 16).find(|k| records[16 * *k] == 2)
}

// Where the second system's records begin; behind the last record if there is none.
fn second_at(records: &[u8]) -> usize
    requires { Whole records.now }
    ensures { (result ≡ second_at records.now) × (16 ≤ result) × (result ≤ length records.now) }
{
    match next_system(records) {
        Some(k) => 16 * k,
        None => records.len(),
    }
}

// The header, the mask and the blocks of a message.
fn render_message(message: Message, body: &mut Body)
    ensures { Appends body.old body.new (rendered_of message.entry.records.now message.entry.first.now message.entry.second.now) }
{
    append_header(message, body);
    append_mask(message, body);
    append_block(message, 1, Part::Orbit, body);
    append_clocks(message, body);
    append_subset(message, body);
    append_block(message, 4, Part::Code, body);
    append_block(message, 5, Part::Phase, body);
}

// The bits that a list of records makes. `Whole` stands in the contracts of the four private functions that slice the records of a list, or hand them
// to one that does: a struct around the one slice would be made once and opened at each use, which is no plainer than the word.
pub fn render(records: &[u8], body: &mut Body)
    requires { Whole records.now }
    ensures { Appends body.old body.new (rendered records.now) }
{
    let cut = second_at(records);
    render_message(
        Message {
            records,
            first: &records[16..cut],
            second: &records[cut..],
        },
        body,
    );
}
