// The header, the mask and the blocks behind it, of the records of a message.
ghost use Rattle.std.specs.Prelude.{◌≡◌, false, ◌≤◌, get_or};
ghost use Rattle.writer.specs.Writer.{header_of};
ghost use Rattle.writer.specs.Rendering.{Appends, header_part, mask_part, interval_part, block_part, both, clocks_part, subsets_part};

use crate::append::{Body, has_flag, octet_at, pair_at};
use crate::part::{Part, append_parts};
use crate::system::{
    append_multiplier, append_subset_part, append_system, is_in_subset, is_system,
};

// The records of a message, from the header's on, and those of its first and of its second system.
#[derive(Clone, Copy)]
pub struct Message<'a> {
    pub records: &'a [u8],
    pub first: &'a [u8],
    pub second: &'a [u8],
}

// The header; its reserved bits are 0.
pub fn append_header(message: Message, body: &mut Body)
    ensures { Appends body.old body.new (header_part message.entry.records.now) }
{
    let records = message.records;
    body.append(12, pair_at(records, 4));
    body.append(6, u64::from(octet_at(records, 1)));
    body.append(4, 0);
    body.append(5, u64::from(octet_at(records, 2)));
    body.append(5, u64::from(octet_at(records, 3)));
}

// The mask, if the header says that it is there.
pub fn append_mask(message: Message, body: &mut Body)
    ensures { Appends body.old body.new (mask_part message.entry.records.now message.entry.first.now message.entry.second.now) }
{
    if !has_flag(message.records, 0) {
        return;
    }
    body.append(
        4,
        u64::from(is_system(message.first)) + u64::from(is_system(message.second)),
    );
    append_system(message.first, body);
    append_system(message.second, body);
    body.append(6, 0);
}

// Whether the block of the kth flag is there; its interval, if it is.
fn append_interval(records: &[u8], k: usize, body: &mut Body) -> bool
    requires { k ≤ 5 }
    ensures { (result ≡ get_or (header_of records.now).flags k false) × Appends body.old body.new (interval_part records.now k) }
{
    if !has_flag(records, k) {
        return false;
    }
    body.append(4, u64::from(octet_at(records, 5 + k)));
    true
}

// The block of the kth flag: its interval, and a part of each system.
pub fn append_block(message: Message, k: usize, part: Part, body: &mut Body)
    requires { k ≤ 5 }
    ensures { Appends body.old body.new (block_part message.entry.records.now k (both part message.entry.first.now message.entry.second.now)) }
{
    if !append_interval(message.records, k, body) {
        return;
    }
    append_parts(part, message.first, body);
    append_parts(part, message.second, body);
}

// The clock full block: the multipliers before the clocks.
pub fn append_clocks(message: Message, body: &mut Body)
    ensures { Appends body.old body.new (block_part message.entry.records.now 2 (clocks_part message.entry.first.now message.entry.second.now)) }
{
    if !append_interval(message.records, 2, body) {
        return;
    }
    append_multiplier(message.first, body);
    append_multiplier(message.second, body);
    append_parts(Part::Clock, message.first, body);
    append_parts(Part::Clock, message.second, body);
}

// The clock subset block: the systems that are in it, in the order of the records.
pub fn append_subset(message: Message, body: &mut Body)
    ensures { Appends body.old body.new (block_part message.entry.records.now 3 (subsets_part message.entry.first.now message.entry.second.now)) }
{
    if !append_interval(message.records, 3, body) {
        return;
    }
    body.append(
        4,
        u64::from(is_in_subset(message.first)) + u64::from(is_in_subset(message.second)),
    );
    append_subset_part(message.first, body);
    append_subset_part(message.second, body);
}
