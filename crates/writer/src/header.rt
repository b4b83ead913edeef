// The header record: whether a message has it, and whether the mask that it needs is lent.
ghost use Rattle.std.specs.Prelude.{◌≡◌, ◌&&◌, ◌≤◌, length};
ghost use Rattle.mt1.specs.Mt1.{needs_mask};
ghost use Rattle.writer.specs.Writer.{are_records, header_of, interval_fits, numbers_fit, intervals_fit, unnamed_zero, is_header, lacks_mask};

use crate::append::{has_flag, octet_at, pair_at};

// Whether the kind, the flags, the IDs and the time of hour are a header's.
fn numbers_fit(records: &[u8]) -> bool
    ensures { result ≡ numbers_fit records.now }
{
    octet_at(records, 0) == 1
        && octet_at(records, 1) < 64
        && octet_at(records, 2) < 32
        && octet_at(records, 3) < 32
        && pair_at(records, 4) < 3600
}

// Whether an interval is one of a block that is there, or of one that is not.
fn interval_fits(there: bool, v: u8) -> bool
    ensures { result ≡ interval_fits there v }
{
    if there { v < 15 } else { v == 255 }
}

// Whether each block's interval is as its flag says. Each test stands by itself: of `(1..6).all(..)` the check finds no proof.
fn intervals_fit(records: &[u8]) -> bool
    ensures { result ≡ intervals_fit (header_of records.now) records.now }
{
    interval_fits(has_flag(records, 1), octet_at(records, 6))
        && interval_fits(has_flag(records, 2), octet_at(records, 7))
        && interval_fits(has_flag(records, 3), octet_at(records, 8))
        && interval_fits(has_flag(records, 4), octet_at(records, 9))
        && interval_fits(has_flag(records, 5), octet_at(records, 10))
}

// Whether the octets that have no name are 0.
fn unnamed_zero(records: &[u8]) -> bool
    requires { 16 ≤ length records.now }
    ensures { result ≡ unnamed_zero records.now }
{
    records[11..16] == [0; 5]
}

// Whether octets are whole records, of which the first is a header record that a message has.
#[tactic(auto, unfolding(crate::specs::Writer::is_header))]
pub fn is_list(records: &[u8]) -> bool
    ensures { result ≡ (are_records (length records.now) && is_header records.now) }
{
    !records.is_empty()
        && records.len() % 16 == 0
        && numbers_fit(records)
        && intervals_fit(records)
        && unnamed_zero(records)
}

// Whether a block behind the mask is there.
fn needs_mask(records: &[u8]) -> bool
    ensures { result ≡ needs_mask (header_of records.now) }
{
    (1..6).any(|k| has_flag(records, k))
}

// Whether the message needs a lent mask and there is none for it.
#[tactic(auto, unfolding(crate::specs::Writer::lacks_mask, crate::specs::Writer::header_of))]
pub fn lacks(records: &[u8], mask_id: u64, mask: &[u8]) -> bool
    ensures { result ≡ lacks_mask (record { id = mask_id; octets = mask.now }) (header_of records.now) }
{
    !has_flag(records, 0)
        && needs_mask(records)
        && reader::lacks_mask(mask_id, mask, u64::from(octet_at(records, 2)))
}
