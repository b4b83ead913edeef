// The writer of message type 1 (document 01, Records).
ghost use Rattle.std.specs.Prelude.{◌≡◌, true, ◌≤◌, length, Err};
ghost use Rattle.bits.specs.Bits.{bits_of};
ghost use Rattle.refusal.specs.declared.Refusal.{Refusal};
ghost use Rattle.writer.specs.Writer.{ReadsTo, Judged, Writes};
ghost use Rattle.writer.specs.Rendering.{Whole};

use crate::append::{BODY_OCTETS, Body};
use crate::header::{is_list, lacks};
use crate::render::render;
use reader::RECORDS_OCTETS;
use refusal::Refusal;

// A message has at most 32 pages of 53 octets.
pub const MESSAGE_OCTETS: usize = 1696;

const PAGE_OCTETS: usize = 53;

const PAGE_BITS: usize = 424;

const MESSAGE_BITS: usize = 13568;

// Whether octets read to records.
fn reads_back(octets: &[u8], mask_id: u64, mask: &[u8], records: &[u8]) -> bool
    requires { (4 ≤ length octets.now) × (length octets.now ≤ 20480) × Whole records.now }
    ensures { (result ≡ true → ReadsTo (record { id = mask_id; octets = mask.now }) (bits_of octets.now) records.now)
        × (ReadsTo (record { id = mask_id; octets = mask.now }) (bits_of octets.now) records.now → result ≡ true) }
{
    let mut again = [0; RECORDS_OCTETS];
    let Ok(n) = reader::read_octets(octets, mask_id, mask, &mut again) else {
        return false;
    };
    n == (records.len() / 16) as u64 && &again[..records.len()] == records
}

// The message of whole records, whose header is one that a message has, and whose mask is there.
fn write_body(records: &[u8], mask_id: u64, mask: &[u8], out: &mut [u8]) -> Result<u64, Refusal>
    requires { Whole records.now × (length out.old ≡ 1696) }
    ensures { Judged (record { id = mask_id; octets = mask.now }) records.now out.old result out.new
        × ((w : Refusal) → result ≡ Err w → out.new ≡ out.old) }
{
    let mut body = Body {
        octets: [0; BODY_OCTETS],
        bits: 0,
    };
    render(records, &mut body);
    let end = body.bits;
    if !reads_back(&body.octets[..end.div_ceil(8)], mask_id, mask, records) {
        return Err(Refusal::Form);
    }
    if end > MESSAGE_BITS {
        return Err(Refusal::Long);
    }
    let size = end.div_ceil(PAGE_BITS);
    body.fill(PAGE_BITS * size - end);
    let octets = &body.octets[..PAGE_OCTETS * size];
    out[..octets.len()].copy_from_slice(octets);
    Ok(size as u64)
}

// Writes the message of records of 16 octets, with a lent mask, in the fewest pages: how many they are.
pub fn write(records: &[u8], mask_id: u64, mask: &[u8], out: &mut [u8]) -> Result<u64, Refusal>
    ensures { Writes (record { records = records.now; lent = record { id = mask_id; octets = mask.now }; room = length out.old }) out.old result out.new }
{
    if out.len() != MESSAGE_OCTETS {
        return Err(Refusal::Out);
    }
    if !is_list(records) {
        return Err(Refusal::Form);
    }
    if lacks(records, mask_id, mask) {
        return Err(Refusal::Mask);
    }
    if records.len() > RECORDS_OCTETS {
        return Err(Refusal::Form);
    }
    write_body(records, mask_id, mask, out)
}
