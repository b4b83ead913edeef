// The reader of message type 1 (document 01, Message type 1).
ghost use Rattle.std.specs.Prelude.{◌≡◌, length};
ghost use Rattle.reader.specs.Reader.{reading, reading_octets, Reads};

use crate::emit::emit_message;
use crate::plan::plan_message;
use mt1::{RefusalAt, refuse};
use refusal::Refusal;

pub const RECORDS_OCTETS: usize = 21808;

// The most octets that are read at once.
pub const MOST_OCTETS: usize = 20480;

// Reads octets that need not be pages, 4 to 20,480 of them, with a lent mask, into records of 16 octets.
pub fn read_octets(
    octets: &[u8],
    mask_id: u64,
    mask: &[u8],
    records: &mut [u8],
) -> Result<u64, RefusalAt>
    ensures { Reads reading_octets (record { octets = octets.now; lent = record { id = mask_id; octets = mask.now }; room = length records.old }) records.old result records.new }
{
    let n = octets.len();
    if n < 4 || n > MOST_OCTETS {
        return Err(refuse(Refusal::Length, 0));
    }
    if records.len() != RECORDS_OCTETS {
        return Err(refuse(Refusal::Out, 0));
    }
    let plan = plan_message(octets, mask_id, mask)?;
    let source = if plan.lent { mask } else { octets };
    let written = emit_message(octets, source, plan, records);
    Ok((written / 16) as u64)
}

// Reads a message of 53k octets, with a lent mask, into records of 16 octets.
pub fn read(message: &[u8], mask_id: u64, mask: &[u8], records: &mut [u8]) -> Result<u64, RefusalAt>
    ensures { Reads reading (record { octets = message.now; lent = record { id = mask_id; octets = mask.now }; room = length records.old }) records.old result records.new }
{
    let n = message.len();
    if n < 53 || n > 1696 || n % 53 != 0 {
        return Err(refuse(Refusal::Length, 0));
    }
    read_octets(message, mask_id, mask, records)
}
