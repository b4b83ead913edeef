// A satellite's row of the cell mask, from the cells that are listed behind it.
ghost use Rattle.std.specs.Prelude.{◌≡◌, Bool, List, ◌++◌, ◌+◌, ◌<◌, drop};
ghost use Rattle.writer.specs.Rendering.{Appends, is_cell, row, signals_of};

use crate::append::{Body, octet_at};

// Whether the record at the front is there, and is the cell of a signal.
fn is_cell(records: &[u8], g: usize) -> bool
    ensures { result ≡ is_cell g records.now }
{
    octet_at(records, 0) == 4 && usize::from(octet_at(records, 3)) == g
}

// The bit of a signal, if it is masked; the records behind its cell, if that is the next.
fn append_cell<'a>(system: &[u8], g: usize, records: &'a [u8], body: &mut Body) -> &'a [u8]
    requires { g < 16 }
    ensures { (bs : List Bool) × Appends body.old body.new bs
        × (row (drop g (signals_of system.now)) g records.now ≡ bs ++ row (drop (g + 1) (signals_of system.now)) (g + 1) result.now) }
{
    if !bits::bit_at(system, 96 + g) {
        return records;
    }
    let is_next = is_cell(records, g);
    body.append(1, u64::from(is_next));
    if is_next {
        return &records[records.len().min(16)..];
    }
    records
}

// The row of a satellite, of the records behind its own.
pub fn append_row(system: &[u8], records: &[u8], body: &mut Body)
    ensures { Appends body.old body.new (row (signals_of system.now) 0 records.now) }
{
    let mut rest = records;
    for g in 0..16 {
        rest = append_cell(system, g, rest, body);
    }
}
