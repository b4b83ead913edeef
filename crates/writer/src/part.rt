// What the records of a system's satellites and cells say, part by part.
ghost use Rattle.std.specs.Prelude.{◌≡◌, ◌≤◌, length};
ghost use Rattle.mt1.specs.Mt1.{iod_bits};
ghost use Rattle.writer.specs.Rendering.{Appends, is_chosen, kind_of, orbit_fields, part_of, gathered};

use crate::append::{Body, octet_at, pair_at};
use crate::row::append_row;

// The parts of a message that the records of satellites and cells make. No closure is plainer:
// the definitions of the contracts speak of the same seven, and a match on them says what each takes.
#[derive(Clone, Copy)]
pub enum Part {
    Orbit,
    Clock,
    Chosen,
    SubsetClock,
    Code,
    Phase,
    Cell,
}

// The kind of record that a part is taken of: a satellite's or a cell's. Kinds are octets of the records' format (document 01, Records),
// and no enum: what is rendered may have any octet there.
fn kind_of(part: Part) -> u8
    ensures { result ≡ kind_of part }
{
    match part {
        Part::Code | Part::Phase => 4,
        _ => 3,
    }
}

// The bits of a reference IOD.
fn iod_width(id: u8) -> usize
    ensures { result ≡ iod_bits id }
{
    if id == 0 { 8 } else { 10 }
}

// A satellite's orbit.
fn append_orbit(system: &[u8], records: &[u8], body: &mut Body)
    ensures { Appends body.old body.new (orbit_fields system.now records.now) }
{
    body.append(iod_width(octet_at(system, 2)), pair_at(records, 4));
    body.append(13, pair_at(records, 6));
    body.append(12, pair_at(records, 8));
    body.append(12, pair_at(records, 10));
}

// Whether a satellite has a subset clock.
fn is_chosen(records: &[u8]) -> bool
    ensures { result ≡ is_chosen records.now }
{
    pair_at(records, 14) != 32768
}

// What a part takes of the record at the front, which is one of a system's.
fn append_part(part: Part, system: &[u8], records: &[u8], body: &mut Body)
    requires { 16 ≤ length records.now }
    ensures { Appends body.old body.new (part_of part system.now records.now) }
{
    if octet_at(records, 0) != kind_of(part) {
        return;
    }
    match part {
        Part::Orbit => append_orbit(system, records, body),
        Part::Clock => body.append(13, pair_at(records, 12)),
        Part::Chosen => body.append(1, u64::from(is_chosen(records))),
        Part::SubsetClock => {
            if is_chosen(records) {
                body.append(13, pair_at(records, 14));
            }
        }
        Part::Code => body.append(11, pair_at(records, 4)),
        Part::Phase => {
            body.append(11, pair_at(records, 6));
            body.append(2, u64::from(octet_at(records, 8)));
        }
        Part::Cell => append_row(system, &records[16..], body),
    }
}

// What a part takes of a system's records. A row of cells is of the records behind a satellite's,
// so each turn is lent the records from its own on, and not a chunk.
pub fn append_parts(part: Part, system: &[u8], body: &mut Body)
    ensures { Appends body.old body.new (gathered part system.now) }
{
    for k in 0..system.len() / 16 {
        append_part(part, system, &system[16 * k..], body);
    }
}
