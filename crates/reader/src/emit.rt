// The second pass: the records of a planned message, one behind another. Nothing can be refused here.
ghost use Rattle.std.specs.Prelude.{◌≡◌, false, List, [], ◌∷◌, ℕ, ◌+◌, ◌*◌, ◌≤◌, ◌<◌, length, get_or};
ghost use Rattle.std.proofs.Math.Option.{Option};
ghost use Rattle.lists.specs.Lists.{laid};
ghost use Rattle.bits.specs.Bits.{bits_of};
ghost use Rattle.mt1.specs.Message.{System, Subset, Message, count, count_before, cell_bits, cells_of};
ghost use Rattle.mt1.specs.Mt1.{Lent};
ghost use Rattle.mt1.specs.Records.{build, cell_records, satellite_records, system_records, records};
ghost use Rattle.reader.specs.Steps.{Stands, part_bits, Planned};
ghost use Rattle.reader.specs.Recording.{Within, SubsetFits, chosen_before, SystemStands, EmitsOf, RowOf, Reached, InRow, Close, first_rows, second_rows};

use crate::plan::{Plan, iod_bits};
use crate::record::{Rows, SystemRecords, header_record, onward};

// How many of a system's satellites, chosen satellites and cells have come, and of the records' octets.
#[derive(Clone, Copy)]
pub struct Cursor {
    pub satellite: usize,
    pub chosen: usize,
    pub cell: usize,
    pub octet: usize,
}

// In a satellite's row: how many signals, cells and octets have come.
#[derive(Clone, Copy)]
pub struct CellCursor {
    pub signal: usize,
    pub cell: usize,
    pub octet: usize,
}

// A record, stored at a place of the buffer.
fn store(out: &mut [u8], at: usize, r: [u8; 16])
    requires { (at ≤ 30000) × (at + 16 ≤ length out.old) }
    ensures { out.new ≡ laid out.old at r }
{
    out[at..at + 16].copy_from_slice(&r);
}

// Whether the nth satellite is chosen, as a number.
fn chosen_at(octets: &[u8], part: Option<usize>, n: usize) -> usize
    requires { Within 200000 part × (n < 40) }
    ensures { (s : Option Subset) (satellites : ℕ) → Stands (bits_of octets.now) part part_bits s → SubsetFits satellites s → n < satellites → chosen_before s n + result ≡ chosen_before s (n + 1) }
{
    let Some(at) = part else {
        return 0;
    };
    usize::from(bits::bit_at(octets, at + 2 + n))
}

impl SystemRecords<'_> {
    // Whether a place of the cell mask is a cell.
    fn is_cell(&self, place: usize) -> bool
        requires { (self.now.system.place ≤ 2000) × (place < 640) }
        ensures { (s : System) → SystemStands (bits_of self.now.source.now) s self.now.system → place < cell_bits s.satellites s.signals → result ≡ get_or (cells_of s) place false }
    {
        !self.system.flag || bits::bit_at(self.source, self.system.place + 57 + place)
    }

    // The cell of a signal in the row of the nth satellite, whose index is i: its record, if there is one.
    fn emit_cell(&self, i: u8, n: usize, g: usize, c: CellCursor, out: &mut [u8]) -> CellCursor
        requires { (g < 16) × (c.octet + 16 ≤ length out.old) × (c.octet ≤ 30000) × ((m : Message) × (s : System) × EmitsOf self.now m s × RowOf s i n × InRow s n g c) }
        ensures { (m : Message) (s : System) → EmitsOf self.now m s → RowOf s i n → InRow s n g c
            → InRow s n (g + 1) result × (result.octet ≡ c.octet + length (cell_records m self.now.p s i g)) × (out.new ≡ laid out.old c.octet (cell_records m self.now.p s i g)) }
    {
        if !bits::bit_at(self.source, self.system.place + 40 + g) {
            return c;
        }
        let signal = c.signal;
        let cell = c.cell;
        let octet = c.octet;
        if self.is_cell(n * self.system.signals + signal) {
            let r = self.cell_record(i, g as u8, cell);
            store(out, octet, r);
            return CellCursor {
                signal: signal + 1,
                cell: cell + 1,
                octet: octet + 16,
            };
        }
        CellCursor {
            signal: signal + 1,
            cell,
            octet,
        }
    }

    // The cells of the nth satellite, whose index is i.
    fn emit_cells(&self, i: u8, n: usize, cell: usize, octet: usize, out: &mut [u8]) -> CellCursor
        requires { (octet + 256 ≤ length out.old) × (octet ≤ 29000)
            × ((m : Message) × (s : System) × EmitsOf self.now m s × RowOf s i n × (cell ≡ count_before (cells_of s) (n * count s.signals))) }
        ensures { (m : Message) (s : System) → EmitsOf self.now m s → RowOf s i n → cell ≡ count_before (cells_of s) (n * count s.signals)
            → InRow s n 16 result × (result.octet ≡ octet + length (build 16 (cell_records m self.now.p s i))) × (out.new ≡ laid out.old octet (build 16 (cell_records m self.now.p s i))) }
    {
        let mut c = CellCursor {
            signal: 0,
            cell,
            octet,
        };
        for g in 0..16 {
            c = self.emit_cell(i, n, g, c, out);
        }
        c
    }

    // The satellite of an index: its record and its cells, if it is masked.
    fn emit_satellite(&self, i: usize, c: Cursor, out: &mut [u8]) -> Cursor
        requires { (i < 40) × (c.octet + 272 ≤ length out.old) × (c.octet ≤ 28000) × ((m : Message) × (s : System) × EmitsOf self.now m s × Reached m s i c) }
        ensures { (m : Message) (s : System) → EmitsOf self.now m s → Reached m s i c
            → Reached m s (i + 1) result × (result.octet ≡ c.octet + length (satellite_records m self.now.p s i)) × (out.new ≡ laid out.old c.octet (satellite_records m self.now.p s i)) }
    {
        if !bits::bit_at(self.source, self.system.place + i) {
            return c;
        }
        let n = c.satellite;
        let octet = c.octet;
        let r = self.satellite_record(i as u8, n, c.chosen);
        store(out, octet, r);
        let d = self.emit_cells(i as u8, n, c.cell, octet + 16, out);
        let more = chosen_at(self.octets, self.rows.part, n);
        Cursor {
            satellite: n + 1,
            chosen: c.chosen + more,
            cell: d.cell,
            octet: d.octet,
        }
    }

    // All records of the system, from an octet on; the octet behind them.
    fn emit_system(&self, octet: usize, out: &mut [u8]) -> usize
        requires { (octet + 10896 ≤ length out.old) × (octet ≤ 16000) × ((m : Message) × (s : System) × EmitsOf self.now m s) }
        ensures { (m : Message) (s : System) → EmitsOf self.now m s
            → (result ≡ octet + length (system_records m self.now.p (s ∷ []))) × (out.new ≡ laid out.old octet (system_records m self.now.p (s ∷ []))) }
    {
        let r = self.system_record();
        store(out, octet, r);
        let mut c = Cursor {
            satellite: 0,
            chosen: 0,
            cell: 0,
            octet: octet + 16,
        };
        for i in 0..40 {
            c = self.emit_satellite(i, c, out);
        }
        c.octet
    }
}

// Where the rows of the mask's first system stand.
fn first_rows(plan: Plan) -> Rows
    requires { Close plan }
    ensures { result ≡ first_rows plan }
{
    let mask = plan.mask;
    let first = mask.first;
    let parts = plan.parts;
    Rows {
        iod: iod_bits(first.id),
        orbit: onward(plan.orbit, 4),
        multiplier: onward(plan.clock, 4),
        clock: onward(plan.clock, 4 + 2 * mask.systems),
        part: parts.first,
        code: onward(plan.code, 4),
        phase: onward(plan.phase, 4),
    }
}

// And of its second, behind those of the first.
fn second_rows(plan: Plan) -> Rows
    requires { Close plan }
    ensures { result ≡ second_rows plan }
{
    let mask = plan.mask;
    let first = mask.first;
    let second = mask.second;
    let parts = plan.parts;
    Rows {
        iod: iod_bits(second.id),
        orbit: onward(plan.orbit, 4 + first.satellites * (iod_bits(first.id) + 37)),
        multiplier: onward(plan.clock, 6),
        clock: onward(plan.clock, 4 + 2 * mask.systems + first.satellites * 13),
        part: parts.second,
        code: onward(plan.code, 4 + first.cells * 11),
        phase: onward(plan.phase, 4 + first.cells * 13),
    }
}

// The records of a planned message, whose mask stands in `source`; how many octets they are.
pub fn emit_message(octets: &[u8], source: &[u8], plan: Plan, out: &mut [u8]) -> usize
    requires { (length out.old ≡ 21808) × ((lent : Lent) × (m : Message) × (ss : List System) × Planned lent octets.now source.now m ss plan) }
    ensures { (lent : Lent) (m : Message) (ss : List System) → Planned lent octets.now source.now m ss plan
        → (result ≡ length (records ss m)) × (out.new ≡ laid out.old 0 (records ss m)) }
{
    let header = header_record(octets, plan);
    store(out, 0, header);
    if plan.mask.systems == 0 {
        return 16;
    }
    let first = SystemRecords {
        octets,
        source,
        system: plan.mask.first,
        rows: first_rows(plan),
        p: 0,
    };
    let octet = first.emit_system(16, out);
    if plan.mask.systems == 1 {
        return octet;
    }
    let second = SystemRecords {
        octets,
        source,
        system: plan.mask.second,
        rows: second_rows(plan),
        p: 1,
    };
    second.emit_system(octet, out)
}
