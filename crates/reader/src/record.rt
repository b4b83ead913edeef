// The records of 16 octets, from the places where their values stand.
ghost use Rattle.std.specs.Prelude.{◌≡◌, List, ℕ, ◌+◌, ◌*◌, ◌/◌, ◌%◌, ◌≤◌, ◌<◌, ◌^◌};
ghost use Rattle.std.proofs.Math.Option.{Option};
ghost use Rattle.bits.specs.Bits.{bits, bits_of, number_at};
ghost use Rattle.mt1.specs.Message.{System, Subset, Message, count, cells_of};
ghost use Rattle.mt1.specs.Mt1.{Lent};
ghost use Rattle.mt1.specs.Records.{two, widened, octet_or, iod_or, signed_or, subset_of, subset_clock, header_record, system_record, satellite_record, cell_record};
ghost use Rattle.reader.specs.Steps.{Stands, part_bits, Planned};
ghost use Rattle.reader.specs.Recording.{Below, SystemStands, SubsetFits, chosen_before, Within, onwards, Near, RowsStand};

use crate::mask::SystemPlan;
use crate::plan::Plan;

// Where the rows of one system stand, those that are there. `iod`: how many bits a reference IOD has.
#[derive(Clone, Copy)]
pub struct Rows {
    pub iod: usize,
    pub orbit: Option<usize>,
    pub multiplier: Option<usize>,
    pub clock: Option<usize>,
    pub part: Option<usize>,
    pub code: Option<usize>,
    pub phase: Option<usize>,
}

// What the records of a system are made from: the octets of the message, those in which its mask stands, the plan and the rows of the system, and its place.
#[derive(Clone, Copy)]
pub struct SystemRecords<'a> {
    pub octets: &'a [u8],
    pub source: &'a [u8],
    pub system: SystemPlan,
    pub rows: Rows,
    pub p: u8,
}

// A place further on, if there is one. The bound is a clause and no fact of a place's type: what is given here may be past it.
pub fn onward(place: Option<usize>, bits: usize) -> Option<usize>
    requires { Within 200000 place × (bits ≤ 30000) }
    ensures { result ≡ onwards place bits }
{
    Some(place? + bits)
}

// A field of n bits as an octet, 255 if it is absent.
fn octet_at(octets: &[u8], place: Option<usize>, n: usize) -> u8
    requires { n ≤ 8 }
    ensures { (v : Option ℕ) → Stands (bits_of octets.now) place (bits n) v → Below (2 ^ n) v → result ≡ octet_or v }
{
    let Some(at) = place else {
        return 255;
    };
    bits::number_at(octets, at, n) as u8
}

// A field of which half the values are `half`, in two's complement, as one of 16 bits.
fn widen(half: u64, v: u64) -> u64
    requires { (half ≤ 32768) × (v < 2 * half) }
    ensures { (result ≡ widened half v) × (result < 65536) }
{
    if v < half { v } else { v + (65536 - 2 * half) }
}

// A signed field as two octets, -32768 if it is absent; half its values are `half`.
fn signed_at(octets: &[u8], place: Option<usize>, n: usize, half: u64) -> [u8; 2]
    requires { (n ≤ 16) × (2 * half ≡ 2 ^ n) }
    ensures { (v : Option ℕ) → Stands (bits_of octets.now) place (bits n) v → Below (2 ^ n) v → result ≡ signed_or half v }
{
    let Some(at) = place else {
        return [128, 0];
    };
    pair(widen(half, bits::number_at(octets, at, n)))
}

// 16 bits as two octets.
fn pair(v: u64) -> [u8; 2]
    requires { v < 65536 }
    ensures { result ≡ two v }
{
    (v as u16).to_be_bytes()
}

// The lowest octet.
fn low(v: u64) -> u8
    ensures { result ≡ v % 256 }
{
    (v % 256) as u8
}

// A reference IOD of n bits as two octets, 65535 if it is absent.
fn iod_at(octets: &[u8], place: Option<usize>, n: usize) -> [u8; 2]
    requires { n ≤ 16 }
    ensures { (v : Option ℕ) → Stands (bits_of octets.now) place (bits n) v → Below (2 ^ n) v → result ≡ iod_or v }
{
    let Some(at) = place else {
        return [255, 255];
    };
    pair(bits::number_at(octets, at, n))
}

// The header record.
pub fn header_record(octets: &[u8], plan: Plan) -> [u8; 16]
    ensures { (lent : Lent) (source : List ℕ) (m : Message) (ss : List System) → Planned lent octets.now source m ss plan → result ≡ header_record m }
{
    let [time_high, time_low] = pair(bits::number_at(octets, 0, 12));
    let flags = bits::number_at(octets, 12, 6) as u8;
    let mask_id = bits::number_at(octets, 22, 5) as u8;
    let iod_set = bits::number_at(octets, 27, 5) as u8;
    let orbit = octet_at(octets, plan.orbit, 4);
    let clock = octet_at(octets, plan.clock, 4);
    let subset = octet_at(octets, plan.subset, 4);
    let code = octet_at(octets, plan.code, 4);
    let phase = octet_at(octets, plan.phase, 4);
    [
        1, flags, mask_id, iod_set, time_high, time_low, orbit, clock, subset, code, phase, 0, 0,
        0, 0, 0,
    ]
}

// Where the subset clock of a system's nth satellite stands, of which k were chosen before it, if it is chosen.
fn subset_clock_at(
    octets: &[u8],
    part: Option<usize>,
    satellites: usize,
    n: usize,
    k: usize,
) -> Option<usize>
    requires { Within 200000 part × (satellites ≤ 40) × (n < satellites) × (k ≤ n) }
    ensures { (s : Option Subset) → Stands (bits_of octets.now) part part_bits s → SubsetFits satellites s → k ≡ chosen_before s n → Stands (bits_of octets.now) result (bits 13) (subset_clock s n) }
{
    let at = part?;
    if bits::bit_at(octets, at + 2 + n) {
        return Some(at + 2 + satellites + 13 * k);
    }
    None
}

impl SystemRecords<'_> {
    // The system's record.
    pub fn system_record(&self) -> [u8; 16]
        requires { self.now.system.place ≤ 2000 }
        ensures { (m : Message) (s : System) → SystemStands (bits_of self.now.source.now) s self.now.system → RowsStand (bits_of self.now.octets.now) m self.now.p s self.now.rows → result ≡ system_record m self.now.p s }
    {
        let place = self.system.place;
        let id = low(self.system.id);
        let flag = u8::from(self.system.flag);
        let multiplier = octet_at(self.octets, self.rows.multiplier, 2);
        let subset = octet_at(self.octets, self.rows.part, 2);
        let [_, _, _, a, b, c, d, e] = bits::number_at(self.source, place, 40).to_be_bytes();
        let [f, g] = pair(bits::number_at(self.source, place + 40, 16));
        [
            2, self.p, id, flag, 0, multiplier, subset, a, b, c, d, e, f, g, 0, 0,
        ]
    }

    // A satellite's record: i is its index, n its number in the system, of whose satellites k were chosen before it.
    pub fn satellite_record(&self, i: u8, n: usize, k: usize) -> [u8; 16]
        requires { Near self.now.rows × (self.now.system.satellites ≤ 40) × (n < self.now.system.satellites) × (k ≤ n) }
        ensures { (m : Message) (s : System) → RowsStand (bits_of self.now.octets.now) m self.now.p s self.now.rows → self.now.system.satellites ≡ count s.satellites → k ≡ chosen_before (subset_of m.subset s.id) n → result ≡ satellite_record m self.now.p s i n }
    {
        let octets = self.octets;
        let rows = self.rows;
        let orbit = onward(rows.orbit, n * (rows.iod + 37));
        let [iod_high, iod_low] = iod_at(octets, orbit, rows.iod);
        let [radial_high, radial_low] = signed_at(octets, onward(orbit, rows.iod), 13, 4096);
        let [in_track_high, in_track_low] = signed_at(
            octets,
            onward(orbit, rows.iod + 13),
            12,
            2048,
        );
        let [cross_track_high, cross_track_low] = signed_at(
            octets,
            onward(orbit, rows.iod + 25),
            12,
            2048,
        );
        let [clock_high, clock_low] = signed_at(octets, onward(rows.clock, n * 13), 13, 4096);
        let chosen = subset_clock_at(octets, rows.part, self.system.satellites, n, k);
        let [subset_high, subset_low] = signed_at(octets, chosen, 13, 4096);
        [
            3,
            self.p,
            i,
            0,
            iod_high,
            iod_low,
            radial_high,
            radial_low,
            in_track_high,
            in_track_low,
            cross_track_high,
            cross_track_low,
            clock_high,
            clock_low,
            subset_high,
            subset_low,
        ]
    }

    // A cell's record: n is its number in the system.
    pub fn cell_record(&self, i: u8, g: u8, n: usize) -> [u8; 16]
        requires { Near self.now.rows × (n < 640) }
        ensures { (m : Message) (s : System) → RowsStand (bits_of self.now.octets.now) m self.now.p s self.now.rows → n < count (cells_of s) → result ≡ cell_record m self.now.p i g n }
    {
        let octets = self.octets;
        let rows = self.rows;
        let [code_high, code_low] = signed_at(octets, onward(rows.code, n * 11), 11, 1024);
        let phase = onward(rows.phase, n * 13);
        let [bias_high, bias_low] = signed_at(octets, phase, 11, 1024);
        let discontinuity = octet_at(octets, onward(phase, 11), 2);
        [
            4,
            self.p,
            i,
            g,
            code_high,
            code_low,
            bias_high,
            bias_low,
            discontinuity,
            0,
            0,
            0,
            0,
            0,
            0,
            0,
        ]
    }
}
