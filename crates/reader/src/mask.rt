// The Mask block (document 01, Message type 1): what of it the readers of the other blocks need.
ghost use Rattle.std.specs.Prelude.{ℕ, ◌≡◌, Bool, cond, List, [], ◌∷◌, ◌+◌, ◌≤◌, eqb};
ghost use Rattle.bits.specs.Bits.{bits_of};
ghost use Rattle.std.proofs.Math.Option.{none};
ghost use Rattle.mt1.specs.Parse.{field, judged, wrong_id};
ghost use Rattle.mt1.specs.Message.{count};
ghost use Rattle.mt1.specs.Mt1.{system, mask};
ghost use Rattle.reader.specs.Steps.{field_answer, system_end, system_answer, plan_of, mask_end, second_system, second_answer, mask_answer};

use crate::field::{Read, count_bits, read_field, skip};
use mt1::{RefusalAt, refuse};
use refusal::Refusal;

// A system of a mask: its GNSS ID, a number as its record gives it, the place of its satellite mask, how many satellites, signals and cells it has, whether it has a cell mask.
#[derive(Clone, Copy)]
pub struct SystemPlan {
    pub id: u64,
    pub place: usize,
    pub satellites: usize,
    pub signals: usize,
    pub flag: bool,
    pub cells: usize,
}

// The systems of a mask, none, one or two. One that is not there is `no_system`, with no satellites and no cells: a block then has no rows of it, and its reader counts them as those of the others.
// As an Option it would be taken apart in the reader of each block, only to count none.
#[derive(Clone, Copy)]
pub struct MaskPlan {
    pub systems: usize,
    pub first: SystemPlan,
    pub second: SystemPlan,
}

// The GNSS IDs that are known: of GPS and of Galileo.
const KNOWN: [u64; 2] = [0, 2];

// A GNSS ID that is one of those that may come, and none of those that came.
pub fn read_id(octets: &[u8], at: usize, may: &[u64], came: &[u64]) -> Result<u64, RefusalAt>
    ensures { result ≡ field_answer (judged 4 (wrong_id may.now came.now) (bits_of octets.now) at) }
{
    let id = read_field(octets, at, 4)?;
    if !may.contains(&id) {
        return Err(refuse(Refusal::System, at));
    }
    if came.contains(&id) {
        return Err(refuse(Refusal::Twice, at));
    }
    Ok(id)
}

// How many bits the cell mask has.
fn cell_bits(flag: bool, all: usize) -> usize
    ensures { result ≡ cond flag all 0 }
{
    if flag { all } else { 0 }
}

// A system from its cell mask on; `place` is that of its satellite mask.
fn end_system(
    octets: &[u8],
    id: u64,
    place: usize,
    satellites: usize,
    signals: usize,
    flag: bool,
) -> Result<Read<SystemPlan>, RefusalAt>
    requires { (place ≤ 2000) × (satellites ≤ 40) × (signals ≤ 16) }
    ensures { (a b : List Bool) (n : ℕ) → satellites ≡ count a → signals ≡ count b → flag ≡ eqb n 1 → result ≡ system_answer place (system_end id a b n (bits_of octets.now) (place + 57)) }
{
    let all = satellites * signals;
    let masked = cell_bits(flag, all);
    let at = skip(octets, place + 57, masked)?;
    let navigation = read_field(octets, at, 3)?;
    if navigation != 0 {
        return Err(refuse(Refusal::NavMsg, at));
    }
    let cells = if flag {
        count_bits(octets, place + 57, masked)
    } else {
        all
    };
    Ok(Read {
        plan: SystemPlan {
            id,
            place,
            satellites,
            signals,
            flag,
            cells,
        },
        end: at + 3,
    })
}

// A system behind its GNSS ID.
fn read_system(octets: &[u8], id: u64, place: usize) -> Result<Read<SystemPlan>, RefusalAt>
    requires { place ≤ 2000 }
    ensures { result ≡ system_answer place (system id (bits_of octets.now) place) }
{
    let signals_at = skip(octets, place, 40)?;
    let flag_at = skip(octets, signals_at, 16)?;
    let flag = read_field(octets, flag_at, 1)?;
    let satellites = count_bits(octets, place, 40);
    let signals = count_bits(octets, signals_at, 16);
    end_system(octets, id, place, satellites, signals, flag == 1)
}

// The reserved bits behind the systems.
fn end_mask(octets: &[u8], plan: MaskPlan, at: usize) -> Result<Read<MaskPlan>, RefusalAt>
    requires { at ≤ 4000 }
    ensures { result ≡ mask_end plan (field 6 (bits_of octets.now) at) }
{
    let end = skip(octets, at, 6)?;
    Ok(Read { plan, end })
}

// What stands for a system that is not there.
pub fn no_system() -> SystemPlan
    ensures { result ≡ plan_of none 0 }
{
    SystemPlan {
        id: 0,
        place: 0,
        satellites: 0,
        signals: 0,
        flag: false,
        cells: 0,
    }
}

// A mask from its second system on.
fn second_system(octets: &[u8], first: SystemPlan, at: usize) -> Result<Read<MaskPlan>, RefusalAt>
    requires { at ≤ 1000 }
    ensures { result ≡ second_answer first at (second_system first.id (bits_of octets.now) at) }
{
    let id = read_id(octets, at, &KNOWN, &[first.id])?;
    let second = read_system(octets, id, at + 4)?;
    let plan = MaskPlan {
        systems: 2,
        first,
        second: second.plan,
    };
    end_mask(octets, plan, second.end)
}

// The Mask block at a place.
pub fn read_mask(octets: &[u8], at: usize) -> Result<Read<MaskPlan>, RefusalAt>
    requires { at ≤ 32 }
    ensures { result ≡ mask_answer at (mask (bits_of octets.now) at) }
{
    let n = read_field(octets, at, 4)?;
    if n < 1 || n > 2 {
        return Err(refuse(Refusal::Count, at));
    }
    let id = read_id(octets, at + 4, &KNOWN, &[])?;
    let first = read_system(octets, id, at + 8)?;
    if n == 2 {
        return second_system(octets, first.plan, first.end);
    }
    let plan = MaskPlan {
        systems: 1,
        first: first.plan,
        second: no_system(),
    };
    end_mask(octets, plan, first.end)
}
