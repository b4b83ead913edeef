// The first pass: every field is there and good, and where the blocks stand.
ghost use Rattle.std.specs.Prelude.{◌≡◌, true, false, List, [], ℕ, ◌*◌, ◌≤◌, length, get_or, take, drop};
ghost use Rattle.std.proofs.Math.Option.{Option};
ghost use Rattle.bits.specs.Bits.{bits_of};
ghost use Rattle.mt1.specs.Parse.{got, optional};
ghost use Rattle.mt1.specs.Message.{Header, System, Mask};
ghost use Rattle.mt1.specs.Mt1.{header, needs_mask, iod_bits, block, orbits, clocks, codes, phases, lent_for, is_none};
ghost use Rattle.reader.specs.Steps.{step_of, mask_plan, MaskOf, SubsetReadIf, BlocksRead, LentRead, MessageRead};

use crate::block::Blocks;
use crate::field::Read;
use crate::mask::{MaskPlan, no_system, read_mask};
use crate::subset::SubsetPlan;
use mt1::{RefusalAt, refuse};
use refusal::Refusal;

// Where the blocks stand, each by its interval, those that are there. `lent`: the mask is the lent one.
#[derive(Clone, Copy)]
pub struct Plan {
    pub lent: bool,
    pub mask: MaskPlan,
    pub orbit: Option<usize>,
    pub clock: Option<usize>,
    pub subset: Option<usize>,
    pub parts: SubsetPlan,
    pub code: Option<usize>,
    pub phase: Option<usize>,
}

// The bits of a reference IOD.
pub fn iod_bits(id: u64) -> usize
    ensures { result ≡ iod_bits id }
{
    if id == 0 { 8 } else { 10 }
}

impl Blocks<'_> {
    // The orbit block, if its flag is 1. It and the three below stay apart: the contract of each names the parser of its block, and one for all would name none.
    fn skip_orbits(&self, at: usize) -> Result<usize, RefusalAt>
        ensures { (ss : List System) (place : ℕ) → MaskOf ss place self.now.mask → result ≡ step_of (optional (get_or (bits_of self.now.octets.now) 13 false) (block (orbits ss)) (bits_of self.now.octets.now) at) }
    {
        if !bits::bit_at(self.octets, 13) {
            return Ok(at);
        }
        let first = self.mask.first;
        let second = self.mask.second;
        let v = [iod_bits(first.id), 13, 12, 12];
        let w = [iod_bits(second.id), 13, 12, 12];
        self.skip_block(at, 0, first.satellites, &v, second.satellites, &w)
    }

    // The clock full block, if its flag is 1.
    fn skip_clocks(&self, at: usize) -> Result<usize, RefusalAt>
        ensures { (ss : List System) (place : ℕ) → MaskOf ss place self.now.mask → result ≡ step_of (optional (get_or (bits_of self.now.octets.now) 14 false) (block (clocks ss)) (bits_of self.now.octets.now) at) }
    {
        if !bits::bit_at(self.octets, 14) {
            return Ok(at);
        }
        let first = self.mask.first;
        let second = self.mask.second;
        let w = [13];
        self.skip_block(
            at,
            self.mask.systems,
            first.satellites,
            &w,
            second.satellites,
            &w,
        )
    }

    // The clock subset block, if its flag is 1.
    fn skip_subset(&self, at: usize) -> Result<Read<SubsetPlan>, RefusalAt>
        ensures { (ss : List System) (place : ℕ) → MaskOf ss place self.now.mask → SubsetReadIf (get_or (bits_of self.now.octets.now) 15 false) ss (bits_of self.now.octets.now) at result }
    {
        if !bits::bit_at(self.octets, 15) {
            let none = SubsetPlan {
                first: None,
                second: None,
            };
            return Ok(Read {
                plan: none,
                end: at,
            });
        }
        self.read_subset(at)
    }

    // The code bias block, if its flag is 1.
    fn skip_codes(&self, at: usize) -> Result<usize, RefusalAt>
        ensures { (ss : List System) (place : ℕ) → MaskOf ss place self.now.mask → result ≡ step_of (optional (get_or (bits_of self.now.octets.now) 16 false) (block (codes ss)) (bits_of self.now.octets.now) at) }
    {
        if !bits::bit_at(self.octets, 16) {
            return Ok(at);
        }
        let first = self.mask.first;
        let second = self.mask.second;
        let w = [11];
        self.skip_block(at, 0, first.cells, &w, second.cells, &w)
    }

    // The phase bias block, if its flag is 1.
    fn skip_phases(&self, at: usize) -> Result<usize, RefusalAt>
        ensures { (ss : List System) (place : ℕ) → MaskOf ss place self.now.mask → result ≡ step_of (optional (get_or (bits_of self.now.octets.now) 17 false) (block (phases ss)) (bits_of self.now.octets.now) at) }
    {
        if !bits::bit_at(self.octets, 17) {
            return Ok(at);
        }
        let first = self.mask.first;
        let second = self.mask.second;
        let w = [11, 2];
        self.skip_block(at, 0, first.cells, &w, second.cells, &w)
    }

    // The blocks behind the mask, of which `at` is the first bit.
    fn plan_blocks(&self, at: usize, lent: bool) -> Result<Plan, RefusalAt>
        requires { (32 ≤ at) × (at ≤ 8 * length self.now.octets.now) }
        ensures { (h : Header) (own : Option Mask) (ss : List System) (place : ℕ) → h.flags ≡ take 6 (drop 12 (bits_of self.now.octets.now)) → MaskOf ss place self.now.mask → BlocksRead h own ss (bits_of self.now.octets.now) at lent self.now.mask result }
    {
        let clock_at = self.skip_orbits(at)?;
        let subset_at = self.skip_clocks(clock_at)?;
        let subset = self.skip_subset(subset_at)?;
        let code_at = subset.end;
        let phase_at = self.skip_codes(code_at)?;
        self.skip_phases(phase_at)?;
        Ok(Plan {
            lent,
            mask: self.mask,
            orbit: bits::bit_at(self.octets, 13).then_some(at),
            clock: bits::bit_at(self.octets, 14).then_some(clock_at),
            subset: bits::bit_at(self.octets, 15).then_some(subset_at),
            parts: subset.plan,
            code: bits::bit_at(self.octets, 16).then_some(code_at),
            phase: bits::bit_at(self.octets, 17).then_some(phase_at),
        })
    }
}

// The plan of a mask that is not used: of no systems.
fn no_mask() -> MaskPlan
    ensures { (place : ℕ) → result ≡ mask_plan [] place }
{
    MaskPlan {
        systems: 0,
        first: no_system(),
        second: no_system(),
    }
}

// Whether a block behind the mask is there.
fn needs_mask(octets: &[u8]) -> bool
    ensures { (h : Header) → h.flags ≡ take 6 (drop 12 (bits_of octets.now)) → result ≡ needs_mask h }
{
    bits::bit_at(octets, 13)
        || bits::bit_at(octets, 14)
        || bits::bit_at(octets, 15)
        || bits::bit_at(octets, 16)
        || bits::bit_at(octets, 17)
}

// Whether the lent mask does not serve for a Mask ID: it is absent, has another ID or does not read.
pub fn lacks_mask(mask_id: u64, mask: &[u8], id: u64) -> bool
    ensures { result ≡ is_none (lent_for (record { id = mask_id; octets = mask.now }) id) }
{
    mask_id != id || read_mask(mask, 0).is_err()
}

// A message that uses the lent mask.
fn plan_lent(octets: &[u8], mask_id: u64, mask: &[u8]) -> Result<Plan, RefusalAt>
    requires { (length octets.now ≤ 20480) × (4 ≤ length octets.now) }
    ensures { (h : Header) → header (bits_of octets.now) 0 ≡ got h 32 → needs_mask h ≡ true → LentRead (record { id = mask_id; octets = mask.now }) h octets.now result }
{
    if mask_id != bits::number_at(octets, 22, 5) {
        return Err(refuse(Refusal::Mask, 22));
    }
    let Ok(lent) = read_mask(mask, 0) else {
        return Err(refuse(Refusal::Mask, 22));
    };
    let blocks = Blocks {
        octets,
        mask: lent.plan,
    };
    blocks.plan_blocks(32, true)
}

// The whole message: its header, the mask that it uses, and the blocks behind it.
pub fn plan_message(octets: &[u8], mask_id: u64, mask: &[u8]) -> Result<Plan, RefusalAt>
    requires { (length octets.now ≤ 20480) × (4 ≤ length octets.now) }
    ensures { MessageRead (record { id = mask_id; octets = mask.now }) octets.now result }
{
    if bits::number_at(octets, 0, 12) > 3599 {
        return Err(refuse(Refusal::Toh, 0));
    }
    if bits::bit_at(octets, 12) {
        let own = read_mask(octets, 32)?;
        let blocks = Blocks {
            octets,
            mask: own.plan,
        };
        return blocks.plan_blocks(own.end, false);
    }
    if needs_mask(octets) {
        return plan_lent(octets, mask_id, mask);
    }
    let blocks = Blocks {
        octets,
        mask: no_mask(),
    };
    blocks.plan_blocks(32, false)
}
