// The clock subset block: which of the mask's systems are in it, and where.
ghost use Rattle.std.specs.Prelude.{◌≡◌, Some, cond, List, eqb, ℕ, ◌≤◌};
ghost use Rattle.bits.specs.Bits.{bits_of};
ghost use Rattle.mt1.specs.Message.{System, count};
ghost use Rattle.mt1.specs.Mt1.{satellites_of, subset_system};
ghost use Rattle.reader.specs.Steps.{step_of, MaskOf, PartReads, PartsRead, SubsetReads};

use crate::block::Blocks;
use crate::field::{Read, count_bits, read_field};
use crate::mask::{MaskPlan, read_id};
use mt1::{RefusalAt, refuse};
use refusal::Refusal;

// Where the parts of the mask's first and second system stand, behind their GNSS IDs, those that are in the subset.
#[derive(Clone, Copy)]
pub struct SubsetPlan {
    pub first: Option<usize>,
    pub second: Option<usize>,
}

// What is kept of a part: the plan with it, its GNSS ID, and the place behind it.
#[derive(Clone, Copy)]
pub struct Part {
    pub plan: SubsetPlan,
    pub id: u64,
    pub end: usize,
}

// How many satellites the mask's system of a GNSS ID has.
fn satellites_of(mask: MaskPlan, id: u64) -> usize
    ensures { result ≡ cond (eqb id mask.first.id) mask.first.satellites mask.second.satellites }
{
    let first = mask.first;
    let second = mask.second;
    if id == first.id {
        first.satellites
    } else {
        second.satellites
    }
}

// A plan with one part more, of the system that has a GNSS ID.
fn with_part(plan: SubsetPlan, mask: MaskPlan, id: u64, place: usize) -> SubsetPlan
    ensures { result ≡ cond (eqb id mask.first.id) (record { first = Some place; second = plan.second }) (record { first = plan.first; second = Some place }) }
{
    let first = mask.first;
    if id == first.id {
        return SubsetPlan {
            first: Some(place),
            second: plan.second,
        };
    }
    SubsetPlan {
        first: plan.first,
        second: Some(place),
    }
}

impl Blocks<'_> {
    // A system's part behind its GNSS ID: multiplier, a bit for each satellite, a clock for each chosen one.
    fn skip_part(&self, at: usize, satellites: usize) -> Result<usize, RefusalAt>
        requires { satellites ≤ 40 }
        ensures { (ss : List System) (id : ℕ) → satellites ≡ count (satellites_of ss id) → result ≡ step_of (subset_system ss id (bits_of self.now.octets.now) at) }
    {
        let chosen_at = self.skip(at, 2)?;
        let clocks_at = self.skip(chosen_at, satellites)?;
        let chosen = count_bits(self.octets, chosen_at, satellites);
        self.skip_items(clocks_at, chosen, &[13])
    }

    // One system of the subset, where these came.
    fn read_part(&self, at: usize, came: &[u64], plan: SubsetPlan) -> Result<Part, RefusalAt>
        ensures { (ss : List System) (place : ℕ) → MaskOf ss place self.now.mask → PartReads ss self.now.mask came.now plan (bits_of self.now.octets.now) at result }
    {
        let ids = [self.mask.first.id, self.mask.second.id];
        let id = read_id(self.octets, at, &ids[..self.mask.systems], came)?;
        let place = at + 4;
        let end = self.skip_part(place, satellites_of(self.mask, id))?;
        Ok(Part {
            plan: with_part(plan, self.mask, id, place),
            id,
            end,
        })
    }

    // One or two systems of the subset.
    fn read_parts(&self, at: usize, n: u64) -> Result<Read<SubsetPlan>, RefusalAt>
        requires { (1 ≤ n) × (n ≤ self.now.mask.systems) }
        ensures { (ss : List System) (place : ℕ) → MaskOf ss place self.now.mask → PartsRead ss n (bits_of self.now.octets.now) at result }
    {
        let none = SubsetPlan {
            first: None,
            second: None,
        };
        let one = self.read_part(at, &[], none)?;
        if n == 1 {
            return Ok(Read {
                plan: one.plan,
                end: one.end,
            });
        }
        let both = self.read_part(one.end, &[one.id], one.plan)?;
        Ok(Read {
            plan: both.plan,
            end: both.end,
        })
    }

    // The clock subset block at a place.
    pub fn read_subset(&self, at: usize) -> Result<Read<SubsetPlan>, RefusalAt>
        ensures { (ss : List System) (place : ℕ) → MaskOf ss place self.now.mask → SubsetReads ss (bits_of self.now.octets.now) at result }
    {
        let count_at = self.skip_interval(at)?;
        let n = read_field(self.octets, count_at, 4)?;
        if n < 1 || n > self.mask.systems as u64 {
            return Err(refuse(Refusal::Count, count_at));
        }
        self.read_parts(count_at + 4, n)
    }
}
