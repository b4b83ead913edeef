// What a system's own record says: its mask, its multiplier, its part of the subset. The records of a system begin with it; there may be none.
ghost use Rattle.std.specs.Prelude.{◌≡◌, cond, [], eqb, get_or};
ghost use Rattle.writer.specs.declared.part.Part.TheVariants.{Cell};
ghost use Rattle.writer.specs.Rendering.{Appends, is_kind, in_subset, gathered, system_part, multiplier_part, subset_part};

use crate::append::{Body, octet_at};
use crate::part::{Part, append_parts};

// Whether there are records, and the first is a system's.
pub fn is_system(system: &[u8]) -> bool
    ensures { result ≡ is_kind 2 system.now }
{
    octet_at(system, 0) == 2
}

// The cell mask, if the cell flag is 1.
fn append_cell_mask(system: &[u8], body: &mut Body)
    ensures { Appends body.old body.new (cond (eqb (get_or system.now 3 0) 1) (gathered Cell system.now) []) }
{
    if octet_at(system, 3) == 1 {
        append_parts(Part::Cell, system, body);
    }
}

// A system of the mask.
pub fn append_system(system: &[u8], body: &mut Body)
    ensures { Appends body.old body.new (system_part system.now) }
{
    if !is_system(system) {
        return;
    }
    body.append(4, u64::from(octet_at(system, 2)));
    body.append(56, bits::number_at(system, 56, 56));
    body.append(1, u64::from(octet_at(system, 3)));
    append_cell_mask(system, body);
    body.append(3, u64::from(octet_at(system, 4)));
}

// A system's multiplier of the full clocks.
pub fn append_multiplier(system: &[u8], body: &mut Body)
    ensures { Appends body.old body.new (multiplier_part system.now) }
{
    if is_system(system) {
        body.append(2, u64::from(octet_at(system, 5)));
    }
}

// Whether a system is in the subset.
pub fn is_in_subset(system: &[u8]) -> bool
    ensures { result ≡ in_subset system.now }
{
    is_system(system) && octet_at(system, 6) != 255
}

// A system's part of the subset, if it is in it.
pub fn append_subset_part(system: &[u8], body: &mut Body)
    ensures { Appends body.old body.new (subset_part system.now) }
{
    if !is_in_subset(system) {
        return;
    }
    body.append(4, u64::from(octet_at(system, 2)));
    body.append(2, u64::from(octet_at(system, 6)));
    append_parts(Part::Chosen, system, body);
    append_parts(Part::SubsetClock, system, body);
}
