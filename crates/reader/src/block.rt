// The blocks behind the mask: how long they are, and that each field is there.
ghost use Rattle.std.specs.Prelude.{◌≡◌, ◌≤◌, length};
ghost use Rattle.bits.specs.Bits.{bits_of};
ghost use Rattle.mt1.specs.Parse.{times, for_each, raw, field};
ghost use Rattle.mt1.specs.Mt1.{interval};
ghost use Rattle.reader.specs.Steps.{step_of, MaskMade, skipped_block};

use crate::field::{need, read_field};
use crate::mask::MaskPlan;
use mt1::{RefusalAt, interval_seconds, refuse};
use refusal::Refusal;

// The octets of a message, and the plan of the mask by which the blocks in them are read.
#[derive(Clone, Copy)]
pub struct Blocks<'a> {
    pub octets: &'a [u8],
    pub mask: MaskPlan,
    ghost short: { length octets.now ≤ 20480 },
    ghost made: { ∥ MaskMade mask ∥₁ },
}

impl Blocks<'_> {
    // The place behind n bits. Of these octets there are few; the `skip` for a mask, which may stand in any number of octets, asks for a small place instead.
    pub fn skip(&self, at: usize, n: usize) -> Result<usize, RefusalAt>
        ensures { result ≡ step_of (raw n (bits_of self.now.octets.now) at) }
    {
        need(self.octets, at, n)?;
        Ok(at + n)
    }

    // An interval at a place.
    pub fn skip_interval(&self, at: usize) -> Result<usize, RefusalAt>
        ensures { result ≡ step_of (interval (bits_of self.now.octets.now) at) }
    {
        let index = read_field(self.octets, at, 4)?;
        let Ok(_) = interval_seconds(index) else {
            return Err(refuse(Refusal::Validity, at));
        };
        Ok(at + 4)
    }

    // An item: fields of these widths.
    fn skip_item(&self, at: usize, widths: &[usize]) -> Result<usize, RefusalAt>
        ensures { result ≡ step_of (for_each widths.now field (bits_of self.now.octets.now) at) }
    {
        let mut place = at;
        for w in widths {
            place = self.skip(place, *w)?;
        }
        Ok(place)
    }

    // n items in a row.
    pub fn skip_items(&self, at: usize, n: usize, widths: &[usize]) -> Result<usize, RefusalAt>
        ensures { result ≡ step_of (times n (for_each widths.now field) (bits_of self.now.octets.now) at) }
    {
        let mut place = at;
        for k in 0..n {
            place = self.skip_item(place, widths)?;
        }
        Ok(place)
    }

    // A block: its interval, the multipliers of as many systems, the items of the first system and of the second.
    pub fn skip_block(
        &self,
        at: usize,
        multipliers: usize,
        first: usize,
        v: &[usize],
        second: usize,
        w: &[usize],
    ) -> Result<usize, RefusalAt>
        ensures { result ≡ step_of (skipped_block multipliers first v.now second w.now (bits_of self.now.octets.now) at) }
    {
        let behind_interval = self.skip_interval(at)?;
        let behind_multipliers = self.skip_items(behind_interval, multipliers, &[2])?;
        let behind_first = self.skip_items(behind_multipliers, first, v)?;
        self.skip_items(behind_first, second, w)
    }
}
