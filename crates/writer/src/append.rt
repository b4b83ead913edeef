// The bits of a message, put one behind another, and the numbers that records hold.
ghost use Rattle.std.specs.Prelude.{◌≡◌, false, ◌+◌, ◌≤◌, get_or};
ghost use Rattle.bits.specs.Bits.{bits};
ghost use Rattle.writer.specs.Writer.{pair, header_of, turns};
ghost use Rattle.writer.specs.Rendering.{Appends};

// Room for what 1,363 records can make.
pub const BODY_OCTETS: usize = 20480;

// A message while it is rendered: its octets, and how many of their bits are put.
#[derive(Drop)]
pub struct Body {
    pub octets: [u8; BODY_OCTETS],
    pub bits: usize,
}

impl Body {
    // Puts the n low bits of v behind those that are there, if they have room.
    pub fn append(&mut self, n: usize, v: u64)
        requires { n ≤ 64 }
        ensures { Appends self.old self.new (bits n v) }
    {
        if bits::put(&mut self.octets, self.bits, n, v) {
            self.bits += n;
        }
    }

    // Puts n bits in turn, the first 0.
    pub fn fill(&mut self, n: usize)
        ensures { Appends self.old self.new (turns false n) }
    {
        for k in 0..n {
            self.append(1, (k % 2) as u64);
        }
    }
}

// The octet at a place; behind the end 0, as `get_or .. 0` has it in the definitions, so that no contract asks how long the records are.
pub fn octet_at(records: &[u8], i: usize) -> u8
    ensures { result ≡ get_or records.now i 0 }
{
    records.get(i).copied().unwrap_or(0)
}

// The number of two octets.
pub fn pair_at(records: &[u8], i: usize) -> u64
    requires { i ≤ 14 }
    ensures { result ≡ pair records.now i }
{
    u64::from(u16::from_be_bytes([octet_at(records, i), octet_at(records, i + 1)]))
}

// Whether the kth flag of a header record is 1. `k ≤ 5` stands in the contracts of the three functions that take a k:
// an enum of the flags would be turned back into the number, by which the definitions count them (`get_or flags k false`).
pub fn has_flag(records: &[u8], k: usize) -> bool
    requires { k ≤ 5 }
    ensures { result ≡ get_or (header_of records.now).flags k false }
{
    bits::bit_at(records, 10 + k)
}
