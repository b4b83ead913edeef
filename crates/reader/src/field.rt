// A field at a bit place: its number, or SHORT at its first bit.
ghost use Rattle.std.specs.Prelude.{◌≡◌, false, ◌+◌, ◌≤◌, get_or, count_by};
ghost use Rattle.bits.specs.Bits.{bits_of};
ghost use Rattle.std.specs.List.{range_with_len};
ghost use Rattle.mt1.specs.Parse.{raw, field};
ghost use Rattle.reader.specs.Steps.{there, field_answer, step_of};

use mt1::{RefusalAt, refuse};
use refusal::Refusal;

// What is kept of what was read at a place, and the place behind it.
#[derive(Clone, Copy)]
pub struct Read<T> {
    pub plan: T,
    pub end: usize,
}

// SHORT, unless n bits are there.
pub fn need(octets: &[u8], at: usize, n: usize) -> Result<(), RefusalAt>
    ensures { result ≡ there (raw n (bits_of octets.now) at) }
{
    if !bits::fits(octets, at, n) {
        return Err(refuse(Refusal::Short, at));
    }
    Ok(())
}

// The number of a field of n bits.
pub fn read_field(octets: &[u8], at: usize, n: usize) -> Result<u64, RefusalAt>
    requires { n ≤ 64 }
    ensures { result ≡ field_answer (field n (bits_of octets.now) at) }
{
    need(octets, at, n)?;
    Ok(bits::number_at(octets, at, n))
}

// The place behind a field of n bits that are not read as a number.
pub fn skip(octets: &[u8], at: usize, n: usize) -> Result<usize, RefusalAt>
    requires { (at ≤ 200000) × (n ≤ 20000) }
    ensures { result ≡ step_of (raw n (bits_of octets.now) at) }
{
    need(octets, at, n)?;
    Ok(at + n)
}

// How many of the n bits at a place are 1.
pub fn count_bits(octets: &[u8], at: usize, n: usize) -> usize
    requires { (at ≤ 200000) × (n ≤ 20000) }
    ensures { result ≡ count_by (λ k. get_or (bits_of octets.now) (at + k) false) (range_with_len 0 n) }
{
    (0..n).filter(|k| bits::bit_at(octets, at + *k)).count()
}
