// Bits of octets, numbered from 0, the most significant first (document 01, What the box does).
#![tactic(auto)]

ghost use Rattle.std.specs.Prelude.{◌≡◌, false, ◌+◌, ◌*◌, ◌/◌, ◌-◌, ◌^◌, ◌≤◌, ◌<◌, length, get_or, take, drop, set};
ghost use Rattle.lists.specs.Lists.{laid};
ghost use Rattle.bits.specs.Bits.{odd, bits, value, bits_of, octets_of, fits_in, is_number, number_at, put_at};

// Whether n bits at a place are all there. The octets of whole and of broken parts are counted, so that nothing overflows.
pub fn fits(octets: &[u8], at: usize, n: usize) -> bool
    ensures { result ≡ fits_in (bits_of octets.now) at n }
{
    let first = at / 8;
    first <= octets.len() && n / 8 + (n % 8 + at % 8 + 7) / 8 <= octets.len() - first
}

// The bit of x that is k places after its first.
fn bit(x: u8, k: usize) -> bool
    requires { k < 8 }
    ensures { result ≡ odd (x / 2 ^ (7 - k)) }
{
    (x >> (7 - k)) % 2 == 1
}

// The bit at a place; behind the end there is none that is 1.
pub fn bit_at(octets: &[u8], at: usize) -> bool
    ensures { result ≡ get_or (bits_of octets.now) at false }
{
    octets.get(at / 8).is_some_and(|&octet| bit(octet, at % 8))
}

// The number that the bits of up to nine octets are.
fn gather(octets: &[u8]) -> u128
    requires { length octets.now ≤ 9 }
    ensures { result ≡ value (bits_of octets.now) }
{
    let mut whole: u128 = 0;
    for &octet in octets {
        whole = whole * 256 + u128::from(octet);
    }
    whole
}

// The number of n bits that are there: that of the octets they lie in, without the bits behind them and before them. Places are counted from the first octet's,
// so that nothing overflows.
fn run_at(octets: &[u8], at: usize, n: usize) -> u64
    requires { (n ≤ 64) × (at + n ≤ 8 * length octets.now) }
    ensures { result ≡ value (take n (drop at (bits_of octets.now))) }
{
    let first = at / 8;
    let before = at % 8;
    let count = (before + n + 7) / 8;
    let whole = gather(&octets[first..first + count]);
    ((whole >> (8 * count - before - n)) % (1 << n)) as u64
}

// The number of the n bits at a place; 0 if they are not all there or more than 64. No `Option`: the clause of this public function says 0.
pub fn number_at(octets: &[u8], at: usize, n: usize) -> u64
    ensures { result ≡ number_at (bits_of octets.now) at n }
{
    if n <= 64 && fits(octets, at, n) {
        run_at(octets, at, n)
    } else {
        0
    }
}

// x with the bit that is k places after its first made b.
fn with_bit(x: u8, k: usize, b: bool) -> u8
    requires { k < 8 }
    ensures { bits 8 result ≡ set (bits 8 x) k b }
{
    if bit(x, k) == b {
        return x;
    }
    let weight = 1 << (7 - k);
    if b { x + weight } else { x - weight }
}

// Puts the n low bits of v, bit after bit, where there is room. Places as in `run_at`.
fn put_run(out: &mut [u8], at: usize, n: usize, v: u64)
    requires { (n ≤ 64) × (at + n ≤ 8 * length out.old) }
    ensures { bits_of out.new ≡ laid (bits_of out.old) at (bits n v) }
{
    for k in 0..n {
        let b = (v >> (n - 1 - k)) % 2 == 1;
        let i = at % 8 + k;
        let q = at / 8 + i / 8;
        out[q] = with_bit(out[q], i % 8, b);
    }
}

// Puts the n low bits of v at a place, and says whether there was room for such a number; else nothing is written. The clause of this public function says so by a `bool`.
pub fn put(out: &mut [u8], at: usize, n: usize, v: u64) -> bool
    ensures { (result ≡ is_number (bits_of out.old) at n) × (out.new ≡ octets_of (put_at (bits_of out.old) at n v)) }
{
    if n <= 64 && fits(out, at, n) {
        put_run(out, at, n, v);
        true
    } else {
        false
    }
}
