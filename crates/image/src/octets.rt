// Octets, and numbers of four octets, the highest first: laid over a buffer from `at` on, and read from the front.
// A place is named for what is written: `laid` tells it by its place, and of the chunks that `chunks_exact_mut` lends the library's contract tells no octet.
ghost use Rattle.std.specs.Prelude.{◌≡◌, ◌+◌, ◌≤◌, length, take};
ghost use Rattle.lists.specs.Lists.{laid};
ghost use Rattle.image.specs.Octets.{word};
ghost use Rattle.image.specs.Reading.{word_at};

const NUMBERS: usize = 32;

// Lays octets over a buffer.
pub fn put_octets(out: &mut [u8], at: usize, octets: &[u8])
    requires { at + length octets.now ≤ length out.old }
    ensures { out.new ≡ laid out.old at octets.now }
{
    out[at..at + octets.len()].copy_from_slice(octets);
}

// Lays a number over a buffer, cut to four octets.
pub fn put_word(out: &mut [u8], at: usize, n: u64)
    requires { at + 4 ≤ length out.old }
    ensures { out.new ≡ laid out.old at (word n) }
{
    let cut = (n % 4294967296) as u32;
    let [highest, high, low, lowest] = cut.to_be_bytes();
    put_octets(out, at, &[highest, high, low, lowest]);
}

// The number in front of octets.
pub fn read_word(octets: &[u8]) -> u64
    requires { 4 ≤ length octets.now }
    ensures { result ≡ word_at octets.now }
{
    let four = [octets[0], octets[1], octets[2], octets[3]];
    u64::from(u32::from_be_bytes(four))
}

// The 32 octets in front.
pub fn read_numbers(octets: &[u8]) -> [u8; NUMBERS]
    requires { 32 ≤ length octets.now }
    ensures { result ≡ take 32 octets.now }
{
    let mut numbers = [0u8; NUMBERS];
    numbers.copy_from_slice(&octets[..NUMBERS]);
    numbers
}
