// Octets to standard output and from standard input, as programs print and read them, and the digest of octets that they print.
#![tactic(auto)]

ghost use Rattle.std.specs.Prelude.{◌≡◌, ◌+◌, ◌*◌, ◌%◌, ◌≤◌, length, IfOk};
ghost use Rattle.std.specs.List.{fold};
ghost use Rattle.std.specs.Io.{ReadsAtMost};

use std::io;
use std::io::Read;

// All of the octets.
pub fn write_all(rt: &impl Print, octets: &[u8]) -> io::Result<()> {
    rt.write_all(octets)
}

// The number in decimal, with no line end.
pub fn print_decimal(rt: &impl Print, n: u64) -> io::Result<()> {
    rt.print(n)
}

// The number in lower-case hex, with noughts in front up to so many digits, and with no line end.
pub fn print_hex(rt: &impl Print, n: u64, digits: usize) -> io::Result<()> {
    print!(rt; "{n:0digits$x}")
}

// Reads until the buffer is full or the input ends, and returns how many octets it put at the start of the buffer.
pub fn read_full(rt: &impl Input, buf: &mut [u8]) -> io::Result<usize>
    ensures { ReadsAtMost result buf.new }
{
    let mut reader = rt.reader();
    let mut done = 0usize;
    for _ in 0..u64::MAX {
        if done == buf.len() {
            break;
        }
        let n = reader.read(&mut buf[done..])?;
        if n == 0 {
            break;
        }
        done += n;
    }
    Ok(done)
}

// A number that any of the octets alters: of each, 31 times what came before and the octet, modulo 1,000,000,007.
pub fn digest(octets: &[u8]) -> u64
    ensures { result ≡ fold (λ digest octet. (digest % 1000000007 * 31 + octet) % 1000000007) 0 octets.now }
{
    octets.iter().fold(
        0,
        |digest, &octet| (digest % 1000000007 * 31 + u64::from(octet)) % 1000000007,
    )
}
