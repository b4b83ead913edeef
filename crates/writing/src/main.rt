// Reads records of 16 octets from standard input, and writes their message, with no mask lent, in capital hex, a page a line, or the refusal (document 01, Records).
#![tactic(auto)]

ghost use Rattle.std.specs.Prelude.{◌≤◌, IfOk};

use std::io;
use writer::MESSAGE_OCTETS;

// The octets that are kept: a record more than the longest list has.
const KEPT: usize = 21824;

// The octets of a message that a page has.
const PAGE_OCTETS: usize = 53;

const RECORD_OCTETS: usize = 16;

// How many octets are skipped at once: whole records.
const SKIPPED_OCTETS: usize = 4096;

// Takes the next octets of the input, SKIPPED_OCTETS at most; how many they were.
fn skip(rt: &impl Input) -> io::Result<usize> {
    let mut octets = [0u8; SKIPPED_OCTETS];
    stdio::read_full(rt, &mut octets)
}

// Whether as many octets are left as whole records have. A proved loop has to end, and nothing says that the input does: so its turns are numbered, and no
// run uses the numbers up.
fn rest_is_whole(rt: &impl Input) -> io::Result<bool> {
    for _ in 0..u64::MAX {
        let n = skip(rt)?;
        if n < SKIPPED_OCTETS {
            return Ok(n % RECORD_OCTETS == 0);
        }
    }
    Ok(true)
}

// How many of the n octets that are kept are handed over. A list of more than they are is refused as one of as many, or of one less if it is not whole records.
fn handed(rt: &impl Input, n: usize) -> io::Result<usize>
    ensures { IfOk result (λ octets. octets ≤ 21824) }
{
    if n < KEPT {
        Ok(n)
    } else if rest_is_whole(rt)? {
        Ok(KEPT)
    } else {
        Ok(KEPT - 1)
    }
}

fn main(rt: HostRuntime) -> io::Result<()> {
    let mut input = [0u8; KEPT];
    let n = stdio::read_full(&rt, &mut input)?;
    let octets = handed(&rt, n)?;
    let mut message = [0u8; MESSAGE_OCTETS];
    match writer::write(&input[..octets], 0, &[], &mut message) {
        Ok(size) => hex_text::write_lines(&mut io::writer(&rt), &message, PAGE_OCTETS, size),
        Err(why) => println!(rt; "REFUSED {}", refusal::number(why)),
    }
}
