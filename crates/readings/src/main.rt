// Reads a script of messages, each with a lent mask, and prints what each reading answers and a digest of the whole buffer behind it:
// every refusal of the reader with its place, cut messages, lent masks.
#![tactic(auto)]

ghost use Rattle.std.specs.Prelude.{◌≡◌, take, drop};

mod script;

use mt1::RefusalAt;
use reader::RECORDS_OCTETS;
use script::{DATA, SCRIPT};
use std::io;

// Where octets begin in the data, and how many they are.
#[derive(Clone, Copy)]
pub struct Window(usize, usize);

// A message and a lent mask with its Mask ID.
#[derive(Clone, Copy)]
pub struct Reading {
    message: Window,
    mask_id: u64,
    mask: Window,
}

// Where the message of two systems and all blocks begins.
const FULL: usize = 1347;

// No octets.
const NONE: Window = Window(0, 0);

// What a window shows of the data, as far as there are data.
fn show(data: &[u8], window: Window) -> &[u8]
    ensures { result.now ≡ take window.1 (drop window.0 data.now) }
{
    let start = window.0.min(data.len());
    let behind = &data[start..];
    &behind[..window.1.min(behind.len())]
}

// The answer, and the digest of the whole buffer.
fn print_reading(rt: &impl Print, answer: Result<u64, RefusalAt>, buffer: &[u8]) -> io::Result<()> {
    match answer {
        Ok(n) => print!(rt; "{n} records")?,
        Err(refused) => print!(rt;
            "refused {} at {}",
            refusal::number(refused.why),
            refused.place
        )?,
    }
    println!(rt; ", digest {}", stdio::digest(buffer))
}

// A reading into a buffer of octets 238.
fn print_read(rt: &impl Print, reading: Reading) -> io::Result<()> {
    let data = DATA;
    let mut records = [0xEE; RECORDS_OCTETS];
    let answer = reader::read(
        show(&data, reading.message),
        reading.mask_id,
        show(&data, reading.mask),
        &mut records,
    );
    print_reading(rt, answer, &records)
}

// The readings of the script, by number.
fn print_scripted(rt: &impl Print) -> io::Result<()> {
    for (i, &reading) in SCRIPT.iter().enumerate() {
        print!(rt; "{}: ", i + 1)?;
        print_read(rt, reading)?;
    }
    Ok(())
}

// The message of two systems, cut to each number of octets up to all.
fn print_cuts(rt: &impl Print) -> io::Result<()> {
    for n in 0..=106 {
        print!(rt; "the first {n} octets: ")?;
        print_read(
            rt,
            Reading {
                message: Window(FULL, n),
                mask_id: 0,
                mask: NONE,
            },
        )?;
    }
    Ok(())
}

fn main(rt: HostRuntime) -> io::Result<()> {
    print_scripted(&rt)?;
    print_cuts(&rt)?;
    let data = DATA;
    let mut small = [0xEE; 21807];
    let answer = reader::read(&data[..53], 0, &[], &mut small);
    print!(rt; "a buffer of 21,807 octets: ")?;
    print_reading(&rt, answer, &small)
}
