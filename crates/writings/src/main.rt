// Reads a script of writings from standard input, and prints what each answers and a digest of the whole buffer behind it: messages of 1 to 32 pages,
// lent masks, every refusal of the writer, messages of chance and damage done to them. What is expected was worked out by a program apart from this one.
//
// The numbers of the script have two octets; a window is a place, counted from the first octet, and how many octets. First comes where the writings begin,
// then the octets that the windows show. A writing has the window of its name, that of the lent mask, the Mask ID, how long the buffer is,
// how many windows its records have, and these: the records are what they show, one behind the other.
#![tactic(auto)]

ghost use Rattle.std.specs.Prelude.{◌≤◌, ◌-◌, length};

use refusal::Refusal;
use std::io;

const INPUT_OCTETS: usize = 98304;

// The octets of a name and of a lent mask that are taken, at most.
const NAME_OCTETS: usize = 128;

const MASK_OCTETS: usize = 256;

// A record more than the longest list has.
const LIST_OCTETS: usize = 21824;

// An octet more than a message may have.
const BUFFER_OCTETS: usize = 1697;

// The whole input, of which windows are shown, and what is left of the script.
#[derive(Clone, Copy)]
struct Script<'a> {
    input: &'a [u8],
    rest: &'a [u8],
}

impl<'a> Script<'a> {
    // The next number; 0 behind the end.
    fn read_number(&mut self) -> u16
        ensures { length self.new.rest.now ≤ length self.old.rest.now - 1 }
    {
        match self.rest.split_first_chunk() {
            Some((&octets, rest)) => {
                self.rest = rest;
                u16::from_be_bytes(octets)
            }
            None => {
                self.rest = &[];
                0
            }
        }
    }

    // What the next window shows, as far as there are octets, and not more than so many.
    fn read_window(&mut self, most: usize) -> &'a [u8]
        ensures shorter { length self.new.rest.now ≤ length self.old.rest.now - 1 }
        ensures upper_bound { length result.now ≤ most }
    {
        let place = usize::from(self.read_number());
        let n = usize::from(self.read_number());
        let shown = self.input.get(place..).unwrap_or(&[]);
        &shown[..n.min(most).min(shown.len())]
    }
}

// What the next windows show, one behind the other, as far as there is room in a list; how many octets they are.
fn gather(script: &mut Script, windows: u16, list: &mut [u8]) -> usize
    ensures shorter { length script.new.rest.now ≤ length script.old.rest.now }
    ensures upper_bound { result ≤ length list.new }
{
    let mut end: usize = 0;
    for _ in 0..windows {
        let shown = script.read_window(list.len() - end);
        list[end..end + shown.len()].copy_from_slice(shown);
        end += shown.len();
    }
    end
}

// The answer, and the digest of the whole buffer.
fn print_answer(rt: &impl Print, answer: Result<u64, Refusal>, buffer: &[u8]) -> io::Result<()> {
    match answer {
        Ok(pages) => print!(rt; ": pages {pages}")?,
        Err(why) => print!(rt; ": refused {}", refusal::number(why))?,
    }
    println!(rt; ", digest {}", stdio::digest(buffer))
}

// The next writing of the script, into a buffer of octets 165, of which as many are lent as it says.
fn print_writing(rt: &impl Print, script: &mut Script) -> io::Result<()>
    ensures { length script.new.rest.now ≤ length script.old.rest.now - 1 }
{
    rt.write_all(script.read_window(NAME_OCTETS))?;
    let mask = script.read_window(MASK_OCTETS);
    let id = u64::from(script.read_number());
    let room = usize::from(script.read_number()).min(BUFFER_OCTETS);
    let windows = script.read_number();
    let mut records = [0u8; LIST_OCTETS];
    let n = gather(script, windows, &mut records);
    let mut buffer = [0xA5; BUFFER_OCTETS];
    let answer = writer::write(&records[..n], id, mask, &mut buffer[..room]);
    print_answer(rt, answer, &buffer)
}

// Prints the writings of the script, one behind the other. It is a while, and no `for`: only a writing itself says where the next begins.
fn print_writings(rt: &impl Print, input: &[u8]) -> io::Result<()> {
    let mut script = Script { input, rest: input };
    let start = usize::from(script.read_number());
    script.rest = input.get(start..).unwrap_or(&[]);
    while !script.rest.is_empty() {
        print_writing(rt, &mut script)?;
    }
    Ok(())
}

fn main(rt: HostRuntime) -> io::Result<()> {
    let mut input = [0u8; INPUT_OCTETS];
    let n = stdio::read_full(&rt, &mut input)?;
    print_writings(&rt, &input[..n])
}
