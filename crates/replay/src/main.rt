// Replays a recorded drive from standard input through a collector with the product's time-out, and prints a line for each entry: its second, and KEPT with
// the count of different pages held; READY with the message's status, number, size and octets in capital hex; or REFUSED with the refusal's number and name.
//
// An entry is 60 octets: the second, four octets with the highest first, and the page. If the last entry is cut, what is there of its page is fed, which is
// LENGTH. If even its second is cut, there is nothing to feed: the line has - in the place of the second, and says LENGTH too.
#![tactic(auto)]

ghost use Rattle.std.specs.Prelude.{◌≡◌};
ghost use Rattle.collector.specs.Image.{Made};
ghost use Rattle.replay.specs.Drive.{second_of};

mod answer;
mod header;

use answer::{MESSAGE_OCTETS, print_answer, print_cut};
use collector::{Collector, TIMEOUT};
use std::io;

const ENTRY_OCTETS: usize = 60;

// The second of an entry.
#[tactic(auto, unfolding(crate::specs::Drive::second_of))]
fn second_of(octets: [u8; 4]) -> u64
    ensures { result ≡ second_of octets }
{
    u64::from(u32::from_be_bytes(octets))
}

// The line of an entry, or of what is there of the last one. Where it cannot be printed, the collector is as the feed left it.
fn replay_entry(rt: &impl Print, collector: &mut Collector, octets: &[u8]) -> io::Result<()>
    requires { Made collector.old }
    ensures { Made collector.new }
{
    let Some((&second, page)) = octets.split_first_chunk() else {
        return print_cut(rt);
    };
    let second = second_of(second);
    let mut message = [0u8; MESSAGE_OCTETS];
    let answer = collector::feed(collector, second, page, &mut message);
    print_answer(rt, second, answer, page, &message)
}

// Replays entry by entry. A proved loop has to end, and nothing says that the input does: so its turns are numbered, and no run uses the numbers up.
fn replay_entries(rt: &(impl Print + Input), collector: &mut Collector) -> io::Result<()>
    requires { Made collector.old }
{
    for _ in 0..u64::MAX {
        let mut octets = [0u8; ENTRY_OCTETS];
        let n = stdio::read_full(rt, &mut octets)?;
        if n == 0 {
            break;
        }
        replay_entry(rt, collector, &octets[..n])?;
    }
    Ok(())
}

fn main(rt: HostRuntime) -> io::Result<()> {
    let mut collector = collector::start(TIMEOUT).collector;
    replay_entries(&rt, &mut collector)
}
