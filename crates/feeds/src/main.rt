// Runs a script of feeds through the collector and prints each answer: KEPT and READY with their numbers, a refusal with its number.
#![tactic(auto)]

ghost use Rattle.collector.specs.Image.{Made};

mod script;

use collector::{Collector, Fed};
use refusal::Refusal;
use script::{Change, Feed, SCRIPT};
use std::io;

const MESSAGE_OCTETS: usize = 1696;

// The octets of a page, and of the message that a page has.
const PAGE_OCTETS: usize = 56;

const CONTENT_OCTETS: usize = 53;

const MOST_PAGES: usize = 32;

// The message that has this number and size: octet i is 7i + 31 times the size + the number, modulo 251.
fn message_of(number: u64, size: usize) -> [u8; MESSAGE_OCTETS] {
    let mut message = [0u8; MESSAGE_OCTETS];
    let start = size % 64 * 31 + number as usize % 64;
    for (i, octet) in message.iter_mut().enumerate() {
        *octet = ((start + 7 * i) % 251) as u8;
    }
    message
}

// Does to a page what the script says.
fn alter(page: &mut [u8; PAGE_OCTETS], change: Change) {
    match change {
        Change::Content => page[55] ^= 1,
        Change::Dummy => page[..3].copy_from_slice(&[0xAF, 0x3B, 0xC3]),
        Change::StatusThree => page[0] |= 192,
        Change::StatusTwo => page[0] = page[0] % 64 | 128,
        Change::TypeTwo => page[0] ^= 12,
        Change::PageZero => page[2] = 0,
        Change::Nothing | Change::ShortPage | Change::SmallBuffer => {}
    }
}

// A line of the answer; `same` says whether the message in the buffer is the one that was sent.
fn print_answer(
    rt: &impl Print,
    second: u64,
    answer: Result<Fed, Refusal>,
    same: bool,
) -> io::Result<()> {
    match answer {
        Ok(Fed::Kept(n)) => println!(rt; "{second}: KEPT {n}"),
        Ok(Fed::Ready(n)) => println!(rt;
            "{second}: READY {n}{}",
            if same { ", as sent" } else { "" }
        ),
        Err(why) => println!(rt; "{second}: REFUSED {}", refusal::number(why)),
    }
}

// One line of the script.
fn feed_line(rt: &impl Print, collector: &mut Collector, feed: Feed) -> io::Result<()>
    requires { Made collector.old }
    ensures { Made collector.new }
{
    let message = message_of(feed.number, feed.size);
    let sent = &message[..feed.size.min(MOST_PAGES) * CONTENT_OCTETS];
    let mut page = [0u8; PAGE_OCTETS];
    let _ = pagecode::encode_page(sent, feed.status, feed.number, feed.page, &mut page);
    alter(&mut page, feed.change);
    let octets = if feed.change == Change::ShortPage {
        PAGE_OCTETS - 1
    } else {
        PAGE_OCTETS
    };
    let room = if feed.change == Change::SmallBuffer {
        MESSAGE_OCTETS - 1
    } else {
        MESSAGE_OCTETS
    };
    let mut out = [0u8; MESSAGE_OCTETS];
    let answer = collector::feed(collector, feed.second, &page[..octets], &mut out[..room]);
    let same = &out[..sent.len()] == sent;
    print_answer(rt, feed.second, answer, same)
}

// The answer to a time-out, by its number.
fn print_start(rt: &impl Print, timeout: u64) -> io::Result<()> {
    let answer = collector::start(timeout).answer;
    println!(rt; "start {timeout}: {}", pagecode::answer_number(answer))
}

fn main(rt: HostRuntime) -> io::Result<()> {
    print_start(&rt, 60)?;
    let mut collector = collector::start(60).collector;
    for feed in SCRIPT {
        feed_line(&rt, &mut collector, feed)?;
    }
    print_start(&rt, 0)?;
    print_start(&rt, 600)?;
    print_start(&rt, 601)
}
