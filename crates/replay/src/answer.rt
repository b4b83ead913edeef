// An entry's line.
use crate::header::{number_of, size_of, status_of};
use collector::Fed;
use refusal::Refusal;
use std::io;

pub const MESSAGE_OCTETS: usize = 1696;

// The octets of a message that a page has.
const CONTENT_OCTETS: usize = 53;

// The message that this page made whole.
fn print_ready(
    rt: &impl Print,
    second: u64,
    page: &[u8],
    message: &[u8; MESSAGE_OCTETS],
) -> io::Result<()> {
    let size = size_of(page);
    print!(rt;
        "{second} READY {} {} {size} ",
        status_of(page),
        number_of(page)
    )?;
    hex_text::write_line(
        &mut io::writer(rt),
        &message[..size as usize * CONTENT_OCTETS],
    )
}

// The answer to the page of an entry, which may have made a message whole.
pub fn print_answer(
    rt: &impl Print,
    second: u64,
    answer: Result<Fed, Refusal>,
    page: &[u8],
    message: &[u8; MESSAGE_OCTETS],
) -> io::Result<()> {
    match answer {
        Ok(Fed::Kept(n)) => println!(rt; "{second} KEPT {n}"),
        Ok(Fed::Ready(_)) => print_ready(rt, second, page, message),
        Err(why) => println!(rt; "{second} REFUSED {} {why}", refusal::number(why)),
    }
}

// The answer to an entry whose second is cut.
pub fn print_cut(rt: &impl Print) -> io::Result<()> {
    let why = Refusal::Length;
    println!(rt; "- REFUSED {} {why}", refusal::number(why))
}
