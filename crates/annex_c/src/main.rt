// Solves the example of the ICD's Annex C: 15 pages off the air give the message, the message gives the 15 pages again, it is read, and its records are written to it again.
#![tactic(auto)]

mod pages;

use pages::{CONTENTS, NUMBERS};
use reader::RECORDS_OCTETS;
use std::io;
use writer::MESSAGE_OCTETS;

// The octets of the example's message, and of each of its 15 pages.
const OCTETS: usize = 795;

const PAGE_OCTETS: usize = 53;

const RECORD_OCTETS: usize = 16;

// Prints octets in hexadecimal, on a line. No `hex_text::write_line`: that has capital digits.
fn print_octets(rt: &impl Print, octets: &[u8]) -> io::Result<()> {
    for octet in octets {
        print!(rt; "{octet:02x}")?;
    }
    println!(rt)
}

// Whether the message's page with this number has these contents. The example's pages have status 0 and message number 15.
fn has_page(message: &[u8], number: u64, contents: &[u8]) -> bool {
    let mut page = [0u8; 56];
    pagecode::encode_page(message, 0, 15, number, &mut page).is_ok() && &page[3..] == contents
}

// Whether the records, written again, are the message.
fn is_written_again(records: &[u8], message: &[u8]) -> bool {
    let mut again = [0u8; MESSAGE_OCTETS];
    writer::write(records, 0, &[], &mut again).is_ok() && again.starts_with(message)
}

// How many records the message has, and whether they are written to it again.
fn print_reading(rt: &impl Print, message: &[u8]) -> io::Result<()> {
    let mut records = [0u8; RECORDS_OCTETS];
    let Ok(n) = reader::read(message, 0, &[], &mut records) else {
        return println!(rt; "It does not read as message type 1.");
    };
    println!(rt; "Records that it has, read as message type 1: {n}")?;
    let count = (n as usize).min(RECORDS_OCTETS / RECORD_OCTETS);
    if is_written_again(&records[..count * RECORD_OCTETS], message) {
        println!(rt; "Written again from its records: the same octets.")?;
    }
    Ok(())
}

// The content of each page, on a line.
fn print_pages(rt: &impl Print, message: &[u8]) -> io::Result<()> {
    for page in message.chunks_exact(PAGE_OCTETS) {
        print_octets(rt, page)?;
    }
    Ok(())
}

fn main(rt: HostRuntime) -> io::Result<()> {
    let mut message = [0u8; MESSAGE_OCTETS];
    if pagecode::solve(&CONTENTS, &NUMBERS, &mut message).is_err() {
        return println!(rt; "refused");
    }
    let (message, _) = message.split_at(OCTETS);
    println!(rt; "The message of 15 pages that Annex C of the HAS SIS ICD sends:")?;
    print_pages(&rt, message)?;
    let mut pages = NUMBERS.iter().zip(CONTENTS.chunks_exact(PAGE_OCTETS));
    if pages.all(|(&number, contents)| has_page(message, number, contents)) {
        println!(rt; "Encoded again at its 15 page numbers: the same pages.")?;
    }
    print_reading(&rt, message)
}
