// Reads the octets of a message from standard input, with no mask lent, and lists its records in capital hex, or the refusal (document 01, Checked by hand).
#![tactic(auto)]

use mt1::RefusalAt;
use reader::RECORDS_OCTETS;
use std::io;

// An octet more than a message may have.
const INPUT_OCTETS: usize = 1697;

const RECORD_OCTETS: usize = 16;

// The first n records, a line each.
fn print_records(rt: &impl Print, records: &[u8], n: u64) -> io::Result<()> {
    hex_text::write_lines(&mut io::writer(rt), records, RECORD_OCTETS, n)
}

// The refusal's number, and its bit place.
fn print_refused(rt: &impl Print, refused: RefusalAt) -> io::Result<()> {
    println!(rt;
        "REFUSED {} {}",
        refusal::number(refused.why),
        refused.place
    )
}

fn main(rt: HostRuntime) -> io::Result<()> {
    let mut input = [0u8; INPUT_OCTETS];
    let n = stdio::read_full(&rt, &mut input)?;
    let mut records = [0u8; RECORDS_OCTETS];
    match reader::read(&input[..n], 0, &[], &mut records) {
        Ok(count) => print_records(&rt, &records, count),
        Err(refused) => print_refused(&rt, refused),
    }
}
