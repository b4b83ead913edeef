// Runs what the ICD prints: Table 41 as far as our copy has it, Table 42, and Annex D of source 000; and each refusal once.
#![tactic(auto)]

ghost use Rattle.std.specs.Prelude.{◌≤◌, ◌<◌};

mod annex_d;

use annex_d::INFORMATION;
use std::io;

// Table 41 from n on, up to the power before end.
fn print_powers(rt: &impl Print, start: u64, end: u64) -> io::Result<()> {
    for n in start..end {
        println!(rt; "{n} {}", pagecode::field::power(n))?;
    }
    Ok(())
}

// A message of 32 pages: at one place of each an octet of a word, elsewhere 0.
#[derive(Drop)]
struct Column {
    message: [u8; 1696],
    place: usize,
    ghost within: { place < 53 },
}

impl Column {
    // The message of a word, at a place.
    fn new(word: [u8; 32], place: usize) -> Self
        requires { place < 53 }
    {
        let mut message = [0u8; 1696];
        for (page, &octet) in word.iter().enumerate() {
            message[page * 53 + place] = octet;
        }
        Column { message, place }
    }

    // The octet of a page at the place; 0 where the page is refused.
    fn octet_at(&self, page: u64) -> u8 {
        let mut out = [0u8; 56];
        let _ = pagecode::encode_page(&self.message, 1, 3, page, &mut out);
        out[3 + self.place]
    }

    // Annex D: the octet of each page.
    fn print_pages(&self, rt: &impl Print) -> io::Result<()> {
        for page in 1..256 {
            println!(rt; "{page} {}", self.octet_at(page))?;
        }
        Ok(())
    }

    // Table 42: where page 32 has 1 and every other page 0, page 255 - j has g_j.
    fn print_generator(&self, rt: &impl Print) -> io::Result<()> {
        for j in 0..223 {
            println!(rt; "{j} {}", self.octet_at(255 - j))?;
        }
        Ok(())
    }
}

// The number of the answer to a message of n octets, in a buffer of `room`.
fn encode_number(n: usize, status: u64, number: u64, page: u64, room: usize) -> u64
    requires { (n ≤ 106) × (room ≤ 57) }
{
    let message = [7u8; 106];
    let mut out = [0u8; 57];
    pagecode::answer_number(pagecode::encode_page(
        &message[..n],
        status,
        number,
        page,
        &mut out[..room],
    ))
}

// The numbers of `encode_page`'s answers.
fn print_encode_refusals(rt: &impl Print) -> io::Result<()> {
    println!(rt;
        "{} {} {} {} {}",
        encode_number(105, 1, 31, 33, 56),
        encode_number(106, 1, 31, 33, 57),
        encode_number(106, 2, 31, 33, 56),
        encode_number(106, 1, 32, 33, 56),
        encode_number(106, 1, 31, 256, 56),
    )?;
    println!(rt;
        "{} {} {} {} {}",
        encode_number(0, 4, 256, 3, 55),
        encode_number(106, 4, 256, 3, 55),
        encode_number(106, 4, 256, 3, 56),
        encode_number(106, 0, 256, 3, 56),
        encode_number(106, 0, 0, 3, 56),
    )?;
    println!(rt; "{}", encode_number(106, 0, 31, 255, 56))
}

// The number of the answer to n content octets of pages a and b, in a buffer of `room`.
fn solve_number(n: usize, a: u64, b: u64, room: usize) -> u64
    requires { (n ≤ 106) × (room ≤ 1697) }
{
    let contents = [7u8; 106];
    let mut out = [0u8; 1697];
    pagecode::answer_number(pagecode::solve(&contents[..n], &[a, b], &mut out[..room]))
}

// The numbers of `solve`'s answers.
fn print_solve_refusals(rt: &impl Print) -> io::Result<()> {
    println!(rt;
        "{} {} {} {}",
        solve_number(105, 1, 33, 1696),
        solve_number(106, 1, 33, 1697),
        solve_number(106, 1, 3, 1696),
        solve_number(106, 33, 33, 1696),
    )?;
    println!(rt;
        "{} {} {} {}",
        solve_number(53, 256, 256, 1695),
        solve_number(106, 256, 256, 1695),
        solve_number(106, 256, 256, 1696),
        solve_number(106, 2, 2, 1696),
    )?;
    println!(rt; "{}", solve_number(106, 255, 2, 1696))
}

fn main(rt: HostRuntime) -> io::Result<()> {
    println!(rt; "Table 41: n and the octet of alpha^n")?;
    print_powers(&rt, 0, 15)?;
    print_powers(&rt, 239, 255)?;
    println!(rt; "Table 42: j and g_j, from page 255 - j of the unit word")?;
    let mut unit = [0u8; 32];
    unit[31] = 1;
    Column::new(unit, 52).print_generator(&rt)?;
    println!(rt; "Annex D: page and octet")?;
    Column::new(INFORMATION, 17).print_pages(&rt)?;
    println!(rt; "encode_page: each refusal alone, then with all later ones, then none")?;
    print_encode_refusals(&rt)?;
    println!(rt; "solve: each refusal alone, then with all later ones, then none")?;
    print_solve_refusals(&rt)
}
