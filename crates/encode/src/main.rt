// Reads a message and page numbers from standard input, and prints each page in capital hex, a line each, or the refusal. One octet each: the status, the
// message number, how many pages, and their numbers; then the message.
//
// Nothing is printed by halves: if any page is refused, the first refusal is all that is printed. No page asked for, and input that ends before the page
// numbers do, are LENGTH, as is a message that is not 1 to 32 pages of 53 octets.
#![tactic(auto)]

ghost use Rattle.std.specs.Prelude.{◌≡◌, ◌+◌, IfOk, slice_index, take, drop};
ghost use Rattle.pagecode.specs.Encode.{encode_answer};
ghost use Rattle.encode.specs.Pages.{pages_answer};

use refusal::Refusal;
use std::io;

// 3 octets and 255 page numbers, and an octet more than a message may have: with fewer page numbers, the more of the message is kept.
const INPUT_OCTETS: usize = 1955;

// Status, number, how many pages.
const HEADER_OCTETS: usize = 3;

const PAGE_OCTETS: usize = 56;

// A message, and what its pages say of it.
#[derive(Clone, Copy)]
struct Message<'a> {
    octets: &'a [u8],
    status: u64,
    number: u64,
}

impl Message<'_> {
    // The answer to one page, which is put in a buffer.
    fn encode(self, page: u8, out: &mut [u8; PAGE_OCTETS]) -> Result<(), Refusal>
        ensures { result ≡ encode_answer self.entry.octets.now self.entry.status self.entry.number page 56 }
    {
        pagecode::encode_page(self.octets, self.status, self.number, u64::from(page), out)
    }

    // The first refusal of the pages, if there is one.
    fn judge(self, pages: &[u8]) -> Result<(), Refusal>
        ensures { result ≡ pages_answer self.entry.octets.now self.entry.status self.entry.number pages.now }
    {
        let mut octets = [0u8; PAGE_OCTETS];
        for &page in pages {
            self.encode(page, &mut octets)?;
        }
        Ok(())
    }

    // Prints the pages that are not refused.
    fn print(self, rt: &impl Print, pages: &[u8]) -> io::Result<()> {
        let mut octets = [0u8; PAGE_OCTETS];
        for &page in pages {
            if self.encode(page, &mut octets).is_ok() {
                hex_text::write_line(&mut io::writer(rt), &octets)?;
            }
        }
        Ok(())
    }
}

// The message of the input and the page numbers asked for; LENGTH if there is none, or the input ends before they do.
fn parse(input: &[u8]) -> Result<(Message<'_>, &[u8]), Refusal>
    ensures message { IfOk result (λ parsed. (parsed.0.status ≡ slice_index input.now 0) × (parsed.0.number ≡ slice_index input.now 1) × (parsed.0.octets.now ≡ drop (3 + slice_index input.now 2) input.now)) }
    ensures pages { IfOk result (λ parsed. parsed.1.now ≡ take (slice_index input.now 2) (drop 3 input.now)) }
{
    let (header, behind) = input.split_first_chunk().ok_or(Refusal::Length)?;
    let [status, number, count]: [u8; HEADER_OCTETS] = *header;
    let (pages, octets) = behind
        .split_at_checked(usize::from(count))
        .ok_or(Refusal::Length)?;
    if pages.is_empty() {
        return Err(Refusal::Length);
    }
    let message = Message {
        octets,
        status: u64::from(status),
        number: u64::from(number),
    };
    Ok((message, pages))
}

// What is to be printed of the input, if nothing is refused.
fn judge_input(input: &[u8]) -> Result<(Message<'_>, &[u8]), Refusal> {
    let (message, pages) = parse(input)?;
    message.judge(pages)?;
    Ok((message, pages))
}

fn main(rt: HostRuntime) -> io::Result<()> {
    let mut input = [0u8; INPUT_OCTETS];
    let n = stdio::read_full(&rt, &mut input)?;
    match judge_input(&input[..n]) {
        Ok((message, pages)) => message.print(&rt, pages),
        Err(why) => println!(rt; "REFUSED {}", refusal::number(why)),
    }
}
