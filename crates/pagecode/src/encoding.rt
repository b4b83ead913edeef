// Encoding one page of a message (document 01, The page code, last paragraph).
ghost use Rattle.pagecode.specs.Encode.{Encoded};

use crate::numbers::{are_pages, is_legal};
use crate::page::{page_content, write_page};
use crate::sizes::{CONTENT_OCTETS, PAGE_OCTETS};
use refusal::Refusal;

// Encodes page `page` of a message of 53k octets, k from 1 to 32, into 56 octets.
#[tactic(auto, unfolding(crate::specs::Encode::encode_answer))]
pub fn encode_page(
    message: &[u8],
    status: u64,
    number: u64,
    page: u64,
    out: &mut [u8],
) -> Result<(), Refusal>
    ensures { Encoded message.now status number page out.old result out.new }
{
    let k = message.len() / CONTENT_OCTETS;
    if !are_pages(k, message.len()) {
        return Err(Refusal::Length);
    }
    if out.len() != PAGE_OCTETS {
        return Err(Refusal::Out);
    }
    if 2 <= status {
        return Err(Refusal::Status);
    }
    if 32 <= number {
        return Err(Refusal::Id);
    }
    if !is_legal(k, page) {
        return Err(Refusal::PageNumber);
    }
    let content = page_content(message, k, page as usize);
    write_page(out, status, number, k, page, content);
    Ok(())
}
