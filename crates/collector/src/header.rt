// Check 3: what a page's header says (document 01, The page, and The collector).
ghost use Rattle.std.specs.Prelude.{◌≡◌};
ghost use Rattle.pagecode.specs.Page.{header_of, is_dummy};
ghost use Rattle.collector.specs.Feed.{key_of, judge};
ghost use Rattle.collector.specs.Image.{key_image};
ghost use Rattle.collector.specs.Steps.{judged_image};

use crate::state::Key;
use refusal::Refusal;

// A page that is not refused by its header: one of status 3, or one to hold, by its key. It has names of its own, as an `Option` would have none for STOP, which empties all places.
#[derive(Clone, Copy, Debug, PartialEq, Eq)]
pub enum Judged {
    Stop,
    Hold(Key),
}

// Whether the header is AF3BC3.
fn is_dummy(page: &[u8; 56]) -> bool
    ensures { result ≡ is_dummy page.now }
{
    page.starts_with(&[0xAF, 0x3B, 0xC3])
}

// The status, number and size of the header.
fn key_of(page: &[u8; 56]) -> Key
    ensures { result ≡ key_image (key_of page.now) }
{
    Key {
        status: page[0] / 64,
        number: page[0] % 4 * 8 + page[1] / 32,
        size: page[1] % 32 + 1,
    }
}

// The type of the header.
fn kind_of(page: &[u8; 56]) -> u8
    ensures { result ≡ (header_of page.now).kind }
{
    page[0] / 4 % 4
}

// The checks of the header, in their order.
pub fn judge_page(page: &[u8; 56]) -> Result<Judged, Refusal>
    ensures { result ≡ judged_image (judge page.now) }
{
    if is_dummy(page) {
        return Err(Refusal::Dummy);
    }
    let key = key_of(page);
    if key.status == 3 {
        return Ok(Judged::Stop);
    }
    if key.status == 2 {
        return Err(Refusal::Status);
    }
    if kind_of(page) != 1 {
        return Err(Refusal::Kind);
    }
    if !pagecode::is_legal(usize::from(key.size), u64::from(page[2])) {
        return Err(Refusal::PageNumber);
    }
    Ok(Judged::Hold(key))
}
