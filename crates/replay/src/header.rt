// The fields of a page's header that a READY line names (document 01, The page).
ghost use Rattle.std.specs.Prelude.{◌≡◌, ◌≤◌, get_or};
ghost use Rattle.pagecode.specs.Page.{first_bits, header_of};

// An octet of the page; 0 behind its end.
fn octet_at(page: &[u8], i: usize) -> u64
    ensures { (result ≡ get_or page.now i 0) × (result ≤ 255) }
{
    page.get(i).copied().map_or(0, u64::from)
}

// The first 24 bits of the page.
#[tactic(auto, unfolding(pagecode::specs::Page::first_bits))]
fn first_bits(page: &[u8]) -> u64
    ensures { result ≡ first_bits page.now }
{
    octet_at(page, 0) * 65536 + octet_at(page, 1) * 256 + octet_at(page, 2)
}

// The status: 22 bits stand behind it.
#[tactic(auto, unfolding(pagecode::specs::Page::header_of, pagecode::specs::Page::bits_from))]
pub fn status_of(page: &[u8]) -> u64
    ensures { result ≡ (header_of page.now).status }
{
    first_bits(page) / 4194304 % 4
}

// The message number: 13 bits stand behind it.
#[tactic(auto, unfolding(pagecode::specs::Page::header_of, pagecode::specs::Page::bits_from))]
pub fn number_of(page: &[u8]) -> u64
    ensures { result ≡ (header_of page.now).number }
{
    first_bits(page) / 8192 % 32
}

// The size less 1: 8 bits stand behind it.
#[tactic(auto, unfolding(pagecode::specs::Page::header_of, pagecode::specs::Page::bits_from))]
pub fn size_of(page: &[u8]) -> u64
    ensures { (result ≡ (header_of page.now).size) × (result ≤ 32) }
{
    first_bits(page) / 256 % 32 + 1
}
