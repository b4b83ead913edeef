// Pages that are laid into a message, or into right sides.
ghost use Rattle.std.specs.Prelude.{◌+◌, ◌*◌, ◌≤◌, ◌<◌, ◌≡◌, length};
ghost use Rattle.pagecode.specs.Reduction.{Spread, PageLaid, PagesLaid};

use crate::sizes::{CONTENT_OCTETS, Message};

// Lays page i of the source, from 0 on, as page p, from 1 on; none where p is 0.
pub fn lay_page(source: &[u8], i: usize, out: &mut Message, p: usize)
    requires { (i < 32) × (p ≤ 32) × (i * 53 + 53 ≤ length source.now) }
    ensures { PageLaid source.now i p out.old out.new }
{
    if p == 0 {
        return;
    }
    let at = (p - 1) * CONTENT_OCTETS;
    let from = i * CONTENT_OCTETS;
    out[at..at + CONTENT_OCTETS].copy_from_slice(&source[from..from + CONTENT_OCTETS]);
}

// Lays as many pages of the source as `to` has numbers, each as the page that `to` says.
pub fn lay_pages(source: &[u8], to: &[u8], out: &mut Message)
    requires { (length to.now ≤ 32) × (length to.now * 53 ≤ length source.now) × Spread (length to.now) 32 to.now }
    ensures { PagesLaid (length to.now) source.now to.now out.old out.new }
{
    for (i, p) in to.iter().enumerate() {
        lay_page(source, i, out, usize::from(*p));
    }
}
