// A page of a message: its content by the generator matrix (ICD Eq. 13), and its header (ICD 3).
ghost use Rattle.std.specs.Prelude.{◌++◌, ◌≡◌, ◌+◌, ◌*◌, ◌≤◌, ◌<◌, drop, length, take};
ghost use Rattle.pagecode.specs.Code.{plus, scale};
ghost use Rattle.pagecode.specs.Page.{content, header_octets};

use crate::field::product;
use crate::matrix::matrix_row;
use crate::sizes::{CONTENT_OCTETS, Content};

// Adds f times page i + 1 of the message.
pub fn add_page(sum: Content, message: &[u8], i: usize, f: u8) -> Content
    requires { (i < 32) × (i * 53 + 53 ≤ length message.now) }
    ensures { result ≡ plus sum (scale f (take 53 (drop (i * 53) message.now))) }
{
    let from = i * CONTENT_OCTETS;
    let page = &message[from..from + CONTENT_OCTETS];
    let mut s = sum;
    for (j, x) in s.iter_mut().enumerate() {
        *x ^= product(page[j], f);
    }
    s
}

// The content of page p: each page of the message times its entry in the row of p.
pub fn page_content(message: &[u8], k: usize, p: usize) -> Content
    requires { (k ≤ 32) × (length message.now ≡ k * 53) × (1 ≤ p) × (p ≤ 255) }
    ensures { result ≡ content k message.now p }
{
    let row = matrix_row(p);
    let mut c = [0u8; CONTENT_OCTETS];
    for i in 0..k {
        let f = row[i];
        let d = add_page(c, message, i, f);
        c = d;
    }
    c
}

// Writes the header and the content. By `copy_from_slice`, which goes element by element, encoding a page took half as long again.
pub fn write_page(out: &mut [u8], status: u64, number: u64, k: usize, page: u64, content: Content)
    requires { (length out.old ≡ 56) × (status < 2) × (number < 32) × (1 ≤ k) × (k ≤ 32) × (page ≤ 255) }
    ensures { out.new ≡ header_octets (record { status = status; reserved = 0; kind = 1; number = number; size = k; page = page }) ++ content }
{
    out[0] = (status * 64 + 4 + number / 8) as u8;
    out[1] = (number % 8 * 32 + (k as u64) - 1) as u8;
    out[2] = page as u8;
    for j in 0..CONTENT_OCTETS {
        out[3 + j] = content[j];
    }
}
