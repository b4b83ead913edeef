// Octets in capital hex (document 01, Checked by hand: how the programs print them).
#![tactic(auto)]

ghost use Rattle.std.specs.Prelude.{◌≡◌, ◌≤◌, ◌/◌, min, max, length, take, OnOk};
ghost use Rattle.std.specs.Io.KnownBytes.{Appends};
ghost use Rattle.hex_text.specs.Hex.{digit_of, line_of, lines_of, Spelt};

use std::io;

// As many octets as the longest message has are printed by one write.
const PART_OCTETS: usize = 1696;

// So many octets at most have a small text: a page or a record does not pay for the clearing of a large one.
const FEW_OCTETS: usize = 64;

// The digit of a number below 16.
#[tactic(auto, unfolding(crate::specs::Hex::digit_of))]
fn digit(n: u8) -> u8
    requires { n ≤ 15 }
    ensures { result ≡ digit_of n }
{
    if n < 10 { b'0' + n } else { b'A' + (n - 10) }
}

// Puts the digits of the octets at the start of a text, two for each, as far as there is room; how many digits they are.
pub fn spell(octets: &[u8], text: &mut [u8]) -> usize
    ensures spelt { Spelt octets.now text.old result text.new }
    ensures upper_bound { (result ≤ length text.new) × (result ≡ length (take result text.new)) }
{
    let count = octets.len().min(text.len() / 2);
    for (i, &octet) in octets[..count].iter().enumerate() {
        text[2 * i] = digit(octet / 16);
        text[2 * i + 1] = digit(octet % 16);
    }
    2 * count
}

// Writes the digits of octets, as many at once as a text has room for, and a line end behind them.
fn write_by<W: io::Write>(out: &mut W, octets: &[u8], text: &mut [u8]) -> io::Result<()>
    requires { 2 ≤ length text.old }
    ensures { OnOk result (Appends (W.contents out.old) (W.contents out.new) (line_of octets.now)) }
{
    for part in octets.chunks(text.len() / 2) {
        let count = spell(part, text);
        out.write_all(&text[..count])?;
    }
    out.write_all(b"\n")
}

// Writes the digits of octets, and a line end behind them.
pub fn write_line<W: io::Write>(out: &mut W, octets: &[u8]) -> io::Result<()>
    ensures { OnOk result (Appends (W.contents out.old) (W.contents out.new) (line_of octets.now)) }
{
    if octets.len() <= FEW_OCTETS {
        let mut text = [0u8; 2 * FEW_OCTETS];
        write_by(out, octets, &mut text)
    } else {
        let mut text = [0u8; 2 * PART_OCTETS];
        write_by(out, octets, &mut text)
    }
}

// Writes the first n chunks of so many octets, a line each; octets at the end that fill no chunk have no line. A size of 0 counts as 1, so that nothing is required.
pub fn write_lines<W: io::Write>(out: &mut W, octets: &[u8], size: usize, n: u64) -> io::Result<()>
    ensures { OnOk result (Appends (W.contents out.old) (W.contents out.new) (lines_of (min n (length octets.now / max size 1)) (max size 1) octets.now)) }
{
    let size = size.max(1);
    let lines = (octets.len() / size).min(n as usize);
    for chunk in octets[..lines * size].chunks_exact(size) {
        write_line(out, chunk)?;
    }
    Ok(())
}
