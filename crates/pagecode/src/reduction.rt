// The plain pages that are received stand in the message; those that are missing are solved from the parity pages (ICD 6.4).
// In each equation of a parity page the known pages go to its right side, so that r missing pages are r equations of r unknowns.
ghost use Rattle.std.specs.Prelude.{◌+◌, ◌*◌, ◌≤◌, true, ◌≡◌, length, Ok};
ghost use Rattle.pagecode.specs.Field.{Octets};
ghost use Rattle.pagecode.specs.Solve.{all_legal, different, SolvedBuffer};
ghost use Rattle.pagecode.specs.Reduction.{ArePlain, AreNoughts, Numbered, ParityRows, ReducedRow, ReducedRows, KnownAdded, ReducedSides, Completed};

use crate::elimination::solve_square;
use crate::laying::{lay_page, lay_pages};
use crate::matrix::matrix_row;
use crate::missing::{list_places, mark_columns, plain_numbers};
use crate::page::add_page;
use crate::sizes::{CONTENT_OCTETS, Content, MESSAGE_OCTETS, MOST_PAGES, Message, Row, Square};

// The rows of the parity pages, whose places among the numbers are given.
fn parity_rows(numbers: &[u64], parity: &[u8]) -> Square
    requires { (length numbers.now ≤ 32) × (all_legal (length numbers.now) numbers.now ≡ true) × (length parity.now ≤ 32)
        × Numbered (length parity.now) (length numbers.now) parity.now }
    ensures { ParityRows (length parity.now) numbers.now parity.now result }
{
    let mut rows = [[0u8; MOST_PAGES]; MOST_PAGES];
    for (a, place) in parity.iter().enumerate() {
        let p = numbers[usize::from(*place) - 1] as usize;
        rows[a] = matrix_row(p);
    }
    rows
}

// The entries of the missing columns.
fn reduced_row(row: Row, missing: &[u8]) -> Row
    requires { (length missing.now ≤ 32) × Numbered (length missing.now) 32 missing.now }
    ensures { ReducedRow (length missing.now) missing.now row result }
{
    let mut s = [0u8; MOST_PAGES];
    for (c, place) in missing.iter().enumerate() {
        s[c] = row[usize::from(*place) - 1];
    }
    s
}

// The same of each row of a parity page, of which there are as many as pages are missing.
fn reduced_rows(rows: Square, missing: &[u8]) -> Square
    requires { (length missing.now ≤ 32) × Numbered (length missing.now) 32 missing.now }
    ensures { ReducedRows (length missing.now) missing.now rows result }
{
    let mut square = [[0u8; MOST_PAGES]; MOST_PAGES];
    for (a, row) in rows[..missing.len()].iter().enumerate() {
        square[a] = reduced_row(*row, missing);
    }
    square
}

// Adds the known pages of the message, each times its entry of the row.
fn add_known(start: Content, row: Row, known: &[u8], message: &Message) -> Content
    requires { (length known.now ≤ 32) × Numbered (length known.now) 32 known.now }
    ensures { KnownAdded (length known.now) known.now row message.now start result }
{
    let mut s = start;
    for place in known {
        let j = usize::from(*place) - 1;
        let next = add_page(s, message, j, row[j]);
        s = next;
    }
    s
}

// The right side of each parity page: its content plus the known pages' part of its equation.
fn reduce_sides(
    contents: &[u8],
    message: &Message,
    rows: Square,
    parity: &[u8],
    known: &[u8],
    sides: &mut Message,
)
    requires { (length parity.now + length known.now ≤ 32) × (length contents.now ≡ (length parity.now + length known.now) * 53)
        × Numbered (length parity.now) (length parity.now + length known.now) parity.now × Numbered (length known.now) 32 known.now }
    ensures { ReducedSides (length known.now) (length parity.now) known.now parity.now rows contents.now message.now sides.new }
{
    let nothing = [0u8; CONTENT_OCTETS];
    for (a, place) in parity.iter().enumerate() {
        // 1·x is x
        let content = add_page(nothing, contents, usize::from(*place) - 1, 1);
        let row = rows[a];
        let side = add_known(content, row, known, message);
        lay_page(&side, 0, sides, a + 1);
    }
}

// Solves for the missing pages of a message in which the plain pages stand, and lays them; `parity` has the places of the parity pages among the numbers.
// A function of its own: its squares are cleared where it is entered, and a message of which no page is missing does not pay for that.
fn solve_gaps(contents: &[u8], numbers: &[u64], plain: &[u8], parity: &[u8], out: &mut Message)
    requires { (length numbers.now ≤ 32) × (length contents.now ≡ length numbers.now * 53)
        × (all_legal (length numbers.now) numbers.now ≡ true) × (different numbers.now ≡ true)
        × (length plain.now ≡ length numbers.now) × ArePlain numbers.now plain.now
        × AreNoughts plain.now (length plain.now) parity.now (length parity.now) }
    ensures { Completed numbers.now plain.now contents.now out.old out.new }
{
    let marks = mark_columns(plain);
    let columns = list_places(&marks[..plain.len()]);
    let missing = columns.noughts();
    let known = columns.others();
    let rows = parity_rows(numbers, parity);
    let square = reduced_rows(rows, missing);
    let mut sides = [0u8; MESSAGE_OCTETS];
    reduce_sides(contents, out, rows, parity, known, &mut sides);
    solve_square(square, &mut sides, parity.len());
    lay_pages(&sides, missing, out);
}

// The same, from the numbers of the plain pages alone; nothing where no page is missing.
fn solve_missing(contents: &[u8], numbers: &[u64], plain: &[u8], out: &mut Message)
    requires { (length numbers.now ≤ 32) × (length contents.now ≡ length numbers.now * 53)
        × (all_legal (length numbers.now) numbers.now ≡ true) × (different numbers.now ≡ true)
        × (length plain.now ≡ length numbers.now) × ArePlain numbers.now plain.now }
    ensures { Completed numbers.now plain.now contents.now out.old out.new }
{
    let pages = list_places(plain);
    let parity = pages.noughts();
    if parity.is_empty() {
        return;
    }
    solve_gaps(contents, numbers, plain, parity, out);
}

// Solves k different legal pages for the message that has them. That the buffer holds octets the caller knows, who has it as a slice: an array
// behind a `&mut` tells its length alone.
pub fn solve_pages(contents: &[u8], numbers: &[u64], out: &mut Message)
    requires { (length numbers.now ≤ 32) × (length contents.now ≡ length numbers.now * 53)
        × (all_legal (length numbers.now) numbers.now ≡ true) × (different numbers.now ≡ true) }
    ensures { Octets out.new → SolvedBuffer (Ok tt) contents.now numbers.now out.old out.new }
{
    let row = plain_numbers(numbers);
    let plain = &row[..numbers.len()];
    lay_pages(contents, plain, out);
    solve_missing(contents, numbers, plain, out);
}
