// Elimination on a square of up to 32 rows of 32 octets, with 53 right sides to a row (ICD 6.4).
ghost use Rattle.std.specs.Prelude.{cond, [], ◌++◌, ◌≡◌, ◌+◌, ◌*◌, ◌/◌, ◌%◌, ◌≤◌, ◌<◌, eqb, drop, get_or, length, replicate, take};
ghost use Rattle.pagecode.specs.Field.{Octets};
ghost use Rattle.pagecode.specs.Code.{plus, scale};
ghost use Rattle.pagecode.specs.System.{cell, Multiples, Looked, Units, Cleared, Pivoted, Pivot, Swept, Regular, Equations};

use crate::field::{doubled, inverse, product};
use crate::sizes::{CONTENT_OCTETS, MOST_PAGES, Message, Row, Square};

const LINE_OCTETS: usize = 96;

const MULTIPLES: usize = 16;

// A row of the square, its right sides behind it, and 11 octets of 0, so that a loop over it is six turns of 16 octets with no rest.
type Line = [u8; LINE_OCTETS];

// The multiples of a line by 0 to 15.
type Table = [Line; MULTIPLES];

// The multiples of a line: by 0 to 15, and by 16 times these. The steps are lent them, so that they are not cleared at each.
#[derive(Drop)]
struct Tables {
    low: Table,
    high: Table,
}

// Adds octets to as many others. By `enumerate` and not by `zip`, which is no plainer: what is left of two iterators would stand for the place.
fn add(to: &mut [u8], more: &[u8])
    requires { length to.old ≡ length more.now }
    ensures { to.new ≡ plus to.old more.now }
{
    for (i, x) in to.iter_mut().enumerate() {
        *x ^= more[i];
    }
}

// The sum of two lines.
fn sum_lines(a: Line, b: Line) -> Line
    ensures { result ≡ plus a b }
{
    let mut s = a;
    add(&mut s, &b);
    s
}

// Twice a line. By `scale_line`, with 2 for f, solving took an eighth longer; an array's `map` in place of the loop took 30 times as long.
fn double_line(a: Line) -> Line
    ensures { result ≡ scale 2 a }
{
    let mut s = a;
    for x in s.iter_mut() {
        *x = doubled(*x);
    }
    s
}

// f times a line. It is nearly always 0 times where a row with an entry is looked for, and then there is no product to work out.
fn scale_line(a: Line, f: u8) -> Line
    ensures { result ≡ scale f a }
{
    if f == 0 {
        return [0u8; LINE_OCTETS];
    }
    let mut s = a;
    for x in s.iter_mut() {
        *x = product(*x, f);
    }
    s
}

// The multiples of a line by 0 to 15: an even one is twice that by the half, an odd one is the one before it and the line.
fn fill_table(table: &mut Table, a: Line)
    ensures { Multiples a table.new }
{
    table[0] = [0u8; LINE_OCTETS];
    table[1] = a;
    for v in 1..MULTIPLES / 2 {
        let half = table[v];
        let even = double_line(half);
        table[2 * v] = even;
        table[2 * v + 1] = sum_lines(even, a);
    }
}

impl Tables {
    // Those of another line. 16 times it is twice 8 times it.
    fn fill(&mut self, a: Line)
        ensures { Looked a self.new.low self.new.high }
    {
        fill_table(&mut self.low, a);
        let eighth = self.low[8];
        fill_table(&mut self.high, double_line(eighth));
    }

    // f times the line: by the low four bits of f, and by the high four.
    fn look_up(&self, f: u8) -> Line
        ensures { result ≡ plus (get_or self.now.low (f % 16) []) (get_or self.now.high (f / 16) []) }
    {
        let a = self.low[usize::from(f % 16)];
        let b = self.high[usize::from(f / 16)];
        sum_lines(a, b)
    }
}

// A row, row r of the right sides behind it, and 0.
fn line_of(row: Row, sides: &Message, r: usize) -> Line
    requires { r < 32 }
    ensures { result ≡ row ++ (take 53 (drop (r * 53) sides.now) ++ replicate 11 0) }
{
    let at = r * CONTENT_OCTETS;
    let mut s = [0u8; LINE_OCTETS];
    s[..MOST_PAGES].copy_from_slice(&row);
    s[MOST_PAGES..MOST_PAGES + CONTENT_OCTETS].copy_from_slice(&sides[at..at + CONTENT_OCTETS]);
    s
}

// A row plus that of a line.
fn add_row(row: Row, a: Line) -> Row
    ensures { result ≡ plus row (take 32 a) }
{
    let mut s = row;
    add(&mut s, &a[..MOST_PAGES]);
    s
}

// Row r of the right sides plus those of a line.
fn add_side(sides: &mut Message, r: usize, a: Line)
    requires { r < 32 }
    ensures { sides.new ≡ take (r * 53) sides.old ++ plus (take 53 (drop 32 a)) (drop (r * 53) sides.old) }
{
    let at = r * CONTENT_OCTETS;
    add(
        &mut sides[at..at + CONTENT_OCTETS],
        &a[MOST_PAGES..MOST_PAGES + CONTENT_OCTETS],
    );
}

// The first row from q on that has an entry in column q. There is one: q at the end stands for none.
fn find_pivot(square: Square, q: usize, k: usize) -> usize
    requires { (q < k) × (k ≤ 32) × Pivoted k q (cell square []) }
    ensures { Pivot k q result (cell square []) }
{
    for r in q..k {
        if square[r][q] != 0 {
            return r;
        }
    }
    q
}

// 0 at row q itself, else f.
fn factor(r: usize, q: usize, f: u8) -> u8
    ensures { result ≡ cond (eqb r q) 0 f }
{
    if r == q { 0 } else { f }
}

// Takes row q, times its entry in column q, from every other row. Its multiples are made once.
fn sweep(square: Square, sides: &mut Message, tables: &mut Tables, q: usize, k: usize) -> Square
    requires { (q < k) × (k ≤ 32) }
    ensures { Swept k q (cell square sides.old) (cell result sides.new) × (drop (k * 53) sides.new ≡ drop (k * 53) sides.old) × Octets sides.new }
{
    let mut n = square;
    let pivot = n[q];
    tables.fill(line_of(pivot, sides, q));
    for r in 0..k {
        let f = factor(r, q, n[r][q]);
        let taken = tables.look_up(f);
        let row = n[r];
        n[r] = add_row(row, taken);
        add_side(sides, r, taken);
    }
    n
}

// One step of the elimination: column q becomes a unit column. Row q takes a row with an entry there, if it has none itself, and is divided by
// its entry, which is to add f + 1 times itself; then it is taken from the others. The square goes into a step and comes
// out of it by value, as document 01 names it, and so is no struct's field beside the right sides, which are lent.
fn eliminate(square: Square, sides: &mut Message, tables: &mut Tables, q: usize, k: usize) -> Square
    requires { (q < k) × (k ≤ 32) × Units k q (cell square sides.old) × Pivoted k q (cell square sides.old) }
    ensures { Cleared k 85 (q + 1) (cell square sides.old) (cell result sides.new) × (drop (k * 53) sides.new ≡ drop (k * 53) sides.old) }
{
    let mut n = square;
    let p = find_pivot(n, q, k);
    let e = factor(p, q, 1);
    let other = n[p];
    let taken = scale_line(line_of(other, sides, p), e);
    let old = n[q];
    let row = add_row(old, taken);
    add_side(sides, q, taken);
    let f = inverse(row[q]) ^ 1;
    let more = scale_line(line_of(row, sides, q), f);
    n[q] = add_row(row, more);
    add_side(sides, q, more);
    sweep(n, sides, tables, q, k)
}

// The right sides become the solution: Gauss-Jordan elimination, a column at a step.
pub fn solve_square(square: Square, sides: &mut Message, k: usize)
    requires { (k ≤ 32) × Regular k square }
    ensures { Equations k square sides.new sides.old × (drop (k * 53) sides.new ≡ drop (k * 53) sides.old) }
{
    let mut n = square;
    let mut tables = Tables {
        low: [[0u8; LINE_OCTETS]; MULTIPLES],
        high: [[0u8; LINE_OCTETS]; MULTIPLES],
    };
    for q in 0..k {
        let next = eliminate(n, sides, &mut tables, q, k);
        n = next;
    }
}
