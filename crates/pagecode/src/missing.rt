// Which plain pages, numbers 1 to k, are received, and which are missing.
ghost use Rattle.std.specs.Prelude.{◌+◌, ◌-◌, ◌≤◌, cond, ◌≡◌, eqb, length, set, take};
ghost use Rattle.pagecode.specs.Reduction.{plain_number, ArePlain, Spread, nought, Marked, AreNoughts, AreOthers};

use crate::sizes::{MOST_PAGES, Row};

// The last number that a plain page can have.
const LAST_PLAIN: u64 = 32;

// Places of a list, counted from 1: those of the noughts, and those of the others. Rows, and how many entries of each count, since the library
// keeps no heap; they are read as slices.
#[derive(Clone, Copy)]
pub struct Places {
    noughts: Row,
    count: usize,
    others: Row,
    rest: usize,
}

impl Places {
    // The places of the noughts.
    pub fn noughts(&self) -> &[u8]
        requires { self.now.count ≤ 32 }
        ensures { (result.now ≡ take self.now.count self.now.noughts) × (length result.now ≡ self.now.count) }
    {
        &self.noughts[..self.count]
    }

    // The places of the others.
    pub fn others(&self) -> &[u8]
        requires { self.now.rest ≤ 32 }
        ensures { (result.now ≡ take self.now.rest self.now.others) × (length result.now ≡ self.now.rest) }
    {
        &self.others[..self.rest]
    }
}

// p where it is the number of a plain page, else 0. No `Option`: the numbers stand in a row of octets, whose noughts are then looked for.
fn plain_number(p: u64) -> u8
    ensures { result ≡ plain_number p }
{
    if p <= LAST_PLAIN { p as u8 } else { 0 }
}

// The same of every number.
pub fn plain_numbers(numbers: &[u64]) -> Row
    requires { length numbers.now ≤ 32 }
    ensures { ArePlain numbers.now result }
{
    let mut plain = [0u8; MOST_PAGES];
    for (i, p) in numbers.iter().enumerate() {
        plain[i] = plain_number(*p);
    }
    plain
}

// Marks the column of page p; none where p is 0.
fn mark_column(marks: Row, p: u8) -> Row
    requires { p ≤ 32 }
    ensures { result ≡ cond (eqb p 0) marks (set marks (p - 1) 1) }
{
    let mut m = marks;
    if p == 0 {
        return m;
    }
    m[usize::from(p) - 1] = 1;
    m
}

// Marks the columns of the plain pages.
pub fn mark_columns(plain: &[u8]) -> Row
    requires { (length plain.now ≤ 32) × Spread (length plain.now) (length plain.now) plain.now }
    ensures { Marked (length plain.now) plain.now result }
{
    let mut marks = [0u8; MOST_PAGES];
    for p in plain {
        let next = mark_column(marks, *p);
        marks = next;
    }
    marks
}

// 1 of 0, else 0.
#[tactic(auto, unfolding(crate::specs::Reduction::nought))]
fn nought(x: u8) -> usize
    ensures { result ≡ nought x }
{
    usize::from(x == 0)
}

// The places of a list's noughts, and those of the others. Each place is written in both lists, and stays where the next is written behind it.
pub fn list_places(list: &[u8]) -> Places
    requires { length list.now ≤ 32 }
    ensures { AreNoughts list.now (length list.now) result.noughts result.count × AreOthers list.now (length list.now) result.others
        × (result.count + result.rest ≡ length list.now) }
{
    let mut noughts = [0u8; MOST_PAGES];
    let mut others = [0u8; MOST_PAGES];
    let mut count: usize = 0;
    for (j, x) in list.iter().enumerate() {
        noughts[count] = (j + 1) as u8;
        others[j - count] = (j + 1) as u8;
        count += nought(*x);
    }
    Places {
        noughts,
        count,
        others,
        rest: list.len() - count,
    }
}
