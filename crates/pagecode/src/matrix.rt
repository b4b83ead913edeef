// The generator matrix of the code (ICD 6.2.3), row by row. Entry j of the row of page p, p over 32, is
//     v_j g_(p-32) (y + x_31) / (y + x_j),   y = α^(255-p),   x_j = α^(254-j),
// g being the generator's coefficients, the highest power first, and v the weights (Formula.raised_formula).
ghost use Rattle.std.specs.Prelude.{◌≡◌, ◌≤◌, ◌<◌};
ghost use Rattle.pagecode.specs.Matrix.{matrix_row, AreInverses};

mod generator;
mod weights;

use crate::field::powers::POWERS;
use crate::field::{inverse, power, product, sum};
use crate::sizes::{MOST_PAGES, Row};
use generator::GENERATOR;
use weights::WEIGHTS;

const FIRST_PARITY_PAGE: usize = 33;

const LAST_PAGE: usize = 255;

// The power of x that page 1 stands at.
const FIRST_POWER: usize = 254;

// α^223: page 32 stands at x^223.
const LAST_NODE: u8 = 9;

// The inverses of y + α^254, y + α^253, .. y + α^223.
fn invert_sums(y: u8) -> Row
    ensures { AreInverses y result }
{
    let mut row = [0u8; MOST_PAGES];
    for (j, x) in row.iter_mut().enumerate() {
        *x = inverse(sum(y, POWERS[FIRST_POWER - j]));
    }
    row
}

// The row of page p of the dense part, by the formula.
fn parity_row(p: usize) -> Row
    requires { (33 ≤ p) × (p ≤ 255) }
    ensures { result ≡ matrix_row p }
{
    let y = power((LAST_PAGE - p) as u64);
    let f = product(GENERATOR[p - FIRST_PARITY_PAGE], sum(y, LAST_NODE));
    let inverses = invert_sums(y);
    let mut row = [0u8; MOST_PAGES];
    for (j, x) in row.iter_mut().enumerate() {
        *x = product(product(inverses[j], WEIGHTS[j]), f);
    }
    row
}

// The row of page p: of the first 32 a unit row, of the others a row of the dense part.
pub fn matrix_row(p: usize) -> Row
    requires { (1 ≤ p) × (p ≤ 255) }
    ensures { result ≡ matrix_row p }
{
    if p > MOST_PAGES {
        return parity_row(p);
    }
    let mut row = [0u8; MOST_PAGES];
    row[p - 1] = 1;
    row
}
