// The field of 256 elements (ICD 6.1).
ghost use Rattle.std.specs.Prelude.{◌≡◌, ◌*◌, ◌%◌};
ghost use Rattle.pagecode.specs.Field.{◌⊕◌, ◌⊗◌, double, power, Logarithm, Inverse};

pub(crate) mod inverses;
mod logarithms;
pub(crate) mod powers;

use inverses::INVERSES;
use logarithms::LOGARITHMS;
use powers::POWERS;

// The sum of two octets, which is their difference too.
pub fn sum(a: u8, b: u8) -> u8
    ensures { result ≡ a ⊕ b }
{
    a ^ b
}

// α·x.
#[tactic(auto, unfolding(crate::specs::Field::double))]
pub(crate) fn doubled(x: u8) -> u8
    ensures { result ≡ double x }
{
    ((x / 128) * 29) ^ ((x % 128) * 2)
}

// The product of two octets: the bits of a choose among b and its doublings. A loop over a, with b fixed, has no branch and no look-up.
pub fn product(a: u8, b: u8) -> u8
    ensures { result ≡ a ⊗ b }
{
    let mut total = 0u8;
    let mut turn = b;
    for bit in 0..8u32 {
        total ^= (a >> bit) % 2 * turn;
        turn = doubled(turn);
    }
    total
}

// α^n: the powers come round after 255.
pub fn power(n: u64) -> u8
    ensures { result ≡ power n }
{
    POWERS[(n % 255) as usize]
}

// The logarithm of an octet; 0 of 0, which has none. No `Option`, here and at `inverse`: document 01 has 0 answered, and the clauses of these public functions say it.
pub fn logarithm(a: u8) -> u8
    ensures { Logarithm a result }
{
    LOGARITHMS[usize::from(a)]
}

// The inverse of an octet; 0 of 0, which has none.
pub fn inverse(a: u8) -> u8
    ensures { Inverse a result }
{
    INVERSES[usize::from(a)]
}
