// What the readers answer where they refuse.
ghost use Rattle.std.specs.Prelude.{◌≡◌};
ghost use Rattle.mt1.specs.Parse.{refuse as refuse_at};

use refusal::Refusal;

// A refusal and the bit place that it names.
#[derive(Clone, Copy, Debug, PartialEq, Eq)]
pub struct RefusalAt {
    pub why: Refusal,
    pub place: usize,
}

// The refusal of a reader at a bit place.
pub fn refuse(why: Refusal, place: usize) -> RefusalAt
    ensures { result ≡ refuse_at why place }
{
    RefusalAt { why, place }
}
