// The refusals of document 01 ("Refusal numbers"): one enum, and the number and the name of each case.
#![tactic(auto)]

ghost use Rattle.std.specs.Prelude.{◌≡◌, ◌≤◌, Some, length};
ghost use Rattle.refusal.specs.Name.{letters_of, name_of};
ghost use Rattle.refusal.specs.Number.{number_of};

use std::fmt;

// Each case with the number that the table gives it. TYPE is named Kind: `Type` is a word of the language of the contracts.
#[derive(Clone, Copy, Debug, PartialEq, Eq, Hash)]
pub enum Refusal {
    Length = 1,
    Out = 2,
    Second = 3,
    Clock = 4,
    Dummy = 5,
    Stop = 6,
    Status = 7,
    Kind = 8,
    PageNumber = 9,
    Done = 10,
    Repeat = 11,
    Conflict = 12,
    Full = 13,
    Timeout = 14,
    Id = 15,
    Toh = 16,
    Mask = 17,
    Short = 18,
    Count = 19,
    System = 20,
    Twice = 21,
    NavMsg = 22,
    Validity = 23,
    Form = 24,
    Long = 25,
}

// The number that the table gives a refusal.
pub fn number(r: Refusal) -> u64
    ensures { result ≡ number_of r }
{
    r as u64
}

// The name that the table gives a refusal, its letters alone.
pub fn letters(r: Refusal) -> &'static str
    ensures spelt { result.now ≡ letters_of r }
    ensures upper_bound { length result.now ≤ 10 }
{
    match r {
        Refusal::Length => "LENGTH",
        Refusal::Out => "OUT",
        Refusal::Second => "SECOND",
        Refusal::Clock => "CLOCK",
        Refusal::Dummy => "DUMMY",
        Refusal::Stop => "STOP",
        Refusal::Status => "STATUS",
        Refusal::Kind => "TYPE",
        Refusal::PageNumber => "PAGENUMBER",
        Refusal::Done => "DONE",
        Refusal::Repeat => "REPEAT",
        Refusal::Conflict => "CONFLICT",
        Refusal::Full => "FULL",
        Refusal::Timeout => "TIMEOUT",
        Refusal::Id => "ID",
        Refusal::Toh => "TOH",
        Refusal::Mask => "MASK",
        Refusal::Short => "SHORT",
        Refusal::Count => "COUNT",
        Refusal::System => "SYSTEM",
        Refusal::Twice => "TWICE",
        Refusal::NavMsg => "NAVMSG",
        Refusal::Validity => "VALIDITY",
        Refusal::Form => "FORM",
        Refusal::Long => "LONG",
    }
}

// The same with spaces behind it: ten octets, since callers were promised an array of this length (docs/REFUSALS.md).
pub fn name(r: Refusal) -> [u8; 10]
    ensures { result ≡ name_of r }
{
    let mut name = [b' '; 10];
    let text = letters(r).as_bytes();
    name[..text.len()].copy_from_slice(text);
    name
}

// A refusal prints as its name.
impl fmt::Display for Refusal {
    ghost output = { λ r. Some (letters_of r) };

    fn fmt<W: fmt::Write>(&self, f: &mut fmt::Formatter<W>) -> fmt::Result {
        f.write_str(letters(*self))
    }
}
