// One number of 64 bits for each answer: the refusal's number in its high half, the value in its low half.
ghost use Rattle.std.specs.Prelude.{◌≤◌, ◌<◌};
ghost use Rattle.has_c.specs.Codes.{Is, refused, page_code, read_code, value_code, fed_code};

use collector::Fed;
use mt1::RefusalAt;
use refusal::Refusal;

const HALF: u64 = 4294967296;

// The numbers of the C interface (include/has.h: HAS_KEPT and HAS_READY), in bits 24 to 31.
const KEPT: u64 = 16777216;

const READY: u64 = 33554432;

// The number with these halves.
fn coded(number: u64, value: u64) -> u64
    requires { (number ≤ 25) × (value < 4294967296) }
    ensures { Is (record { number = number; value = value }) result }
{
    HALF * number + value
}

// The code of a refusal, with a value.
fn refused(r: Refusal, value: u64) -> u64
    requires { value < 4294967296 }
    ensures { Is (refused r value) result }
{
    coded(refusal::number(r), value)
}

// The code of an answer that has no value of its own: the value is that of the call.
pub fn page_code(answer: Result<(), Refusal>, value: u64) -> u64
    requires { value < 4294967296 }
    ensures { Is (page_code value answer) result }
{
    value_code(answer.map(|()| value))
}

// The code of a refusal that has a bit place: the place is the value.
fn refused_at(r: RefusalAt) -> u64
    requires { r.place < 4294967296 }
    ensures { Is (refused r.why r.place) result }
{
    refused(r.why, r.place as u64)
}

// The code of what is read: how many records, or the bit place of the refusal.
pub fn read_code(answer: Result<u64, RefusalAt>) -> u64
    requires { (read_code answer).value < 4294967296 }
    ensures { Is (read_code answer) result }
{
    match answer {
        Ok(n) => coded(0, n),
        Err(r) => refused_at(r),
    }
}

// The code of a value: a size, a second, or how many octets of log.
pub fn value_code(answer: Result<u64, Refusal>) -> u64
    requires { (value_code answer).value < 4294967296 }
    ensures { Is (value_code answer) result }
{
    match answer {
        Ok(value) => coded(0, value),
        Err(r) => refused(r, 0),
    }
}

// The code of a feed: KEPT with the count, or READY with the size.
pub fn fed_code(answer: Result<Fed, Refusal>) -> u64
    requires { (fed_code answer).value < 4294967296 }
    ensures { Is (fed_code answer) result }
{
    match answer {
        Ok(Fed::Kept(n)) => coded(0, KEPT + n),
        Ok(Fed::Ready(k)) => coded(0, READY + k),
        Err(r) => refused(r, 0),
    }
}
