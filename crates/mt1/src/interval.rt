// The validity intervals (ICD Table 23).
ghost use Rattle.std.specs.Prelude.{◌≡◌};
ghost use Rattle.mt1.specs.Interval.{interval_seconds};

use refusal::Refusal;

// A table that is indexed behind a check, and no `get`: document 01 names this form.
const INTERVALS: [u64; 15] = [
    5, 10, 15, 20, 30, 60, 90, 120, 180, 240, 300, 600, 900, 1800, 3600,
];

// The seconds of an interval's index; VALIDITY for 15, which is reserved, and above.
pub fn interval_seconds(index: u64) -> Result<u64, Refusal>
    ensures { result ≡ interval_seconds index }
{
    if index >= 15 {
        return Err(Refusal::Validity);
    }
    Ok(INTERVALS[index as usize])
}
