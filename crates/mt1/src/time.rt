// The reference time (document 01, Records).
ghost use Rattle.std.specs.Prelude.{◌≡◌};
ghost use Rattle.mt1.specs.Time.{reference_time};

use refusal::Refusal;

const LAST_SECOND: u64 = 2477260799;

const LAST_TIME: u64 = 3599;

// The start of the reception hour plus the time of hour.
pub fn reference_time(second: u64, time: u64) -> Result<u64, Refusal>
    ensures { result ≡ reference_time second time }
{
    if second > LAST_SECOND {
        return Err(Refusal::Second);
    }
    if time > LAST_TIME {
        return Err(Refusal::Toh);
    }
    Ok(second / 3600 * 3600 + time)
}
