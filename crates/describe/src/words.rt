// The reader's refusals in words.
use refusal::Refusal;

// What a refusal of the reader means.
pub fn explain(why: Refusal) -> &'static str {
    match why {
        Refusal::Length => "the message is not 1 to 32 pages of 53 octets (LENGTH)",
        Refusal::Out => "the record buffer has a wrong length (OUT)",
        Refusal::Toh => "the time of hour is over 3599 s (TOH)",
        Refusal::Mask => "the message needs a mask that is not there (MASK)",
        Refusal::Short => "the message ends before a field does (SHORT)",
        Refusal::Count => "a number of systems is out of range (COUNT)",
        Refusal::System => "a GNSS ID is reserved, or not in the mask (SYSTEM)",
        Refusal::Twice => "a GNSS ID comes twice (TWICE)",
        Refusal::NavMsg => "the navigation message is reserved (NAVMSG)",
        Refusal::Validity => "a validity interval is reserved (VALIDITY)",
        _ => "a refusal that the reader does not give",
    }
}
