// Message type 1 (document 01, Message type 1 and Records): its definitions in specs/, the refusal that the reader answers, the validity intervals and the reference time.
#![tactic(auto)]

mod answer;
mod interval;
mod time;

pub use answer::{RefusalAt, refuse};
pub use interval::interval_seconds;
pub use time::reference_time;
