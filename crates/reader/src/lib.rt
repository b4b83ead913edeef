// The reader of message type 1 (document 01, Message type 1): a message of 53k octets to its records.
#![tactic(auto)]

mod block;
mod emit;
mod field;
mod mask;
mod plan;
mod reading;
mod record;
mod subset;

pub use plan::lacks_mask;
pub use reading::{MOST_OCTETS, RECORDS_OCTETS, read, read_octets};
