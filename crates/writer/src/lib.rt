// The writer of message type 1 (document 01, Records): records to a message in the fewest pages.
#![tactic(auto)]

mod append;
mod block;
mod header;
mod part;
mod render;
mod row;
mod system;
mod writing;

pub use writing::{MESSAGE_OCTETS, write};
