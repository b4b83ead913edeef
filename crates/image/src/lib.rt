// A collector as octets, which can be kept over a reset: its head, and its store, which is used where it stands.
#![tactic(auto)]

mod calls;
mod head;
mod octets;
mod place;

pub use calls::{feed, start};
