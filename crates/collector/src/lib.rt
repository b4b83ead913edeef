// The collector (document 01, The collector): pages are held until a message is solved.
#![tactic(auto)]

mod checking;
mod clock;
mod feeding;
mod finding;
mod header;
mod keeping;
mod starting;
mod state;
mod store;

pub use checking::is_made;
pub use clock::free_places;
pub use feeding::{feed, feed_in_place};
pub use starting::{TIMEOUT, is_startable, start};
pub use state::{Collector, Fed, Head, Key, Place, PlaceState, Started};
pub use store::clear_store;
