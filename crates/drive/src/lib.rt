// A recorded drive: its entries are fed to a fresh collector, and each answer is logged.
#![tactic(auto)]

mod logging;
mod replaying;

pub use replaying::replay;
