//! The demonstration: `demo`, and the same in a folder that is handed in.
#![tactic(auto)]

mod demonstrating;
mod faults;
mod leading;
mod telling;

pub use demonstrating::{demo, demo_in};
