//! Removing a source that was moved: the one command that removes anything.
#![tactic(auto)]

mod clearing;
pub mod fault;
mod holding;
pub mod laws;
mod retiring;

pub use fault::RetireFault;
pub use retiring::{Retired, retire};
