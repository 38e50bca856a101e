//! Moving a whole tree from one vault into another, so that a stop at any moment costs nothing.
#![tactic(auto)]

mod beginning;
pub mod fault;
mod finishing;
pub mod laws;
mod names;
mod placing;
mod resuming;

pub use beginning::begin;
pub use fault::MoveFault;
pub use placing::Done;
pub use resuming::resume;
