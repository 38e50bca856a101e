//! The steps that the commands share which lead a migration on: that the three folders don't overlap, both vaults opened, and both walked;
//! and one enum of why such a step refuses.
#![tactic(auto)]

pub mod fault;
pub mod sides;

pub use fault::{Side, StepFault};
pub use sides::{Plans, Sides, load_both, test_apart, walk_both, walk_one};
