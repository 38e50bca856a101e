//! The answers to what stops a migration, or keeps its source from being removed.
#![tactic(auto)]

mod faults;
mod journals;
mod moving;
mod retiring;

pub use moving::answer_to_move;
pub use retiring::answer_to_retire;
