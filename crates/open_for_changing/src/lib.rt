//! How a command begins that changes a vault: the work folder that is made ready, and the vault that is opened beside it; and the answers to
//! a work folder that isn't ready and to an item that isn't made.
#![tactic(auto)]

mod beginning;
mod faults;

pub use beginning::{Site, answer_to_work, begin, enter_settled, read_apart};
pub use faults::answer_to_put;
