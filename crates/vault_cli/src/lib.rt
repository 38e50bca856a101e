//! The command line: what the words ask for is done by the crates of the commands, and its answer becomes the status and the message that
//! the program ends with.
#![tactic(auto)]

mod running;

pub use demonstration::demo_in;
pub use running::run;
