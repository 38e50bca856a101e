//! The commands that write: `init`, `mkdir`, `put` and `passwd`.
//!
//! Each is handed the folder, the random source, the input and the output, whichever of them it uses, and ensures one record of a call:
//! what it does, that its status is of its row, and whom it blames.
#![tactic(auto)]

mod directory;
mod faults;
mod founding;
mod rekeying;
mod storing;

pub use directory::mkdir;
pub use founding::init;
pub use rekeying::passwd;
pub use storing::put;
