//! The commands that check a vault: `fsck`, and `repair`, which moves strays out of it.
//!
//! Each is handed the folder, the random source, the input and the output, whichever of them it uses, and ensures one record of a call:
//! what it does, that its status is of its row, and whom it blames.
#![tactic(auto)]

mod checking;
mod faults;
mod repairing;

pub use checking::fsck;
pub use repairing::repair;
