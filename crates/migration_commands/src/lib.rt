//! The commands that move: `migrate`, `resume` and `retire`.
//!
//! Each is handed the folder, the random source, the input and the output, whichever of them it uses, and ensures one record of a call:
//! what it does, that its status is of its row, and whom it blames.
#![tactic(auto)]

pub mod laws;
mod migrating;
mod moving;
mod resuming;
mod retiring;

pub use migrating::migrate;
pub use resuming::resume;
pub use retiring::retire;
