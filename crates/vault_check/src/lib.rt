//! Checks of vaults of both formats, structure and contents, and the moving of strays out of them.
#![tactic(auto)]

pub mod checking;
mod contents;
pub mod fault;
pub mod laws;
mod order;
pub mod repairing;
mod strays;

pub use checking::{Report, check};
pub use fault::CheckFault;
pub use repairing::{move_strays, repair, strays_of};
