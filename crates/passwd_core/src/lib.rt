//! Changing a vault's passphrase, in vaults of both formats.
//!
//! The keys of a vault stand in one file at its root, encrypted under the passphrase. That file alone is replaced, at once.
#![tactic(auto)]

pub mod changing;
pub mod drawing;
pub mod fault;
mod reading;
mod rewriting;

pub use changing::change_pass;
pub use fault::PassFault;
