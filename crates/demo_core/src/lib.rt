//! The demonstration: a tree made from a number, and the vaults that it goes through.
#![tactic(auto)]

pub mod bytes;
pub mod fault;
pub mod items;
pub mod laws;
pub mod making;
pub mod steady;

pub use fault::MakeFault;
pub use items::{Totals, totals_of};
pub use making::{PASSPHRASE, make_first, make_vault, place, random_of};
pub use steady::SteadyFolder;
