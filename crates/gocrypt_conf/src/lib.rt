//! The configuration of a gocryptfs vault (on-disk format 2), `gocryptfs.conf`, and the keys that it
//! guards.
#![tactic(auto)]

pub mod conf;
pub mod fault;
mod fields;
mod keys;
pub mod laws;
pub mod making;
mod master_key;
pub mod reading;
pub mod unlocking;

pub use conf::{GoConf, GoDraw};
pub use fault::{GoConfFault, UnlockFault};
pub use making::{make, reseal};
pub use reading::read;
pub use unlocking::unlock;
