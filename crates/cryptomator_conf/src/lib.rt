//! The two configuration files of a Cryptomator vault (format 8), `masterkey.cryptomator` and
//! `vault.cryptomator`, and the keys that they guard.
#![tactic(auto)]

pub mod conf;
pub mod fault;
mod jwt;
mod keys;
pub mod laws;
pub mod making;
pub mod master;
pub mod signing;
pub mod unlocking;
pub mod vault;

pub use conf::{Alg, CmDraw, CmFiles, Combo, MasterFile, VaultFile};
pub use fault::{BadSignature, CmConfFault, UnlockFault};
pub use making::{make, make_combo, rewrap};
pub use master::read_master;
pub use signing::check_signature;
pub use unlocking::unlock;
pub use vault::read_vault;
