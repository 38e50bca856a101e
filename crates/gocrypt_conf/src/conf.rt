//! The configuration of a gocryptfs vault, and what is drawn for a new one.

use kdf_suite::ScryptCost;
use vault_values::Bytes;

/// What `gocryptfs.conf` says.
#[derive(Drop)]
pub struct GoConf {
    /// The salt of scrypt, of any length.
    pub salt: Bytes,
    pub cost: ScryptCost,
    /// The sealed master key: a nonce of 16 bytes, the encrypted key of 32 and the tag of 16.
    pub sealed: [u8; 64],
}

/// What is drawn for a new configuration.
#[derive(Clone, Copy)]
pub struct GoDraw {
    pub master: [u8; 32],
    pub salt: [u8; 32],
    pub nonce: [u8; 16],
}
