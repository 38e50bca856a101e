//! The keys of vaults.

/// The two keys of a gocryptfs vault: of AES-256-GCM for contents, and of EME over AES-256 for names.
#[derive(Clone, Copy)]
pub struct GoKeys {
    pub content: [u8; 32],
    pub names: [u8; 32],
}

/// The two keys of a Cryptomator vault: to encrypt with, and to make tags with.
#[derive(Clone, Copy)]
pub struct CmKeys {
    pub enc: [u8; 32],
    pub mac: [u8; 32],
}
