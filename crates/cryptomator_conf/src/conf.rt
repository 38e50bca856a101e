//! What the two configuration files say, and what is drawn for new ones.

ghost use Rattle.std.specs.Prelude.{◌≡◌};
ghost use Rattle.cryptomator_conf.specs.Combo.{combo_name};

use kdf_suite::ScryptCost;
use vault_values::Bytes;

/// What `masterkey.cryptomator` says.
#[derive(Drop)]
pub struct MasterFile {
    /// The salt of scrypt, of any length.
    pub salt: Bytes,
    /// scrypt's cost, with one part.
    pub cost: ScryptCost,
    /// The encryption key, wrapped.
    pub primary: [u8; 40],
    /// The MAC key, wrapped.
    pub hmac: [u8; 40],
}

/// The hash of the signature of `vault.cryptomator`.
#[derive(Clone, Copy, PartialEq, Eq)]
pub enum Alg {
    Hs256,
    Hs384,
    Hs512,
}

/// The ciphers of a vault.
#[derive(Clone, Copy, PartialEq, Eq)]
pub enum Combo {
    /// Names by AES-SIV, contents by AES-GCM.
    SivGcm,
    /// Names by AES-SIV, contents by AES in counter mode with tags by HMAC-SHA-256.
    SivCtrMac,
}

impl Combo {
    /// Its name in `vault.cryptomator`.
    pub fn name(&self) -> &'static str
        ensures { result.now ≡ combo_name self.now }
    {
        match self {
            Combo::SivGcm => "SIV_GCM",
            Combo::SivCtrMac => "SIV_CTRMAC",
        }
    }
}

/// What `vault.cryptomator` says.
#[derive(PartialEq, Eq, Drop)]
pub struct VaultFile {
    pub alg: Alg,
    pub combo: Combo,
    /// The greatest length of an encrypted name, in characters.
    pub threshold: u32,
    /// The bytes that were signed.
    pub signed: Bytes,
    pub signature: Bytes,
}

/// What is drawn for new files.
#[derive(Clone, Copy)]
pub struct CmDraw {
    pub enc: [u8; 32],
    pub mac: [u8; 32],
    pub salt: [u8; 8],
    /// Of these the id of the vault's token is made.
    pub jti: [u8; 16],
}

/// New files: `masterkey.cryptomator` and `vault.cryptomator`.
#[derive(Drop)]
pub struct CmFiles {
    pub master: Bytes,
    pub vault: Bytes,
}
