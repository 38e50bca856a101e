//! Key functions over SHA-2, each by its RFC: HMAC (2104), HKDF (5869), PBKDF2 (8018) and scrypt
//! (7914).
#![tactic(auto)]

mod blocks;
mod hkdf;
mod hmac;
pub mod laws;
mod pbkdf2;
mod ro_mix;
mod salsa;
mod scrypt_cost;
mod scrypt_kdf;

pub use hkdf::hkdf256;
pub use hmac::{HmacPieces, hmac256, hmac384, hmac512};
pub use pbkdf2::pbkdf2_256;
pub use scrypt_cost::{BadCost, ScryptCost};
pub use scrypt_kdf::scrypt;
