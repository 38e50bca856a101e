//! AES (FIPS 197) on any number of blocks, and its counter streams (SP 800-38A).
//!
//! Nothing here takes memory or refuses an input.
#![tactic(auto)]

mod block;
mod cipher;
mod counter;
mod counter_planes;
mod direction;
mod gates;
mod key;
pub mod lanes;
pub mod laws;
mod plane_blocks;
mod plane_rounds;
mod planes;
mod rounds;
mod schedule;
mod shuffles;
mod tables;

pub use block::{Block, same_bytes, xor_into};
pub use cipher::Cipher;
pub use counter::{ctr32_xor, ctr32_xor_on, ctr128_xor};
pub use key::{Key128, Key256};
pub use tables::{inverse_sbox, sbox};
