//! CMAC (RFC 4493), and S2V and SIV (RFC 5297) with at most one associated string.
//!
//! Sealing and unsealing take memory, and nothing else does. Both yield to want of it.
#![tactic(auto)]

mod blocks;
pub mod laws;
mod mac;
mod siv;
mod strings;

pub use mac::Cmac;
pub use siv::{Siv, SivFault};
