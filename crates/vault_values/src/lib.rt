//! The values of vaults of either format: texts and bytes that contracts see as their bytes (`text`, `bytes`), keys (`keys`), and the ids
//! that are drawn (`id`).
#![tactic(auto)]

pub mod bytes;
pub mod id;
pub mod keys;
pub mod text;

pub use bytes::Bytes;
pub use id::id_text;
pub use keys::{CmKeys, GoKeys};
pub use text::Text;
