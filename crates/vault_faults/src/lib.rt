//! Why calls refuse that look for a path of a vault or read a content of it.
#![tactic(auto)]

pub mod fault;

/// The most bytes of a content, of a content file, and of an input: 2^40.
pub const CONTENT_LIMIT: u64 = 1_099_511_627_776;

pub use fault::{CatFault, FindFault, Limit};
