//! What it is to make one item in a vault, and why one isn't made (`fault`).
#![tactic(auto)]

pub mod fault;

pub use fault::PutFault;
