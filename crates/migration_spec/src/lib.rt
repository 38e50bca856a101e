//! A migration of one vault into another: when it is guarded, that it stays so, and that it is safe while it is.
//!
//! The definitions stand in `specs/`, and the laws are the clauses of functions that do nothing.
#![tactic(auto)]

pub mod laws;
