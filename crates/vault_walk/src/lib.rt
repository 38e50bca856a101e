//! Walks through vaults of both formats: their items, and what is found in them.
//!
//! A walk goes through each folder once, by the least number of steps from the root.
#![tactic(auto)]

mod apart;
mod entries;
pub mod fault;
mod found;
mod inside;
mod key;
pub mod laws;
mod levels;
mod names;
mod order;
pub mod plan;
mod report;
pub mod surveying;
mod twice;

pub use fault::{Finding, WalkFault};
pub use plan::{Plan, PlanItem, PlanItems, plan_digest};
pub use surveying::{Surveyed, survey, walk};
