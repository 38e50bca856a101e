//! How commands end: answers, their statuses and messages, and which answers each command may give.
#![tactic(auto)]

mod answer;
pub mod laws;
mod printing;
mod reporting;
mod texts;

pub use answer::{Answer, Damage, Difference, Flaw, Limit, Named, Refusal};
pub use printing::print;
pub use reporting::report;
pub use texts::{finding_name, shown_folder};
