//! What the commands on a vault share: the passphrase's file and the opened vault, places of the folder that are tested, and the answers
//! to the faults of reading.
#![tactic(auto)]

mod faults;
mod opening;
mod places;

pub use faults::{answer_to_find, limit_of};
pub use opening::{answer_to_load, load, open, read_pass};
pub use places::{do_overlap, overlapping, test_free};
