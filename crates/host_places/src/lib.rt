//! What a folder of the machine is made of: where its paths stand and what stands there, what a run claims, which directories a settle has to
//! sync, what is kept from one call to the next, and why a call fails. What the machine does is trusted.
#![tactic(auto)]

mod causes;
mod claims;
mod handles;
mod kinds;
mod listed;
mod listing;
mod mounts;
mod noted;
mod pieces;
mod places;
mod plain;
mod watched;

pub use causes::{Cause, Trouble, fault_of, unsynced};
pub use claims::{Claims, Hold, Wanted};
pub use handles::{Handles, Made, Opened, Pair};
pub use kinds::Kinds;
pub use listing::entries_of;
pub use mounts::mounted_of;
pub use noted::Noted;
pub use pieces::{fill, fill_from, put, sync_again};
pub use places::{Node, Place, look, metadata_at, reach, test_names, text_of};
pub use watched::{Watched, stamp_at};
