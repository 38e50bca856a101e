//! The folder and the random bytes of the machine itself, over the runtime. What they do there is trusted: contracts say when
//! they fail and count it, which directories a settle still has to sync, and that nothing changes where a claim isn't had, but
//! nothing of contents.
#![tactic(auto)]

mod host_folder;
mod host_randoms;
mod sign_of_life;

pub use host_folder::HostFolder;
pub use host_randoms::HostRandoms;
pub use sign_of_life::{clear_line, is_late};
