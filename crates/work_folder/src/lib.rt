//! The folder in which this tool stages what it writes.
//!
//! It may hold the files `journal` and `journal.new` and the directories `stage` and `old`. Any other
//! entry is foreign, and nothing is staged beside one. `set_file` puts a file in its place from here.
#![tactic(auto)]

mod changing;
pub mod fault;
mod looking;
pub mod setting;
pub mod work;

pub use fault::WorkFault;
pub use setting::set_file;
pub use work::Work;
