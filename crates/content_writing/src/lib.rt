//! Contents that are given piece by piece, and written as content files.
#![tactic(auto)]

pub mod content;
mod gathered;
mod gathering;
pub mod laws;
mod room;
pub mod source_content;
mod storing;
pub mod writing;

pub use content::Content;
pub use item_making::PutFault;
pub use source_content::SourceContent;
pub use writing::{Buffers, write_content};
