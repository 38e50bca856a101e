//! What programs of rows share: the words of a line, bytes as rows write and show them, what is said, and which rows are right.
#![tactic(auto)]

mod bytes;
mod said;
mod showing;
mod tally;
mod words;

pub use bytes::bytes_of;
pub use said::Said;
pub use showing::{push_shown, push_text, sum_of};
pub use tally::{Tally, must_be_wrong};
pub use words::{cut, number};
