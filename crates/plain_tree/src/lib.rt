//! The plain tree: names, paths, their order, rules that bring names to another form, and their shown form with its reading.
#![tactic(auto)]

pub mod laws;
pub mod name;
pub mod name_map;
mod order;
pub mod path;
mod reading;
pub mod shown;

pub use name::{Name, NameNewFault};
pub use name_map::NameMap;
pub use path::{PathFault, PlainPath};
pub use reading::MAX_PARTS;
pub use shown::shown_text;

/// What a path of the plain tree leads to.
#[derive(Clone, Copy, PartialEq, Eq)]
pub enum NodeKind {
    Dir,
    File,
}
