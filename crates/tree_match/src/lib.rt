//! Whether one vault of a migration holds all that the other does, by their plans; and plans whose names come to another form on the way.
#![tactic(auto)]

pub mod answer;
mod comparing;
pub mod laws;
pub mod mapping;
pub mod matching;

pub use answer::{How, MapFault, Match, MatchFault, Where, where_of};
pub use mapping::map_plan;
pub use matching::holds_all;
