//! The stage on which rows are played: a folder in memory, the lines that change it, look at it and say what the next run is given, and
//! how a file of rows is read and judged. What a line does that the stage doesn't know is its player's.
#![tactic(auto)]

mod block;
mod book;
mod comparing;
mod course;
pub mod handed;
mod looking;
mod names;
mod player;
mod playing;
mod reading;
mod setting;
pub mod stage;
mod stand;
mod stop;

pub use book::Book;
pub use handed::Handed;
pub use names::Names;
pub use player::Player;
pub use stage::Stage;
pub use stand::Stand;
pub use stop::Stop;
