//! Who plays the lines that a stage doesn't know.
use crate::stage::Stage;

pub trait Player {
    /// Plays a line of this verb.
    fn play(stage: &mut Stage, verb: &str, words: &str);
}
