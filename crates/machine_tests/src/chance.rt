//! Numbers that are drawn by a seed.

use folder_model::FPath;
use std::alloc::{AllocError, Global};

const FACTOR: u64 = 6_364_136_223_846_793_005;

const STEP: u64 = 1_442_695_040_888_963_407;

/// The directories that are claimed.
pub const ROOTS: [&str; 2] = ["v", "w"];

/// The name of the links.
pub const LINK: &str = "l";

/// The names below them.
pub const NAMES: [&str; 5] = ["a", "b", "c", "a", LINK];

/// Numbers that follow one another by a seed.
#[derive(Drop)]
pub struct Chance {
    state: u64,
}

impl Chance {
    pub fn new(seed: u64) -> Chance {
        Chance { state: seed }
    }

    /// A number below this one, or 0.
    pub fn below(&mut self, bound: u64) -> u64 {
        self.state = self.state.wrapping_mul(FACTOR).wrapping_add(STEP);
        let number = self.state >> 33;
        if bound == 0 { 0 } else { number % bound }
    }

    /// A path of two to four parts.
    pub fn path(&mut self, alloc: Global) -> Result<FPath, AllocError> {
        let mut path = FPath::base(alloc).child(self.one_of(&ROOTS))?;
        for _ in 0..=self.below(3) {
            path = path.child(self.one_of(&NAMES))?;
        }
        Ok(path)
    }

    fn one_of(&mut self, names: &[&'static str]) -> &'static str {
        let number = self.below(names.len() as u64) as usize;
        names.get(number).copied().unwrap_or("a")
    }
}
