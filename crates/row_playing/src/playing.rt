//! How rows and sweeps are judged.
use crate::block::{Block, BlockKind, for_words, placed};
use crate::course::Course;
use crate::player::Player;
use crate::reading::least_of;
use row_words::cut;
use std::alloc::{AllocError, Global};

// The most calls that fail in turn, and the most plays of a row.
const MOST_TURNS: u64 = 5_000;

const MOST_PLAYS: usize = 1_000;

// How many values a line `for` has.
fn count(values: &str) -> usize {
    let mut count = 0usize;
    for _ in values.split(" | ") {
        count = count.saturating_add(1);
    }
    count
}

// The value of a line `for` at a place.
fn value_at(values: &str, place: usize) -> &str {
    values.split(" | ").nth(place).unwrap_or("")
}

// How many plays there are.
fn plays(lines: &str) -> usize {
    let mut plays = 1usize;
    for line in lines.lines() {
        let (_, text) = placed(line);
        if let Some(words) = for_words(text) {
            let (_, values) = cut(words);
            plays = plays.saturating_mul(count(values));
        }
    }
    plays
}

// Adds the values that names have in a play, a line `NAME VALUE` each.
fn push_values(chosen: &mut String, lines: &str, play: usize) -> Result<(), AllocError> {
    let mut left = play;
    for line in lines.lines() {
        let (_, text) = placed(line);
        if let Some(words) = for_words(text) {
            let (name, values) = cut(words);
            let count = count(values).max(1);
            let value = value_at(values, left % count);
            writeln!(chosen, "{name} {value}")?;
            left /= count;
        }
    }
    Ok(())
}

// The groups that a sweep has come to so far, and what its last play came to.
#[derive(Drop)]
struct Found {
    text: String,
    last: String,
}

impl Found {
    // Adds what a play came to. Neighbouring calls that come to the same are a group.
    fn add(&mut self, kept: &str) -> Result<(), AllocError> {
        if !self.text.is_empty() && self.last.as_str() == kept {
            return Ok(());
        }
        self.last.clear();
        self.last.push_str(kept)?;
        write!(self.text, "group\n{kept}")
    }

    // Notes what is wrong with a sweep whose last play this is, where so many calls failed before.
    fn end(
        &mut self,
        alloc: Global,
        course: &mut Course,
        block: &Block,
        failed: u64,
    ) -> Result<(), AllocError> {
        let kept = course.kept();
        write!(self.text, "without\n{kept}")?;
        let (at, groups) = (block.at.as_str(), block.groups.as_str());
        let mut expected = String::new(alloc);
        push_groups(&mut expected, course, groups)?;
        course.judge_groups(
            at,
            expected.as_str(),
            self.text.as_str(),
            least(groups),
            failed,
        )
    }

    // Plays a sweep with one failing call, and says whether that was its last play.
    fn play<P: Player>(
        &mut self,
        alloc: Global,
        course: &mut Course,
        block: &Block,
        turn: u64,
    ) -> Result<bool, AllocError> {
        course.play::<P>(block.lines.as_str(), turn)?;
        if !course.is_right() {
            return Ok(true);
        }
        if course.is_hit() {
            self.add(course.kept())?;
            return Ok(false);
        }
        self.end(alloc, course, block, turn.saturating_sub(1))?;
        Ok(true)
    }
}

// Adds the groups that are expected, as those that are found are written.
fn push_groups(text: &mut String, course: &Course, groups: &str) -> Result<(), AllocError> {
    for line in groups.lines() {
        let (_, line) = placed(line);
        let (verb, rest) = cut(line);
        match verb {
            "=" => course.push_expected(text, rest)?,
            "without" => writeln!(text, "without")?,
            _ => writeln!(text, "{line}")?,
        }
    }
    Ok(())
}

// How many calls are to fail at least, by the line `without LEAST`; one where it says nothing.
fn least(groups: &str) -> u64 {
    let mut least = 1;
    for line in groups.lines() {
        let (_, text) = placed(line);
        let (verb, word) = cut(text);
        if verb == "without" {
            least = least_of(word).unwrap_or(1);
        }
    }
    least
}

// Plays a sweep.
fn sweep<P: Player>(alloc: Global, course: &mut Course, block: &Block) -> Result<(), AllocError> {
    let mut found = Found {
        text: String::new(alloc),
        last: String::new(alloc),
    };
    for turn in 1..MOST_TURNS {
        if found.play::<P>(alloc, course, block, turn)? {
            return Ok(());
        }
    }
    course.fail(block.at.as_str(), "calls without end")
}

// Plays a row or a sweep.
fn play_block<P: Player>(
    alloc: Global,
    course: &mut Course,
    block: &Block,
) -> Result<(), AllocError> {
    if matches!(block.kind, Some(BlockKind::Sweep)) {
        return sweep::<P>(alloc, course, block);
    }
    if !block.groups.is_empty() {
        return course.fail(block.at.as_str(), "groups in a row");
    }
    course.play::<P>(block.lines.as_str(), 0)
}

// Plays a row or a sweep once for each choice of its names' values, as long as it is right.
fn judge_plays<P: Player>(
    alloc: Global,
    course: &mut Course,
    block: &Block,
) -> Result<(), AllocError> {
    let lines = block.lines.as_str();
    let plays = plays(lines);
    if plays > MOST_PLAYS {
        return course.fail(block.at.as_str(), "too many plays");
    }
    for play in 0..plays {
        if course.is_right() {
            course.values.clear();
            push_values(&mut course.values, lines, play)?;
            play_block::<P>(alloc, course, block)?;
        }
    }
    Ok(())
}

/// Plays a row or a sweep, and notes what is wrong with it.
pub fn judge<P: Player>(alloc: Global, block: &mut Block) -> Result<(), AllocError> {
    let mut course = Course::new(alloc)?;
    judge_plays::<P>(alloc, &mut course, block)?;
    course.tell(&mut block.wrong)
}
