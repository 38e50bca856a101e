//! Calls of demo_core.
use crate::reading::node_letter;
use demo_core::items::{is_directory, path_of, size_of};
use demo_core::{make_first, random_of, totals_of};
use plain_tree::NodeKind;
use row_playing::{Stage, Stop};
use row_words::cut;

// Says an item, and the size that its file has or would have.
fn demo_item(stage: &mut Stage, seed: u64, number: u64) {
    if number > 9_999 {
        return stage.stop(Stop::Line);
    }
    let number = number as u32;
    stage.said.word(node_letter(if is_directory(number) {
        NodeKind::Dir
    } else {
        NodeKind::File
    }));
    match path_of(stage.alloc, number) {
        Ok(path) => stage.said.made(path.shown()),
        Err(_) => stage.said.lacks(),
    }
    stage.said.shows(&size_of(seed, number));
    stage.said.end();
}

fn demo_totals(stage: &mut Stage, seed: u64, count: u64) {
    if count > 10_000 {
        return stage.stop(Stop::Line);
    }
    let totals = totals_of(seed, count as u32);
    stage.said.shows(&totals.directories);
    stage.said.shows(&totals.files);
    stage.said.shows(&totals.bytes);
    stage.said.end();
}

// Makes the first vault of a demonstration.
fn demo_first(stage: &mut Stage, seed: u64, count: u64) {
    if count > 2_000 {
        return stage.stop(Stop::Line);
    }
    let count = count as u32;
    let mut random = random_of(seed);
    match make_first(stage.alloc, &mut stage.folder, seed, count, &mut random).ok() {
        Some(()) => stage.done("done"),
        None => stage.failed("fault"),
    }
}

/// Plays `demo_item SEED NUMBER`, `demo_totals SEED COUNT` and `demo_first SEED COUNT`.
pub fn call_demonstration(stage: &mut Stage, verb: &str, words: &str) {
    let (seed, count) = cut(words);
    let (seed, count) = (stage.number(seed), stage.number(count));
    match verb {
        "demo_item" => demo_item(stage, seed, count),
        "demo_totals" => demo_totals(stage, seed, count),
        _ => demo_first(stage, seed, count),
    }
}
