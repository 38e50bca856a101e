//! Lines that call a layer below the commands, or the folder itself.
use crate::moving::call_moving;
use row_calls::folders::{deep, let_fail, many};
use row_calls::places::{drop_said, need_done};
use row_calls::{
    call_demonstration, call_folder, call_journal, call_mapping, call_matching, call_paths,
    call_reading, call_staging, call_walking, call_work, call_writing,
};
use row_playing::{Handed, Stage, Stop};
use row_words::cut;

// Changes the last bit of a byte of the input.
fn turn(stage: &mut Stage, words: &str) {
    let place = stage.number(words);
    match stage.input.get_mut(place as usize) {
        Some(byte) => *byte ^= 1,
        None => stage.stop(Stop::Line),
    }
}

/// Says no more of a call that did its work than that.
pub fn drop_done(stage: &mut Stage) {
    if stage.status == 0 {
        drop_said(stage);
        stage.done("done");
    }
}

// Plays a line, and says of it no more than the first word.
fn first_word(stage: &mut Stage, verb: &str, words: &str) {
    call_layer(stage, verb, words);
    match stage.said.take() {
        Ok(said) => {
            let (word, _) = cut(said.as_str());
            stage.said.add(word);
            stage.said.end();
        }
        Err(_) => stage.stop(Stop::NoMemory),
    }
}

/// Plays a line that calls a layer.
pub fn layer(stage: &mut Stage, verb: &str, words: &str) {
    let (call, rest) = cut(words);
    match verb {
        "turn" => turn(stage, words),
        "fail_at" | "fail_append" | "stop" => let_fail(stage, verb, words),
        "ends" => {
            call_layer(stage, call, rest);
            drop_done(stage);
        }
        "fault" => first_word(stage, call, rest),
        "quiet" => {
            call_layer(stage, call, rest);
            need_done(stage);
        }
        "whatever" => {
            call_layer(stage, call, rest);
            drop_said(stage);
        }
        "many" | "count_many" => many(stage, verb, words),
        "deep" => deep(stage, words),
        _ => call_layer(stage, verb, words),
    }
}

// Calls a layer with what it is handed. Calls of the folder are counted from here on.
fn call_layer(stage: &mut Stage, verb: &str, words: &str) {
    match stage.hand() {
        Ok(mut handed) => {
            call_by(stage, verb, words, &mut handed);
            stage.take_back(&mut handed);
        }
        Err(_) => stage.stop(Stop::NoMemory),
    }
}

fn call_by(stage: &mut Stage, verb: &str, words: &str, handed: &mut Handed) {
    match verb {
        "path" | "entry" => call_paths(stage, verb, words),
        "folder" => call_folder(stage, words),
        "journal" => call_journal(stage, words),
        "work" => call_work(stage, words),
        "map_plan" => call_mapping(stage, words),
        "holds_all" => call_matching(stage, words),
        "load" | "find" | "enter" | "items" | "items_in" | "allows" | "cat" => {
            call_reading(stage, verb, words, handed)
        }
        "survey" | "walk" | "digest" | "check" | "repair" => call_walking(stage, verb, words),
        "begin" | "go_on" | "resume" | "retire" | "retire_on" => {
            call_moving(stage, verb, words, handed)
        }
        "demo_item" | "demo_totals" | "demo_first" => call_demonstration(stage, verb, words),
        _ => call_changing(stage, verb, words, handed),
    }
}

fn call_changing(stage: &mut Stage, verb: &str, words: &str, handed: &mut Handed) {
    match verb {
        "begin_folder"
        | "stage_file"
        | "publish_folder"
        | "place_folder"
        | "replace_file"
        | "remove_below"
        | "remove_all" => call_staging(stage, verb, words),
        "init_go"
        | "init_cm"
        | "init_ctr"
        | "place_dir"
        | "place_file"
        | "put_file"
        | "write_content"
        | "copy_content" => call_writing(stage, verb, words, handed),
        _ => stage.stop(Stop::Line),
    }
}
