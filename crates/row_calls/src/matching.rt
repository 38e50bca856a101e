//! Plans that a word writes, and calls of tree_match.
use crate::faults::{map_fault, match_fault};
use crate::places::{plain_path, vault_named};
use crate::walking::say_plan;
use folder_model::FPath;
use plain_tree::{NameMap, NodeKind};
use row_playing::{Stage, Stop};
use row_words::cut;
use tree_match::{How, Match, holds_all, map_plan};
use vault_read::Vault;
use vault_walk::{Plan, PlanItem, PlanItems};

/// The rule for names that a word names.
pub fn rule_named(word: &str) -> Option<NameMap> {
    match word {
        "same" => Some(NameMap::Same),
        "nfc" => Some(NameMap::Nfc),
        _ => None,
    }
}

// An item: `PATH=AT` for a file that is stored there, `PATH` for one whose content isn't looked at, `PATH/` for a directory.
fn plan_item(stage: &mut Stage, word: &str) -> PlanItem {
    if let Some((path, at)) = word.split_once('=') {
        return PlanItem {
            path: plain_path(stage, path),
            node: NodeKind::File,
            at: stage.path(at),
        };
    }
    if word.is_empty() {
        stage.stop(Stop::Line);
    }
    let (path, node) = match word.strip_suffix("/") {
        Some(path) => (path, NodeKind::Dir),
        None => (word, NodeKind::File),
    };
    PlanItem {
        path: plain_path(stage, path),
        node,
        at: FPath::base(stage.alloc),
    }
}

/// The plan whose items a word writes, with a comma between two; `-` is the empty plan.
pub fn plan(stage: &mut Stage, word: &str) -> Plan {
    let mut items = Vec::new(stage.alloc);
    if word != "-" {
        for word in word.split(',') {
            let item = plan_item(stage, word);
            if items.push(item).is_err() {
                stage.said.lacks();
            }
        }
    }
    Plan {
        items: PlanItems::new(items),
    }
}

fn say_match(stage: &mut Stage, answer: &Match) {
    match answer {
        Match::Same => stage.said.word("Same"),
        Match::Contained(path) => {
            stage.said.word("Contained");
            stage.said.made(path.shown());
        }
        Match::Differs(path, how) => {
            stage.said.word("Differs");
            stage.said.made(path.shown());
            stage.said.word(match how {
                How::Missing => "Missing",
                How::Kind => "Kind",
                How::Content => "Content",
            });
        }
    }
    stage.ended(0);
}

/// Plays `map_plan NAMES PLAN`: the items at what the rule makes of their paths.
pub fn call_mapping(stage: &mut Stage, words: &str) {
    let (names, word) = cut(words);
    let Some(rule) = rule_named(names) else {
        return stage.stop(Stop::Line);
    };
    let items = plan(stage, word);
    match map_plan(stage.alloc, &items, rule) {
        Ok(mapped) => {
            say_plan(stage, &mapped);
            stage.done("done");
        }
        Err(fault) => {
            map_fault(&mut stage.said, fault);
            stage.ended(1);
        }
    }
}

/// Plays `holds_all VAULT PLAN VAULT PLAN`: whether the second holds all that the first does.
pub fn call_matching(stage: &mut Stage, words: &str) {
    let (a, words) = cut(words);
    let (a_plan, words) = cut(words);
    let (b, b_plan) = cut(words);
    if let Some(a) = vault_named(stage, a) {
        if let Some(b) = vault_named(stage, b) {
            compare(stage, &a, a_plan, &b, b_plan);
        }
    }
}

fn compare(stage: &mut Stage, a: &Vault, a_plan: &str, b: &Vault, b_plan: &str) {
    let a_plan = plan(stage, a_plan);
    let b_plan = plan(stage, b_plan);
    match holds_all(stage.alloc, &mut stage.folder, a, &a_plan, b, &b_plan) {
        Ok(answer) => say_match(stage, &answer),
        Err(fault) => {
            match_fault(&mut stage.said, fault);
            stage.ended(1);
        }
    }
}
