//! Calls of vault_walk and vault_check.
use crate::faults::{check_fault, finding_line, walk_fault};
use crate::matching::plan;
use crate::places::vault_named;
use crate::reading::node_letter;
use folder_model::FPath;
use row_playing::Stage;
use row_words::cut;
use vault_check::{CheckFault, check, repair};
use vault_read::Vault;
use vault_walk::{Finding, Plan, WalkFault, plan_digest, survey, walk};

/// Says each item with where it is stored.
pub fn say_plan(stage: &mut Stage, plan: &Plan) {
    for item in plan.items.as_slice() {
        stage.said.word(node_letter(item.node));
        stage.said.made(item.path.shown());
        stage.said.made(item.at.text());
        stage.said.end();
    }
}

// Says each finding, and then each note.
fn say_findings(stage: &mut Stage, findings: &[Finding], notes: &[FPath]) {
    for finding in findings {
        finding_line(&mut stage.said, finding);
        stage.said.end();
    }
    for note in notes {
        stage.said.word("note");
        stage.said.made(note.text());
        stage.said.end();
    }
    stage.done("done");
}

fn say_walk_fault(stage: &mut Stage, fault: WalkFault) {
    walk_fault(&mut stage.said, fault);
    stage.ended(1);
}

fn say_check_fault(stage: &mut Stage, fault: CheckFault) {
    check_fault(&mut stage.said, fault);
    stage.ended(1);
}

fn call_survey(stage: &mut Stage, vault: &Vault) {
    match survey(stage.alloc, &mut stage.folder, vault) {
        Ok(found) => {
            say_plan(stage, &found.plan);
            say_findings(stage, found.findings.as_slice(), found.notes.as_slice());
        }
        Err(fault) => say_walk_fault(stage, fault),
    }
}

fn call_walk(stage: &mut Stage, vault: &Vault) {
    match walk(stage.alloc, &mut stage.folder, vault) {
        Ok(plan) => {
            say_plan(stage, &plan);
            stage.done("done");
        }
        Err(fault) => say_walk_fault(stage, fault),
    }
}

fn call_check(stage: &mut Stage, vault: &Vault) {
    match check(stage.alloc, &mut stage.folder, vault) {
        Ok(report) => say_findings(stage, report.findings.as_slice(), report.notes.as_slice()),
        Err(fault) => say_check_fault(stage, fault),
    }
}

// Says where each stray stood that was moved.
fn call_repair(stage: &mut Stage, vault: &Vault, lost: &FPath) {
    match repair(stage.alloc, &mut stage.folder, vault, lost) {
        Ok(strays) => {
            for stray in &strays {
                stage.said.made(stray.text());
                stage.said.end();
            }
            stage.done("done");
        }
        Err(fault) => say_check_fault(stage, fault),
    }
}

fn call_digest(stage: &mut Stage, items: &str) {
    let plan = plan(stage, items);
    match plan_digest(&plan) {
        Ok(digest) => stage.said.hex(digest.as_slice()),
        Err(_) => stage.said.lacks(),
    }
    stage.ended(0);
}

/// Plays `survey VAULT`, `walk VAULT`, `check VAULT`, `repair VAULT LOST` and `digest PLAN`.
pub fn call_walking(stage: &mut Stage, verb: &str, words: &str) {
    if verb == "digest" {
        return call_digest(stage, words);
    }
    let (vault, lost) = cut(words);
    if verb != "repair" {
        stage.no_more(lost);
    }
    let lost = stage.path(lost);
    if let Some(vault) = vault_named(stage, vault) {
        walk_in(stage, verb, &vault, &lost);
    }
}

fn walk_in(stage: &mut Stage, verb: &str, vault: &Vault, lost: &FPath) {
    match verb {
        "survey" => call_survey(stage, vault),
        "walk" => call_walk(stage, vault),
        "check" => call_check(stage, vault),
        _ => call_repair(stage, vault, lost),
    }
}
