//! Reading the text of a journal.
ghost use Rattle.std.specs.Prelude.{◌≡◌, ◌≤◌, ◌<◌, ◌++◌, ◌∷◌, IfOk, MatchOption};
ghost use Rattle.folder_model.specs.Text.{IsParsed};
ghost use Rattle.move_journal.specs.Journal.{IsDigest, title, phase_line, names_line, from_line, to_line, items_line, plan_line};
ghost use Rattle.move_journal.specs.Lines.{BeginsWithNoLine};
ghost use Rattle.move_journal.specs.Parsing.{ParsesAs, TellsNames, in_form};

use crate::journal::{Form, Journal, JournalFault, Phase};
use crate::line::{items_in, next_value, path_in, plan_in, rest_after};
use folder_model::FPath;
use plain_tree::NameMap;
use std::alloc::{AllocError, Global};

// Each of these reads one line of the text, and gives its value and what comes after the line.

fn take_title(text: &[u8]) -> Option<(Form, &[u8])>
    ensures { MatchOption result ((form : Form) → BeginsWithNoLine form 0 text.now) (λ found. text.now ≡ title found.0 ++ 10 ∷ found.1.now) }
{
    if let Some(rest) = rest_after(text, b"vaultmove 1\n") {
        return Some((Form::First, rest));
    }
    let Some(rest) = rest_after(text, b"vaultmove 2\n") else {
        return None;
    };
    Some((Form::Second, rest))
}

fn take_phase(text: &[u8]) -> Option<(Phase, &[u8])>
    ensures { MatchOption result ((form : Form) → BeginsWithNoLine form 1 text.now) (λ found. text.now ≡ phase_line found.0 ++ 10 ∷ found.1.now) }
{
    if let Some(rest) = rest_after(text, b"phase building\n") {
        return Some((Phase::Building, rest));
    }
    let Some(rest) = rest_after(text, b"phase done\n") else {
        return None;
    };
    Some((Phase::Done, rest))
}

// The first form has no line for the names, which stay as they are there.
fn take_names(form: Form, text: &[u8]) -> Option<(NameMap, &[u8])>
    ensures { MatchOption result ((form ≡ Form.Second) × BeginsWithNoLine Form.Second 2 text.now) (λ found. TellsNames form found.0 text.now found.1.now) }
{
    match form {
        Form::First => Some((NameMap::Same, text)),
        Form::Second => names_in(text),
    }
}

fn names_in(text: &[u8]) -> Option<(NameMap, &[u8])>
    ensures { MatchOption result (BeginsWithNoLine Form.Second 2 text.now) (λ found. text.now ≡ names_line found.0 ++ 10 ∷ found.1.now) }
{
    if let Some(rest) = rest_after(text, b"names same\n") {
        return Some((NameMap::Same, rest));
    }
    let Some(rest) = rest_after(text, b"names nfc\n") else {
        return None;
    };
    Some((NameMap::Nfc, rest))
}

fn take_source(alloc: Global, text: &[u8]) -> Result<Option<(FPath, &[u8])>, AllocError>
    ensures { IfOk result (λ o. MatchOption o ((form : Form) → BeginsWithNoLine form (in_form form 2) text.now) (λ found. IsParsed found.0 × (text.now ≡ from_line found.0 ++ 10 ∷ found.1.now))) }
{
    let Some((value, rest)) = next_value(text, b"from ") else {
        return Ok(None);
    };
    match path_in(alloc, value)? {
        Some(path) => Ok(Some((path, rest))),
        None => Ok(None),
    }
}

fn take_target(alloc: Global, text: &[u8]) -> Result<Option<(FPath, &[u8])>, AllocError>
    ensures { IfOk result (λ o. MatchOption o ((form : Form) → BeginsWithNoLine form (in_form form 3) text.now) (λ found. IsParsed found.0 × (text.now ≡ to_line found.0 ++ 10 ∷ found.1.now))) }
{
    let Some((value, rest)) = next_value(text, b"to ") else {
        return Ok(None);
    };
    match path_in(alloc, value)? {
        Some(path) => Ok(Some((path, rest))),
        None => Ok(None),
    }
}

fn take_items(alloc: Global, text: &[u8]) -> Result<Option<(u64, &[u8])>, AllocError>
    ensures { IfOk result (λ o. MatchOption o ((form : Form) → BeginsWithNoLine form (in_form form 4) text.now) (λ found. (found.0 ≤ 200000) × (text.now ≡ items_line found.0 ++ 10 ∷ found.1.now))) }
{
    let Some((value, rest)) = next_value(text, b"items ") else {
        return Ok(None);
    };
    match items_in(alloc, value)? {
        Some(items) => Ok(Some((items, rest))),
        None => Ok(None),
    }
}

fn take_plan(text: &[u8]) -> Option<([u8; 32], &[u8])>
    ensures { MatchOption result ((form : Form) → BeginsWithNoLine form (in_form form 5) text.now) (λ found. IsDigest found.0 × (text.now ≡ plan_line found.0 ++ 10 ∷ found.1.now)) }
{
    let (value, rest) = next_value(text, b"plan ")?;
    let Some(plan) = plan_in(value) else {
        return None;
    };
    Some((plan, rest))
}

// The number that a line has in this form, by that in the first.
fn number_in(form: Form, number: u8) -> u8
    requires { number < 255 }
    ensures { result ≡ in_form form number }
{
    match form {
        Form::First => number,
        Form::Second => number + 1,
    }
}

// Reads a journal from its text.
pub(crate) fn parse(alloc: Global, text: &[u8]) -> Result<Journal, JournalFault>
    ensures { ParsesAs text.now result }
{
    let Some((form, after_title)) = take_title(text) else {
        return Err(JournalFault::BadJournal(1));
    };
    let Some((phase, after_phase)) = take_phase(after_title) else {
        return Err(JournalFault::BadJournal(2));
    };
    let Some((names, after_names)) = take_names(form, after_phase) else {
        return Err(JournalFault::BadJournal(3));
    };
    let Some((source, after_source)) = take_source(alloc, after_names)? else {
        return Err(JournalFault::BadJournal(number_in(form, 3)));
    };
    let Some((target, after_target)) = take_target(alloc, after_source)? else {
        return Err(JournalFault::BadJournal(number_in(form, 4)));
    };
    let Some((items, after_items)) = take_items(alloc, after_target)? else {
        return Err(JournalFault::BadJournal(number_in(form, 5)));
    };
    let Some(last) = take_plan(after_items) else {
        return Err(JournalFault::BadJournal(number_in(form, 6)));
    };
    let plan = last.0;
    let after_plan = last.1;
    if !after_plan.is_empty() {
        return Err(JournalFault::BadJournal(number_in(form, 7)));
    }
    Ok(Journal {
        phase,
        names,
        source,
        target,
        items,
        plan,
    })
}
