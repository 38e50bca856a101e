//! The texts that messages are put together of.
ghost use Rattle.std.specs.List.{flat_map};
ghost use Rattle.std.specs.Prelude.{◌≡◌, ◌++◌, ◌∷◌, [], IfOk, codes, map, string_bytes};
ghost use Rattle.std.specs.Rc.{rc_str_bytes};
ghost use Rattle.hex.specs.Hex.{encode_lower};
ghost use Rattle.plain_tree.specs.Shown.{shown, shown_path};
ghost use Rattle.command_answers.specs.Messages.{damage_text, differing_text, flaw_text, limit_text, name_numbered, named_text, plan_text, refusal_text};

use crate::answer::{Damage, Difference, Flaw, Limit, Named, Refusal};
use folder_model::FPath;
use plain_tree::{PlainPath, shown_text};
use std::alloc::{AllocError, Global};
use std::rc::RcStr;

// One text behind another.
pub(crate) fn behind(alloc: Global, words: &str, text: &str) -> Result<String, AllocError>
    ensures { IfOk result (λ whole. string_bytes whole ≡ words.now ++ text.now) }
{
    let mut whole = String::from_str(alloc, words)?;
    whole.push_str(text)?;
    Ok(whole)
}

// A folder's path behind words.
pub(crate) fn behind_folder(alloc: Global, words: &str, at: &FPath) -> Result<String, AllocError>
    ensures { IfOk result (λ whole. string_bytes whole ≡ words.now ++ shown_path at.now) }
{
    behind(alloc, words, shown_folder(alloc, at)?.as_str())
}

// Words, a path, and what is said of it.
pub(crate) fn at_path(
    alloc: Global,
    words: &str,
    at: &FPath,
    text: &str,
) -> Result<String, AllocError>
    ensures { IfOk result (λ whole. string_bytes whole ≡ words.now ++ shown_path at.now ++ codes ": " ++ text.now) }
{
    let mut whole = behind_folder(alloc, words, at)?;
    whole.push_str(": ")?;
    whole.push_str(text)?;
    Ok(whole)
}

// Words, and two paths.
pub(crate) fn both(
    alloc: Global,
    words: &str,
    first: &str,
    second: &str,
) -> Result<String, AllocError>
    ensures { IfOk result (λ text. string_bytes text ≡ words.now ++ first.now ++ codes " " ++ second.now) }
{
    let mut text = behind(alloc, words, first)?;
    text.push_str(" ")?;
    text.push_str(second)?;
    Ok(text)
}

pub(crate) fn named_text(alloc: Global, what: &Named) -> Result<String, AllocError>
    ensures { IfOk result (λ text. string_bytes text ≡ named_text what.now) }
{
    match what {
        Named::Folder(at) => shown_folder(alloc, at),
        Named::Plain(path) => path.shown(),
    }
}

pub(crate) fn refusal_text(alloc: Global, why: &Refusal) -> Result<String, AllocError>
    ensures { IfOk result (λ text. string_bytes text ≡ refusal_text why.now) }
{
    match why {
        Refusal::Gocryptfs(fault) => shown_text(alloc, format!(in alloc; "{fault}")?.as_bytes()),
        Refusal::Cryptomator(fault) => shown_text(alloc, format!(in alloc; "{fault}")?.as_bytes()),
        Refusal::Signature => String::from_str(alloc, "signature"),
    }
}

pub(crate) fn damage_text(alloc: Global, how: &Damage) -> Result<String, AllocError>
    ensures { IfOk result (λ text. string_bytes text ≡ damage_text how.now) }
{
    match how {
        Damage::Content(fault) => format!(in alloc; "{fault}"),
        Damage::NoDirKey => String::from_str(alloc, "no directory key"),
        Damage::NoFolder => String::from_str(alloc, "no folder"),
    }
}

pub(crate) fn limit_text(alloc: Global, which: &Limit) -> Result<String, AllocError>
    ensures { IfOk result (λ text. string_bytes text ≡ limit_text which.now) }
{
    match which {
        Limit::Depth => String::from_str(alloc, "depth"),
        Limit::Items => String::from_str(alloc, "items"),
        Limit::Length(at) => behind_folder(alloc, "length ", at),
        Limit::PassFile => String::from_str(alloc, "pass file"),
        Limit::Input => String::from_str(alloc, "input"),
        Limit::Removal => String::from_str(alloc, "removal"),
    }
}

pub(crate) fn flaw_text(alloc: Global, why: &Flaw) -> Result<String, AllocError>
    ensures { IfOk result (λ text. string_bytes text ≡ flaw_text why.now) }
{
    match why {
        Flaw::Missing => String::from_str(alloc, "missing"),
        Flaw::Line(number) => format!(in alloc; "line {number}"),
        Flaw::Building => String::from_str(alloc, "building"),
    }
}

// A digest and a number of items, and those that they have become.
pub(crate) fn changed_text(
    alloc: Global,
    plan: &[u8; 32],
    items: u64,
    plan_now: &[u8; 32],
    items_now: u64,
) -> Result<String, AllocError>
    ensures { IfOk result (λ text. string_bytes text ≡ codes "source changed: " ++ plan_text plan.now items ++ codes " " ++ plan_text plan_now.now items_now) }
{
    both(
        alloc,
        "source changed: ",
        plan_text(alloc, plan, items)?.as_str(),
        plan_text(alloc, plan_now, items_now)?.as_str(),
    )
}

fn plan_text(alloc: Global, plan: &[u8; 32], items: u64) -> Result<String, AllocError>
    ensures { IfOk result (λ text. string_bytes text ≡ plan_text plan.now items) }
{
    let mut text = hex::encode(alloc, plan.as_slice())?;
    text.push_str(format!(in alloc; " {items}")?.as_str())?;
    Ok(text)
}

pub(crate) fn differ_text(
    alloc: Global,
    path: &PlainPath,
    how: Difference,
) -> Result<String, AllocError>
    ensures { IfOk result (λ text. string_bytes text ≡ codes "trees differ: " ++ shown_path path.now ++ codes ": " ++ differing_text how) }
{
    let mut text = behind(alloc, "trees differ: ", path.shown()?.as_str())?;
    text.push_str(": ")?;
    text.push_str(differing_word(how))?;
    Ok(text)
}

fn differing_word(how: Difference) -> &'static str
    ensures { result.now ≡ differing_text how }
{
    match how {
        Difference::Missing => "missing",
        Difference::Kind => "kind",
        Difference::Content => "content",
        Difference::Extra => "extra",
    }
}

/// The shown form of a path of the folder.
#[tactic(auto, unfolding(plain_tree::specs::Shown::shown_path))]
pub fn shown_folder(alloc: Global, at: &FPath) -> Result<String, AllocError>
    ensures { IfOk result (λ text. string_bytes text ≡ shown_path at.now) }
{
    match at.parts() {
        [] => Ok(String::new(alloc)),
        [first, others @ ..] => {
            let text = shown_text(alloc, first.as_bytes())?;
            shown_before(alloc, text, others)
        }
    }
}

// The text, and then the shown form of each other part behind a slash.
fn shown_before(alloc: Global, mut text: String, others: &[RcStr]) -> Result<String, AllocError>
    ensures { IfOk result (λ whole. string_bytes whole ≡ string_bytes text ++ flat_map (λ part. (47 ∷ []) ++ shown part) (map rc_str_bytes others.now)) }
{
    for part in others {
        text.push('/')?;
        text.push_str(shown_text(alloc, part.as_bytes())?.as_str())?;
    }
    Ok(text)
}

/// The name of the findings of a number.
pub fn finding_name(number: u8) -> &'static str
    ensures { result.now ≡ name_numbered number }
{
    match number {
        1 => "BadStoredName",
        2 => "NoDirKey",
        3 => "LongNameLost",
        4 => "OrphanLongName",
        5 => "DirIdTwice",
        6 => "NoFolder",
        7 => "OrphanFolder",
        8 => "SymlinkFound",
        9 => "WrongKind",
        10 => "ExtraEntry",
        11 => "TwoKinds",
        12 => "HeaderDamaged",
        13 => "ChunkDamaged",
        _ => "EmptyOrphan",
    }
}
