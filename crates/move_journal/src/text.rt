//! The text of a journal.
ghost use Rattle.std.specs.Prelude.{◌≡◌, ◌∷◌, [], string_bytes, IfOk};
ghost use Rattle.move_journal.specs.Journal.{phase_line, names_line, from_line, to_line, items_line, plan_line, ended, journal_text};

use crate::journal::{Journal, Phase};
use plain_tree::NameMap;
use std::alloc::{AllocError, Global};

fn phase_text(phase: Phase) -> &'static str
    ensures { result.now ≡ phase_line phase }
{
    match phase {
        Phase::Building => "phase building",
        Phase::Done => "phase done",
    }
}

fn names_text(names: NameMap) -> &'static str
    ensures { result.now ≡ names_line names }
{
    match names {
        NameMap::Same => "names same",
        NameMap::Nfc => "names nfc",
    }
}

// The lines from the source's on.
fn rest_of(alloc: Global, journal: &Journal) -> Result<String, AllocError>
    ensures { IfOk result (λ text. string_bytes text ≡ ended (from_line journal.now.source ∷ to_line journal.now.target ∷ items_line journal.now.items ∷ plan_line journal.now.plan ∷ [])) }
{
    let source = journal.source.text()?;
    let target = journal.target.text()?;
    let items = journal.items;
    let plan = hex::encode(alloc, journal.plan.as_slice())?;
    format!(in alloc; "from {source}\nto {target}\nitems {items}\nplan {plan}\n")
}

pub(crate) fn text_of(alloc: Global, journal: &Journal) -> Result<String, AllocError>
    ensures { IfOk result (λ text. string_bytes text ≡ journal_text journal.now) }
{
    let phase = phase_text(journal.phase);
    let names = names_text(journal.names);
    let rest = rest_of(alloc, journal)?;
    format!(in alloc; "vaultmove 2\n{phase}\n{names}\n{rest}")
}
