//! The line of an answer's message.
ghost use Rattle.std.specs.Prelude.{◌≡◌, ◌⊎◌, false, IfOk, MatchOption, string_bytes};
ghost use Rattle.command_answers.specs.Messages.{IsReported, TakesText, is_plain, line_of, message_of};

use crate::answer::Answer;
use crate::texts::{
    at_path, behind, behind_folder, both, changed_text, damage_text, differ_text, finding_name,
    flaw_text, limit_text, named_text, refusal_text, shown_folder,
};
use port_model::Sink;
use std::alloc::{AllocError, Global};

/// Writes an answer's message to the error stream, as one line; `Done` and `Findings` have none. A fault of that stream
/// changes nothing. The answer comes back, or `OutOfMemory` where a message that names something found no memory.
pub fn report<E: Sink>(alloc: Global, answer: Answer, err: &mut E) -> Answer
    ensures line { TakesText (E.taken err.old) (E.taken err.new) (E.faults err.old) (E.faults err.new) (line_of result) }
    ensures kept { IsReported answer result }
{
    if let Some(line) = plain_line(&answer) {
        put_line(line.as_bytes(), err);
        return answer;
    }
    match naming_line(alloc, &answer) {
        Ok(line) => {
            put_line(line.as_bytes(), err);
            answer
        }
        Err(_) => {
            put_line(b"vaultmove: out of memory\n", err);
            Answer::OutOfMemory
        }
    }
}

// The line of an answer that names nothing.
fn plain_line(answer: &Answer) -> Option<&'static str>
    ensures { MatchOption result (is_plain answer.now ≡ false) (λ line. line.now ≡ line_of answer.now) }
{
    match answer {
        Answer::Done => Some(""),
        Answer::Findings => Some(""),
        Answer::BadCommandLine => Some("vaultmove: bad command line\n"),
        Answer::OutOfMemory => Some("vaultmove: out of memory\n"),
        Answer::FolderFault => Some("vaultmove: folder fault\n"),
        Answer::InputFault => Some("vaultmove: input fault\n"),
        Answer::OutputFault => Some("vaultmove: output fault\n"),
        Answer::RandomFault => Some("vaultmove: random fault\n"),
        Answer::ZeroRandom => Some("vaultmove: zero random bytes\n"),
        _ => None,
    }
}

// Writes one line, whatever becomes of it.
fn put_line<E: Sink>(line: &[u8], err: &mut E)
    ensures { TakesText (E.taken err.old) (E.taken err.new) (E.faults err.old) (E.faults err.new) line.now }
{
    let _ = err.put(line);
}

// The line of an answer that names something.
fn naming_line(alloc: Global, answer: &Answer) -> Result<String, AllocError>
    ensures { is_plain answer.now ≡ false → IfOk result (λ text. string_bytes text ≡ line_of answer.now) }
{
    let message = message_of(alloc, answer)?;
    let mut text = behind(alloc, "vaultmove: ", message.as_str())?;
    text.push_str("\n")?;
    Ok(text)
}

// The message of an answer that names something.
fn message_of(alloc: Global, answer: &Answer) -> Result<String, AllocError>
    ensures { is_plain answer.now ≡ false → IfOk result (λ text. string_bytes text ≡ message_of answer.now) }
{
    match answer {
        Answer::Refused(at, why) => at_path(
            alloc,
            "configuration refused: ",
            at,
            refusal_text(alloc, why)?.as_str(),
        ),
        Answer::WrongPass(root) => behind_folder(alloc, "wrong passphrase: ", root),
        Answer::NotFound(what) => behind(alloc, "not found: ", named_text(alloc, what)?.as_str()),
        Answer::WrongKind(what) => behind(alloc, "wrong kind: ", named_text(alloc, what)?.as_str()),
        Answer::DamagedInput(fault) => format!(in alloc; "damaged: input: {fault}"),
        Answer::Damaged(at, how) => {
            at_path(alloc, "damaged: ", at, damage_text(alloc, how)?.as_str())
        }
        Answer::NotAllowed(path) => behind(alloc, "name not allowed: ", path.shown()?.as_str()),
        Answer::NotClean(at, number) => at_path(
            alloc,
            "vault not clean: ",
            at,
            finding_name(*number),
        ),
        Answer::Overlap(first, second) => both(
            alloc,
            "folders overlap: ",
            shown_folder(alloc, first)?.as_str(),
            shown_folder(alloc, second)?.as_str(),
        ),
        Answer::NotEmpty(at) => behind_folder(alloc, "not empty: ", at),
        Answer::Begun(work) => behind_folder(alloc, "already begun: ", work),
        Answer::Unusable(work, why) => at_path(
            alloc,
            "no usable journal: ",
            work,
            flaw_text(alloc, why)?.as_str(),
        ),
        Answer::Changed(plan, items, plan_now, items_now) => {
            changed_text(alloc, plan, *items, plan_now, *items_now)
        }
        Answer::Differ(path, how) => differ_text(alloc, path, *how),
        Answer::Taken(at) => behind_folder(alloc, "place taken: ", at),
        Answer::Limit(which) => behind(alloc, "limit: ", limit_text(alloc, which)?.as_str()),
        Answer::Retired(work) => behind_folder(alloc, "source retired: ", work),
        Answer::Meet(one, other) => both(
            alloc,
            "names meet: ",
            one.shown()?.as_str(),
            other.shown()?.as_str(),
        ),
        _ => Ok(String::new(alloc)),
    }
}
