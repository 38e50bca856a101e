//! What a command writes once it is done.
ghost use Rattle.std.specs.Prelude.{◌≡◌, ◌⊎◌};
ghost use Rattle.port_model.specs.Counts.{CountRose};
ghost use Rattle.command_answers.specs.Printing.{PrintsText};

use crate::answer::Answer;
use port_model::Sink;

/// Writes the text of a command that is done.
pub fn print<O: Sink>(text: &str, out: &mut O) -> Answer
    ensures prints { PrintsText text.now result (O.taken out.old) (O.taken out.new) }
    ensures answers { (result ≡ Answer.Done) ⊎ (result ≡ Answer.OutputFault) }
    ensures output_fault { result ≡ Answer.OutputFault → CountRose (O.faults out.old) (O.faults out.new) }
{
    match out.put(text.as_bytes()) {
        Ok(()) => Answer::Done,
        Err(_) => Answer::OutputFault,
    }
}
