//! Laws of the answers that commands may give.
ghost use Rattle.std.specs.Prelude.{◌≡◌, ◌⊎◌, ℕ, IsNone, IsTrue, None, Option, Some};
ghost use Rattle.command_answers.specs.Answers.{status_of};
ghost use Rattle.command_answers.specs.Messages.{IsReported};
ghost use Rattle.command_answers.specs.Rows.{may_end, may_end_told};
ghost use Rattle.command_answers.specs.declared.answer.Answer.{Answer};
ghost use Rattle.command_words.specs.declared.commands.Command.{Command};

/// What is reported of an answer that a command may give, the command may answer too.
pub fn reports_are_answers()
    ensures any { (command : Option Command) (answer reported : Answer) → IsReported answer reported → IsTrue (may_end command (status_of answer)) → IsTrue (may_end command (status_of reported)) }
    ensures told { (command : Option Command) (answer reported : Answer) → IsReported answer reported → IsTrue (may_end_told command (status_of answer)) → IsTrue (may_end_told command (status_of reported)) }
{}

/// Only words that make no command end with 2, and these with 2 or 3 alone.
pub fn words_alone_end_with_2()
    ensures bad { (command : Option Command) → IsTrue (may_end command 2) → IsNone command }
    ensures none { (status : ℕ) → IsTrue (may_end None status) → (status ≡ 2) ⊎ (status ≡ 3) }
{}
