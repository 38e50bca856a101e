//! Laws of the definitions. Each function does nothing, and its clause is the law.
ghost use Rattle.std.specs.Prelude.{◌≡◌, ℕ, List, Some, Result};
ghost use Rattle.folder_spec.specs.Path.{Path};
ghost use Rattle.folder_spec.specs.View.{View};
ghost use Rattle.move_journal.specs.declared.journal.Journal.{Journal};
ghost use Rattle.move_journal.specs.declared.journal.JournalFault.{JournalFault};
ghost use Rattle.move_journal.specs.Journal.{IsJournal, IsTextOf};
ghost use Rattle.move_journal.specs.Lines.{IsBadLine};
ghost use Rattle.move_journal.specs.Reading.{ReadsAs, StandsIn, journal_bytes};
ghost use Rattle.move_journal.specs.Writing.{GivesBack};

/// A text of a journal, in either form, has no bad line, so no text is both accepted and refused.
pub fn journal_texts_have_no_bad_line()
    ensures { (j : Journal) (text : List ℕ) (number : ℕ) → IsJournal j → IsTextOf j text → ¬ IsBadLine text number }
{}

/// A text is that of one journal alone, and reading it gives that journal back. So one journal alone stands in a work folder, and reading it
/// there gives it back.
pub fn journals_are_read_back()
    ensures one { (j k : Journal) (text : List ℕ) → IsJournal j → IsJournal k → IsTextOf j text → IsTextOf k text → j ≡ k }
    ensures read { (j : Journal) (text : List ℕ) (result : Result Journal JournalFault) → IsJournal j → IsTextOf j text → ReadsAs (Some text) result → GivesBack j result }
    ensures stands { (work : Path) (v : View) (j k : Journal) → IsJournal j → IsJournal k → StandsIn work j v → StandsIn work k v → j ≡ k }
    ensures found { (work : Path) (v : View) (j : Journal) (result : Result Journal JournalFault) → IsJournal j → StandsIn work j v → ReadsAs (journal_bytes v work) result → GivesBack j result }
{}
