//! Laws of the definitions. Each function does nothing, and its clauses are the laws.
ghost use Rattle.std.specs.Prelude.{◌≡◌, false, List, Ok, Result, Some};
ghost use Rattle.item_making.specs.declared.fault.PutFault.{PutFault};
ghost use Rattle.folder_spec.specs.Event.{Told, Settle, changed};
ghost use Rattle.folder_spec.specs.Image.{Image, IsImage, state_of};
ghost use Rattle.folder_spec.specs.Seen.{seen};
ghost use Rattle.folder_spec.specs.State.{State, IsSound, HasNothingPending};
ghost use Rattle.folder_spec.specs.View.{view_of};
ghost use Rattle.vault_spec.specs.Mapped.{AllowsTree, StaysApart};
ghost use Rattle.migration_spec.specs.Alone.{Progress, Unbegun, Begun, Finished, IsIn, IsAlone, StaysGuarded, StaysAlone};
ghost use Rattle.migration_spec.specs.Guard.{Migration, Guarded, IsGuarded, IsSafe, IsSeparate, IsNotBegun, IsWork, HoldsAll, Tells, kinds_in};
ghost use Rattle.migration_spec.specs.Placed.{ItemAt, Places, PlaceEach};
ghost use Rattle.move_journal.specs.Journal.{IsJournal};
ghost use Rattle.move_journal.specs.Writing.{Writes, HasWritten};
ghost use Rattle.move_journal.specs.declared.journal.Journal.{Journal};
ghost use Rattle.move_journal.specs.declared.journal.Phase.TheVariants.{Building, Done};
ghost use Rattle.vault_spec.specs.Vault.{format_of};
ghost use Rattle.work_folder.specs.Changing.{ChangesAt};
ghost use Rattle.work_folder.specs.Entering.{IsStage, IsBelowStage, IsWorkOrStage, IsLeftOver};
ghost use Rattle.work_folder.specs.Entries.{stage_path};

use folder_spec::laws::{
    calls_keep_states_sound, edits_are_published, images_are_states, images_show_views,
    roots_show_their_own, syncs_narrow_images,
};

/// What a crash leaves of a guarded migration is guarded, and in it each file that the source held when the migration began opens with
/// its content in the source or at its mapped path in the target.
pub fn guarded_migrations_are_safe()
    ensures images { (g : Migration) (s : State) (image : Image) → Guarded g s → IsImage s image → Guarded g (state_of image) }
    ensures safe { (g : Migration) (s : State) (image : Image) → Guarded g s → IsImage s image → IsSafe g (view_of image) }
{
    images_are_states();
}

/// A reader of a guarded migration finds one of the four cases; and where one view alone is shown, how far the migration has come.
pub fn guarded_migrations_are_seen()
    ensures case { (g : Migration) (s : State) → IsSound s → Guarded g s → IsGuarded g (seen s) }
    ensures alone { (g : Migration) (p : Progress) (s : State) → IsAlone g p s → IsIn g p (seen s) }
{
    images_are_states();
    roots_show_their_own();
}

/// While an item that the source held is made in the target, a migration stays guarded at each moment, whatever the call answers.
/// Once it is made, the next one may follow.
pub fn placing_keeps_migrations_guarded()
    ensures one { (g : Migration) (x : ItemAt) (a b : Told) (result : Result (Unit {0}) PutFault) → IsAlone g Begun a.state → Places g x a b result → StaysGuarded g a b }
    ensures next { (g : Migration) (x : ItemAt) (a b : Told) → IsAlone g Begun a.state → Places g x a b (Ok tt) → IsAlone g Begun b.state }
    ensures each { (g : Migration) (items : List ItemAt) (a b : Told) → IsAlone g Begun a.state → PlaceEach g items a b → StaysGuarded g a b }
    ensures last { (g : Migration) (items : List ItemAt) (a b : Told) → IsAlone g Begun a.state → PlaceEach g items a b → IsAlone g Begun b.state }
{
    images_show_views();
    roots_show_their_own();
}

/// A migration begins where nothing is pending. A settle leaves it guarded, and then no change is pending of what stands in both vaults
/// and at the journal. So it is while the work folder, or its stage alone, is made ready, at each moment.
pub fn settling_and_entering_keep_migrations_guarded()
    ensures begins { (g : Migration) (s : State) → IsSound s → HasNothingPending s → IsSeparate g → IsNotBegun g (seen s) → IsWork false (kinds_in (seen s)) g.work → IsAlone g Unbegun s }
    ensures settles { (g : Migration) (s : State) → Guarded g s → Guarded g (changed s Settle) }
    ensures alone { (g : Migration) (p : Progress) (s : State) → IsSound s → Guarded g s → IsIn g p (seen s) → IsAlone g p (changed s Settle) }
    ensures enters { (g : Migration) (p : Progress) (a b : Told) → IsAlone g p a.state → ChangesAt g.work (IsWorkOrStage g.work) (IsLeftOver g.work) (Some a) (Some b) → StaysAlone g p a b }
    ensures restages { (g : Migration) (p : Progress) (a b : Told) → IsAlone g p a.state → ChangesAt (stage_path g.work) (IsStage g.work) (IsBelowStage g.work) (Some a) (Some b) → StaysAlone g p a b }
{
    calls_keep_states_sound();
    images_show_views();
    roots_show_their_own();
    syncs_narrow_images();
}

/// While the journal of a migration that begins is written, it stays guarded, and then it has begun, where no two mapped paths meet and the
/// target allows each mapped name; and so it is with the journal of one whose target holds all that the source held, which has finished
/// then.
pub fn journals_keep_migrations_guarded()
    ensures begins { (g : Migration) (j : Journal) (a b : Told) → IsAlone g Unbegun a.state → StaysApart g.names g.held → AllowsTree g.names (format_of g.target.vault) g.held → IsJournal j → j.phase ≡ Building → Tells g j
        → Writes g.work j (Some a) (Some b) → StaysGuarded g a b }
    ensures begun { (g : Migration) (j : Journal) (a b : Told) → IsAlone g Unbegun a.state → StaysApart g.names g.held → AllowsTree g.names (format_of g.target.vault) g.held → IsJournal j → j.phase ≡ Building → Tells g j
        → IsSound b.state → Writes g.work j (Some a) (Some b) → HasWritten g.work j (Some a) (Some b) → IsAlone g Begun b.state }
    ensures finishes { (g : Migration) (j : Journal) (a b : Told) → IsAlone g Begun a.state → HoldsAll g (seen a.state) → IsJournal j → j.phase ≡ Done → Tells g j
        → Writes g.work j (Some a) (Some b) → StaysGuarded g a b }
    ensures finished { (g : Migration) (j : Journal) (a b : Told) → IsAlone g Begun a.state → HoldsAll g (seen a.state) → IsJournal j → j.phase ≡ Done → Tells g j
        → IsSound b.state → Writes g.work j (Some a) (Some b) → HasWritten g.work j (Some a) (Some b) → IsAlone g Finished b.state }
{
    edits_are_published();
    images_show_views();
    roots_show_their_own();
}
