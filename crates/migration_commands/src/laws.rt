//! A law of whole histories of the commands. The function does nothing, and its clause is the law.
ghost use Rattle.std.specs.Prelude.{List};
ghost use Rattle.folder_spec.specs.State.{State};
ghost use Rattle.migration_spec.specs.Guard.{LosesNothing, Migration};
ghost use Rattle.migration_commands.specs.History.{IsHistory, IsStateIn, Run};

use migration_spec::laws::{
    guarded_migrations_are_safe, settling_and_entering_keep_migrations_guarded,
};

/// In whatever order the three commands are run, stopped and run again: at every moment of every run, and after a crash there, each file
/// that the source held when the migration began opens with its content in the source or at its mapped path in the target.
///
/// A run is whatever `migrate`, `resume` and `retire` say of themselves: what `run` says of these commands where they have begun. Where
/// memory was refused before, nothing was done.
pub fn histories_are_borne()
    ensures { (g : Migration) (first : Run g) (more : List (Run g)) (s : State) → IsHistory first more → IsStateIn first more s → LosesNothing g s }
{
    guarded_migrations_are_safe();
    settling_and_entering_keep_migrations_guarded();
}
