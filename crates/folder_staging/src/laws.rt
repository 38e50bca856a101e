//! Laws of the definitions. Each function does nothing, and its clause is the law.
ghost use Rattle.std.specs.Prelude.{◌≡◌, ◌∷◌, ◌++◌, [], ℕ, List, Contains, Option, Some};
ghost use Rattle.folder_spec.specs.Path.{Part, Path, child};
ghost use Rattle.folder_spec.specs.State.{State, present, IsSound};
ghost use Rattle.folder_spec.specs.Event.{Call, Told, FromTo};
ghost use Rattle.folder_spec.specs.Region.{IsAsBefore, SparesOld, apart_from};
ghost use Rattle.folder_spec.specs.Written.{HoldFronts};
ghost use Rattle.folder_spec.specs.Replace.{IsNewFile};
ghost use Rattle.folder_spec.specs.View.{FileOf, View};
ghost use Rattle.folder_spec.specs.Edit.{edited, file_edit, directory_edit};
ghost use Rattle.folder_spec.specs.Seen.{IfSeen};
ghost use Rattle.folder_staging.specs.Pieces.{IsWriting, Stages};
ghost use Rattle.folder_staging.specs.Removal.{Reach, IsRemoving, RemovesWithin};
ghost use Rattle.folder_staging.specs.Folders.{StagesFolder, HasStaged, IsStagedFolder};

/// A file that is being written is seen, with the bytes that it has so far.
pub fn written_files_are_seen()
    ensures { (files : List (List ℕ)) (at : Path) (bytes : List ℕ) (before now : Option Told) → IsWriting files at bytes before now → IfSeen now (λ v. v at ≡ FileOf bytes) }
{}

/// A file that is staged may be one of more files.
pub fn stagings_are_of_more_files()
    ensures { (files more : List (List ℕ)) (at : Path) (before now : Option Told) → ((file : List ℕ) → Contains files file → Contains more file) → Stages files at before now → Stages more at before now }
{}

/// While something is staged in a staged folder, the folder is; once it is there, the folder has it: a
/// file, a directory, or whatever else.
pub fn staged_folders_gain_entries()
    ensures files { (contents : List (List ℕ)) (at : Path) (before now : Option Told) → Stages contents at before now → StagesFolder contents at before now }
    ensures during { (contents : List (List ℕ)) (at rest : Path) (made : View) (before mid now : Option Told) → HasStaged contents at made before mid → StagesFolder contents (at ++ rest) mid now → StagesFolder contents at before now }
    ensures gained { (contents : List (List ℕ)) (at rest : Path) (made inner : View) (before mid now : Option Told) → ((a : Told) → mid ≡ Some a → IsSound a.state) → HasStaged contents at made before mid → HasStaged contents (at ++ rest) inner mid now → HasStaged contents at (edited made (record { at = rest; made = inner })) before now }
    ensures file { (contents : List (List ℕ)) (at rest : Path) (bytes : List ℕ) (made : View) (before mid now : Option Told) → ((a : Told) → mid ≡ Some a → IsSound a.state) → ((a : Told) → now ≡ Some a → IsSound a.state) → HasStaged contents at made before mid → Stages contents (at ++ rest) mid now → FromTo (λ a b. IsNewFile bytes a.state b.state (present b.state (at ++ rest))) mid now → HasStaged contents at (edited made (file_edit rest bytes)) before now }
    ensures directory { (contents : List (List ℕ)) (at rest : Path) (made : View) (before mid now : Option Told) → ((a : Told) → mid ≡ Some a → IsSound a.state) → HasStaged contents at made before mid → IsStagedFolder contents (at ++ rest) [] mid now → HasStaged contents at (edited made (directory_edit rest)) before now }
{}

/// The same of a file under a name of its own.
pub fn staged_folders_gain_files()
    ensures during { (contents : List (List ℕ)) (at : Path) (name : Part) (files : List (Part × List ℕ)) (before mid now : Option Told) → IsStagedFolder contents at files before mid → Stages contents (child at name) mid now → StagesFolder contents at before now }
    ensures gained { (contents : List (List ℕ)) (at : Path) (name : Part) (bytes : List ℕ) (files : List (Part × List ℕ)) (before mid now : Option Told) → ((a : Told) → mid ≡ Some a → IsSound a.state) → ((a : Told) → now ≡ Some a → IsSound a.state) → IsStagedFolder contents at files before mid → Stages contents (child at name) mid now → FromTo (λ a b. IsNewFile bytes a.state b.state (present b.state (child at name))) mid now → IsStagedFolder contents at ((name, bytes) ∷ files) before now }
{}

/// What is staged is seen where it is staged.
pub fn staged_folders_are_seen()
    ensures { (contents : List (List ℕ)) (at : Path) (made : View) (before now : Option Told) → HasStaged contents at made before now → IfSeen now (λ v. (rest : Path) → v (at ++ rest) ≡ made rest) }
{}

/// A removal leaves all that is not at its path or below it, and writes no file.
pub fn removals_leave_the_rest()
    ensures rest { (r : Reach) (s0 s : State) → IsRemoving r s0 s → IsAsBefore (apart_from r.at) s0 s }
    ensures calls { (r : Reach) (s0 s : State) (call : Call) → RemovesWithin r call → SparesOld (apart_from r.at) s0 s call }
    ensures files { (r : Reach) (files : List (List ℕ)) (s0 s : State) → IsRemoving r s0 s → HoldFronts files s0 s }
{}
