//! Laws of the definitions. Each function does nothing, and its clause is the law.
ghost use Rattle.std.specs.Prelude.{◌≡◌, ◌≢◌, ◌<◌, ◌++◌, ◌∷◌, [], ℕ, List, Bool, None, Contains, IsTrue};
ghost use Rattle.folder_spec.specs.State.{State, Table, present, moved, IsSound, HasNothingPending, HasNothingPendingIn};
ghost use Rattle.folder_spec.specs.Event.{Call, MakeDir, Sync, Settle, Rename, IsFree, Allowed, changed, fallen};
ghost use Rattle.folder_spec.specs.Image.{Image, IsImage, state_of, seen_now};
ghost use Rattle.folder_spec.specs.Path.{Path, below};
ghost use Rattle.folder_spec.specs.declared.Spot.TheVariants.{Nothing, Odd};
ghost use Rattle.folder_spec.specs.Replace.{IsOldOrNew, IsReplaced, ShowsOldOrNew, IsCleanAt};
ghost use Rattle.folder_spec.specs.View.{FileOf, View, view_of, AgreeIn, Shows, ShowsAmong};
ghost use Rattle.folder_spec.specs.Seen.{under, moved_view, seen, seen_after, MayCall};
ghost use Rattle.folder_spec.specs.Edit.{Edit, directory_edit, edited, edits_under, view_after, IsPartOf, IsOutside, IsStagedView, PublishesIn, HasPublishedIn, HasSettledIn};
ghost use Rattle.folder_spec.specs.Region.{Spares, WritesOnlyNew, SparesOld, StagesAt, StagesOrPuts, IsAsBefore, HasOldOrFile, PutsOnlyFiles, OnlyAdds, apart_from, apart_from_both, at_or_below};
ghost use Rattle.folder_spec.specs.Written.{HoldFronts, WritesFronts};

/// A call that is allowed keeps a state sound, whether it is done or fails.
pub fn calls_keep_states_sound()
    ensures done { (s : State) (call : Call) → IsSound s → Allowed s call → IsSound (changed s call) }
    ensures failed { (s : State) (call : Call) (added : ℕ) → IsSound s → Allowed s call → IsSound (fallen s call added) }
{}

/// The folder as a read now sees it is an image, and so is an image of an image, which has nothing
/// pending.
pub fn images_are_states()
    ensures seen { (s : State) → IsSound s → IsImage s (seen_now s) }
    ensures sound { (s : State) (image : Image) → IsSound s → IsImage s image → IsSound (state_of image) }
    ensures settled { (image : Image) → HasNothingPending (state_of image) }
    ensures again { (s : State) (image second : Image) → IsImage s image → IsImage (state_of image) second → IsImage s second }
{}

/// After a sync and after a settle a crash leaves nothing that it did not leave before.
pub fn syncs_narrow_images()
    ensures sync { (s : State) (p : Path) (image : Image) → IsSound s → IsImage (changed s (Sync p)) image → IsImage s image }
    ensures settle { (s : State) (image : Image) → IsImage (changed s Settle) image → IsImage s image }
{}

/// Calls leave a region that they spare as it was: no crash shows there what none showed before.
pub fn spared_regions_stay()
    ensures one_call { (region : Path → Bool) (s0 s : State) (call : Call) → Spares region call → WritesOnlyNew s0.made s call → IsAsBefore region s0 s → IsAsBefore region s0 (changed s call) }
    ensures images { (region : Path → Bool) (s0 s : State) → IsSound s0 → IsAsBefore region s0 s → (image : Image) → IsImage s image → (old : Image) × IsImage s0 old × AgreeIn region (view_of image) (view_of old) }
{}

/// What works at a path leaves all other paths alone, and so do calls that put something in its place, all
/// but that place.
pub fn stagings_spare_the_rest()
    ensures staged { (at : Path) (s0 s : State) (call : Call) → StagesAt at s0 s call → SparesOld (apart_from at) s0 s call }
    ensures put { (staged at : Path) (s0 s : State) (call : Call) → StagesOrPuts staged at s0 s call → SparesOld (apart_from_both staged at) s0 s call }
{}

/// Where calls write only front parts of some files, the files made since then hold such, also after
/// a call that fails; and where they put only files at a path, nothing else comes to stand there. One
/// stretch of calls after another writes the files of both.
pub fn new_files_hold_fronts()
    ensures one_call { (files : List (List ℕ)) (s0 s : State) (call : Call) → WritesFronts files s call → HoldFronts files s0 s → HoldFronts files s0 (changed s call) }
    ensures failed { (files : List (List ℕ)) (s0 s : State) (call : Call) (added : ℕ) → WritesFronts files s call → HoldFronts files s0 s → HoldFronts files s0 (fallen s call added) }
    ensures composed { (files more : List (List ℕ)) (s0 s1 s : State) → HoldFronts files s0 s1 → HoldFronts more s1 s → ((n : ℕ) → n < s1.made → s.nodes n ≡ s1.nodes n) → HoldFronts (files ++ more) s0 s }
    ensures place { (at : Path) (s0 s : State) → HasOldOrFile at s0 s → (call : Call) → PutsOnlyFiles at call → HasOldOrFile at s0 (changed s call) }
{}

/// Where a file is put in the place of another at once, a crash shows the old one or the new one, and
/// clean files stay clean. Once that is settled, a crash shows the new one.
pub fn replaced_files_are_old_or_new()
    ensures images { (region : Path → Bool) (at : Path) (bytes : List ℕ) (s0 s : State) (image : Image) → IsSound s0 → IsOldOrNew region at bytes s0 s → IsImage s image → ShowsOldOrNew region at bytes s0 image }
    ensures settled { (region : Path → Bool) (at : Path) (bytes : List ℕ) (s0 s : State) (image : Image) → IsReplaced region at bytes s0 s → IsImage s image → view_of image at ≡ FileOf bytes }
    ensures clean { (region : Path → Bool) (at : Path) (bytes : List ℕ) (s0 s : State) → IsSound s0 → IsCleanAt at s0 → IsOldOrNew region at bytes s0 s → IsCleanAt at s }
{}

/// A rename moves what stands at the old path and below it, and leaves all else.
pub fn renames_move_all_below()
    ensures there { (t : Table) (old new rest : Path) → moved t old new (new ++ rest) ≡ t (old ++ rest) }
    ensures gone { (t : Table) (old new rest : Path) → below new (old ++ rest) ≡ None → moved t old new (old ++ rest) ≡ Nothing }
    ensures others { (t : Table) (old new path : Path) → below new path ≡ None → below old path ≡ None → moved t old new path ≡ t path }
{}

/// Where each table shows one of these views in a region, and the files there are clean, each image
/// shows one of them, and taken as a state that one alone. Where nothing is pending in a region, what is
/// seen there is shown alone.
pub fn images_show_views()
    ensures one { (region : Path → Bool) (s : State) (image : Image) (v : View) → IsImage s image → Shows region s image.table v → AgreeIn region (view_of image) v }
    ensures images { (region : Path → Bool) (s : State) (image : Image) (views : List View) → ShowsAmong region s views → IsImage s image → (v : View) × Contains views v × AgreeIn region (view_of image) v }
    ensures alone { (region : Path → Bool) (s : State) (image : Image) (views : List View) → ShowsAmong region s views → IsImage s image → (v : View) × Contains views v × ShowsAmong region (state_of image) (v ∷ []) }
    ensures settled { (region : Path → Bool) (s : State) → HasNothingPendingIn region s → ShowsAmong region s (seen s ∷ []) }
    ensures everywhere { (region : Path → Bool) (s : State) → HasNothingPending s → HasNothingPendingIn region s }
{}

/// What is seen after each call follows from what was seen, and so does when it may be made. No call
/// makes an entry that is neither file nor directory.
pub fn calls_change_what_is_seen()
    ensures seen { (s : State) (call : Call) → IsSound s → Allowed s call → seen (changed s call) ≡ seen_after (seen s) call }
    ensures allowed { (s : State) (call : Call) → MayCall (seen s) call → Allowed s call }
    ensures may_be_made { (s : State) (call : Call) → Allowed s call → MayCall (seen s) call }
    ensures special { (s : State) (call : Call) (q : Path) → present (changed s call) q ≡ Odd → (p : Path) × (present s p ≡ Odd) }
{}

/// A call that only adds in a region keeps all that stands there.
pub fn additions_keep_what_stands()
    ensures { (region : Path → Bool) (s : State) (call : Call) → IsSound s → Allowed s call → OnlyAdds region s call → (q : Path) → IsTrue (region q) → present s q ≢ Nothing → present (changed s call) q ≡ present s q }
{}

/// Calls that leave a region as it was publish nothing there. A rename from outside it publishes what
/// was staged, and so is a directory made in its place. More edits may come. After a settle the last view
/// is shown alone.
pub fn edits_are_published()
    ensures staged { (whole : Path → Bool) (edits : List Edit) (s0 s : State) → IsSound s0 → IsAsBefore whole s0 s → PublishesIn whole edits s0 s }
    ensures renamed { (whole : Path → Bool) (p : Path) (e : Edit) (s0 s : State) → IsSound s0 → IsAsBefore whole s0 s → ((q : Path) → IsTrue (whole q) → below p q ≡ None) → IsStagedView s (present s) p e.made → HasPublishedIn whole (e ∷ []) s0 (changed s (Rename p e.at)) }
    ensures directory { (whole : Path → Bool) (at : Path) (s0 s : State) → IsSound s0 → IsSound s → IsAsBefore whole s0 s → IsFree (present s) at → HasPublishedIn whole (directory_edit at ∷ []) s0 (changed s (MakeDir at)) }
    ensures more { (whole : Path → Bool) (edits more : List Edit) (s0 s : State) → PublishesIn whole edits s0 s → PublishesIn whole (edits ++ more) s0 s }
    ensures settle { (whole : Path → Bool) (edits : List Edit) (s0 s : State) → HasPublishedIn whole edits s0 s → HasSettledIn whole edits s0 (changed s Settle) }
    ensures alone { (whole : Path → Bool) (edits : List Edit) (s0 s : State) → HasSettledIn whole edits s0 s → (region : Path → Bool) (v : View) → IsPartOf region whole → Shows region s0 (present s0) v → ShowsAmong region s (view_after v edits ∷ []) }
{}

/// Calls that publish edits one after the other publish all of them in order.
pub fn edits_join()
    ensures publishes { (whole : Path → Bool) (edits more : List Edit) (s0 s1 s : State) → HasPublishedIn whole edits s0 s1 → PublishesIn whole more s1 s → PublishesIn whole (edits ++ more) s0 s }
    ensures published { (whole : Path → Bool) (edits more : List Edit) (s0 s1 s : State) → HasPublishedIn whole edits s0 s1 → HasPublishedIn whole more s1 s → HasPublishedIn whole (edits ++ more) s0 s }
{}

/// What is published in a region is published in each part of it. So edits that come from several stages
/// join in a region outside all of these.
pub fn edits_hold_in_parts()
    ensures publishes { (whole part : Path → Bool) (edits : List Edit) (s0 s : State) → IsPartOf part whole → PublishesIn whole edits s0 s → PublishesIn part edits s0 s }
    ensures published { (whole part : Path → Bool) (edits : List Edit) (s0 s : State) → IsPartOf part whole → HasPublishedIn whole edits s0 s → HasPublishedIn part edits s0 s }
    ensures settled { (whole part : Path → Bool) (edits : List Edit) (s0 s : State) → IsPartOf part whole → HasSettledIn whole edits s0 s → HasSettledIn part edits s0 s }
{}

/// What is shown at a root and below it: edits there are edits of that, and what happens elsewhere
/// leaves it. Views that are alike there show the same there.
pub fn roots_show_their_own()
    ensures alike { (root : Path) (v w : View) → AgreeIn (at_or_below root) v w → under root v ≡ under root w }
    ensures nested { (root more : Path) (v : View) → under more (under root v) ≡ under (root ++ more) v }
    ensures edits { (root : Path) (v : View) (edits : List Edit) → under root (view_after v (edits_under root edits)) ≡ view_after (under root v) edits }
    ensures edited_elsewhere { (root : Path) (v : View) (e : Edit) → below root e.at ≡ None → below e.at root ≡ None → under root (edited v e) ≡ under root v }
    ensures moved_elsewhere { (root old new : Path) (v : View) → below root old ≡ None → below old root ≡ None → below root new ≡ None → below new root ≡ None → under root (moved_view v old new) ≡ under root v }
    ensures outside { (stage root : Path) → below stage root ≡ None → below root stage ≡ None → IsOutside stage (at_or_below root) }
{}
