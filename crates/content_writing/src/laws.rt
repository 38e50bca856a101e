//! A law of the definitions. The function computes nothing, and its clause is the law.
ghost use Rattle.std.specs.Prelude.{◌≡◌, Option};
ghost use Rattle.folder_spec.specs.Event.{Told};
ghost use Rattle.folder_spec.specs.Path.{Path};
ghost use Rattle.folder_spec.specs.View.{Found};
ghost use Rattle.content_writing.specs.Content.{Coming, Stands, still_coming};

/// The law that what is still to come of a content is what it tells by what stands at its path.
pub fn what_stands_is_to_come()
    ensures { (reads : Option Path) (told : Option Told) (found : Found) (coming : Found → Option Coming) → Stands reads told found → still_coming reads told coming ≡ coming found }
{}
