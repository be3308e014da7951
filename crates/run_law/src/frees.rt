// What a worker is at when it has freed all that it held.
ghost use Rattle.std.specs.Prelude.{◌≡◌, ◌<◌, ℕ, Bool, true, false, List, [], length, slice_get, Option, Some, None};
ghost use Rattle.std.specs.List.{slice_index_or};
ghost use Rattle.scripts.specs.declared.outline.ModuleOutline.{ModuleOutline};
ghost use Rattle.scripts.specs.declared.outline.Outline.{Outline};
ghost use Rattle.scripts.specs.declared.script_place.ScriptPlace.TheVariants.{Fetching, Reading};
ghost use Rattle.scripts.specs.ScriptPlaces.{rest_of};
ghost use Rattle.event_core.specs.Standing.{Course, after_free, off_course, on_course};
ghost use Rattle.scripts.specs.Outlines.{is_empty};

/// A law: a worker that frees all its names, in whatever order, is at what the last free alone would have led to. Freed while a file is
/// to be fetched, the module may end for that file; freed while files are read, it may end for its classpath. Does nothing. Project rule.
pub fn last_free_decides()
    ensures last { (o : Outline) (there later : List Bool) (held : List ℕ) (course : Course)
        → is_empty held ≡ false
        → after_free o later [] (after_free o there held course) ≡ after_free o later [] course }
    ensures fetching { (o : Outline) (m : ModuleOutline) (number at : ℕ) (answered : Option ℕ)
        (there : List Bool) → slice_get o.modules number ≡ Some m → at < length m.fetch
        → after_free o there [] (on_course number (rest_of m (Fetching at)) answered)
        ≡ off_course number (Some (slice_index_or m.fetch at 0)) false }
    ensures reading { (o : Outline) (m : ModuleOutline) (number at : ℕ) (answered : Option ℕ)
        (there : List Bool) → slice_get o.modules number ≡ Some m → at < length m.reads
        → after_free o there [] (on_course number (rest_of m (Reading at)) answered)
        ≡ off_course number None true }
{}
