// What of a module's script is passed over, by the files that are there.
ghost use Rattle.std.specs.Prelude.{◌≡◌, ◌≤◌, ℕ, Bool, List, [], Option};
ghost use Rattle.std.specs.Option.{option_map_or};
ghost use Rattle.scripts.specs.declared.outline.ModuleOutline.{ModuleOutline};
ghost use Rattle.scripts.specs.declared.script_place.ScriptPlace.{ScriptPlace};
ghost use Rattle.scripts.specs.declared.script_place.ScriptPlace.TheVariants.{Fetching, Reading, Unsharing};
ghost use Rattle.scripts.specs.ScriptPlaces.{rest_of, stage_at};
ghost use Rattle.scripts.specs.Scripts.{choice_script, settled};
ghost use Rattle.run_law.specs.Absent.{IsFirstAbsent};

/// A law: the first file of a fetch list that isn't there decides how a script goes on. After the batch's shared
/// locks the batch is freed if there is such a file, and else the reading begins. After the exclusive locks that file
/// is fetched, and likewise after each file that was. From the reading on nothing depends on the files that are
/// there. Does nothing. Project rule.
pub fn absent_files_decide()
    ensures choosing { (m : ModuleOutline) (there : List Bool) (empty : Bool) (found : Option ℕ)
        → IsFirstAbsent there m.fetch 0 found
        → settled there empty (choice_script m)
        ≡ option_map_or (λ at. settled there empty (rest_of m Unsharing)) found
        (settled there empty (rest_of m (Reading 0))) }
    ensures fetching { (m : ModuleOutline) (there : List Bool) (empty : Bool) (from : ℕ)
        (found : Option ℕ) → IsFirstAbsent there m.fetch from found
        → settled there empty (rest_of m (Fetching from))
        ≡ option_map_or (λ at. rest_of m (Fetching at)) found
        (settled there empty (rest_of m (Reading 0))) }
    ensures late { (m : ModuleOutline) (place : ScriptPlace) (there : List Bool) (empty : Bool)
        → 4 ≤ stage_at place
        → settled there empty (rest_of m place) ≡ settled [] empty (rest_of m place) }
{}
