// What is read, and how much, while the entries of a classpath are gathered one after another.
ghost use Rattle.std.specs.Prelude.{◌≡◌, ◌≤◌, ◌+◌, ℕ, Bool, List, [], ◌∷◌, ◌++◌, length, map, slice_get, take, Some, true, false};
ghost use Rattle.std.specs.List.{list_all};
ghost use Rattle.mvn_shared.specs.Files.{Files};
ghost use Rattle.goal_types.specs.declared.goal.Need.{Need};
ghost use Rattle.goal_types.specs.declared.goal.OwnBytes.{OwnBytes};
ghost use Rattle.goal_types.specs.declared.goal.PathEntry.{PathEntry};
ghost use Rattle.build_core.specs.OneThread.{bytes_len, classpath, entries_len, path_entry};
ghost use Rattle.build_core.specs.declared.plan.Entry.{Entry};
ghost use Rattle.build_core.specs.declared.plan.Plan.{Plan};
ghost use Rattle.build_core.specs.declared.plan.PlanModule.{PlanModule};
ghost use Rattle.event_core.specs.declared.entry.RunEntry.{RunEntry};
ghost use Rattle.scripts.specs.Outlines.{file_of, files_read, is_listed};
ghost use Rattle.event_core.specs.Worlds.{is_told};
ghost use Rattle.run_law.specs.Hands.{AreBare};
ghost use Rattle.run_law.specs.Gathered.{files_before, needed_of, with_file};

/// A law: the files of a classpath are read by its entries in order, each once. The file of an entry that no entry before it comes from
/// is the next to be read, and after the last entry all are read. Does nothing. Project rule.
pub fn files_come_by_entries()
    ensures more { (m : PlanModule) (at : ℕ) (e : Entry) → slice_get m.entries at ≡ Some e
        → files_before m (at + 1) ≡ with_file (files_before m at) (file_of e.origin) }
    ensures next { (m : PlanModule) (at file : ℕ) (e : Entry) → slice_get m.entries at ≡ Some e
        → file_of e.origin ≡ Some file → is_listed file (files_before m at) ≡ false
        → slice_get (files_read m) (length (files_before m at)) ≡ Some file }
    ensures last { (m : PlanModule) → files_before m (length m.entries) ≡ files_read m }
{}

/// A law: entries that are gathered have the bytes of all of them so far, which are no more than those of the whole; and those that a goal
/// needs, picked from the whole, are its classpath. Does nothing. Project rule.
pub fn entries_are_summed()
    ensures part { (paths : List PathEntry) (count : ℕ)
        → entries_len (take count paths) ≤ entries_len paths }
    ensures more { (paths : List PathEntry) (path : PathEntry)
        → entries_len (paths ++ path ∷ []) ≡ entries_len paths + bytes_len path.bytes }
    ensures needed { (plan : Plan) (files : Files) (outputs : List (List OwnBytes)) (need : Need)
        (entries : List Entry)
        → needed_of need entries (map (path_entry plan files outputs) entries)
        ≡ classpath plan files outputs need entries }
{}

/// A law: in a log in which each entry carries what it has to, an entry of no worker carries nothing. Does nothing. Project rule.
pub fn skips_carry_nothing()
    ensures { (told : Bool) (log : List RunEntry)
        → list_all (λ (e : RunEntry). is_told told e.event e.carried) log ≡ true → AreBare log }
{}
