// Laws of what entries are that were gathered one after another.
ghost use Rattle.std.specs.Prelude.{◌≡◌, ◌≤◌, ◌+◌, ℕ, List, [], ◌∷◌, ◌++◌, length, map, slice_get, None, Some, false};
ghost use Rattle.mvn_shared.specs.Files.{Files, file_at};
ghost use Rattle.goal_types.specs.declared.goal.OwnBytes.{OwnBytes};
ghost use Rattle.goal_types.specs.declared.goal.PathEntry.{PathEntry};
ghost use Rattle.build_core.specs.OneThread.{bytes_len, entries_len, name_of, origin_bytes, path_entry};
ghost use Rattle.build_core.specs.declared.plan.Entry.{Entry};
ghost use Rattle.build_core.specs.declared.plan.Plan.{Plan};
ghost use Rattle.build_core.specs.declared.plan.PlanModule.{PlanModule};
ghost use Rattle.scripts.specs.Outlines.{is_listed};
ghost use Rattle.run_law.specs.Gathered.{files_before};
ghost use Rattle.crew_turns.specs.Parts.{IsPart, place_before};

/// A law: entries that are gathered in order, each with the bytes that it has by the definition, are the first so many of the classpath,
/// and at last all of it. With one entry more they have at most the bytes of all; so where that is beyond the limit, all are. Does
/// nothing. Introduction to the Dependency Mechanism; project rule for the limit.
pub fn entries_are_gathered()
    ensures begun { (plan : Plan) (files : Files) (outputs : List (List OwnBytes))
        (entries : List Entry) → IsPart plan files outputs entries 0 [] }
    ensures more { (plan : Plan) (files : Files) (outputs : List (List OwnBytes))
        (entries : List Entry) (at : ℕ) (e : Entry) (paths : List PathEntry)
        → slice_get entries at ≡ Some e → IsPart plan files outputs entries at paths
        → IsPart plan files outputs entries (at + 1)
        (paths ++ path_entry plan files outputs e ∷ []) }
    ensures all { (plan : Plan) (files : Files) (outputs : List (List OwnBytes))
        (entries : List Entry) (paths : List PathEntry)
        → IsPart plan files outputs entries (length entries) paths
        → paths ≡ map (path_entry plan files outputs) entries }
    ensures within { (plan : Plan) (files : Files) (outputs : List (List OwnBytes))
        (entries : List Entry) (at : ℕ) (e : Entry) (paths : List PathEntry)
        → slice_get entries at ≡ Some e → IsPart plan files outputs entries at paths
        → entries_len paths + bytes_len (origin_bytes plan files outputs e.origin)
        ≤ entries_len (map (path_entry plan files outputs) entries) }
{}

/// A law: the first entry that comes from a file decides whether the file is read. Where there is one among those that were gathered, it has
/// the file's bytes, so they are copied; where there is none, the file isn't among those that were read. Does nothing. Project rule.
pub fn first_entry_decides()
    ensures again { (plan : Plan) (files : Files) (outputs : List (List OwnBytes)) (file : ℕ)
        (entries : List Entry) (count before : ℕ) (paths : List PathEntry) (p : PathEntry)
        → place_before entries count file ≡ Some before
        → IsPart plan files outputs entries count paths → slice_get paths before ≡ Some p
        → p.bytes ≡ file_at files (name_of plan file) }
    ensures fresh { (m : PlanModule) (file count : ℕ)
        → place_before m.entries count file ≡ None
        → is_listed file (files_before m count) ≡ false }
{}
