// Projects whose modules are known by their own coordinates, and one whose module isn't.
ghost use Rattle.std.specs.Prelude.{◌≡◌, ℕ, [], ◌∷◌, codes, None, Some, true, false};
ghost use Rattle.std.specs.Prelude.{List as Items};
ghost use Rattle.mvn_shared.specs.Files.{Files, file_at};
ghost use Rattle.model_resolver.specs.Finding.{find_pom, found_in_repository};
ghost use Rattle.call_laws.specs.RerunsApart.{are_said};
ghost use Rattle.call_laws.specs.Samples.{model, named, pom};

/// An example: two modules whose POMs say `g:a:1` and `g:b:1`, and whose effective coordinates are these, are known in
/// their project. Does nothing.
pub fn known_modules()
    ensures { are_said (pom (codes "a") (codes "1") ∷ pom (codes "b") (codes "1") ∷ [])
        (model (codes "a") ∷ model (codes "b") ∷ []) ≡ true }
{}

/// An example: a module whose POM says the version `${v}`, and whose effective version is `1`, isn't known by `g:a:1`
/// in its project. So what `g:a:1` leads to may change once it is installed: here from nothing to that file. Does
/// nothing. POM Reference, "Maven Coordinates"; Maven's repository layout.
pub fn renamed_module()
    ensures unknown { are_said (pom (codes "a") (codes "${v}") ∷ []) (model (codes "a") ∷ [])
        ≡ false }
    ensures before { (start : Files) → file_at start (codes "g/a/1/a-1.pom") ≡ None
        → find_pom (pom (codes "a") (codes "${v}") ∷ []) start start (named (codes "a") (codes "1"))
        ≡ None }
    ensures installed { (start files : Files) (bytes : Items ℕ)
        → file_at files (codes "g/a/1/a-1.pom") ≡ Some bytes
        → find_pom (pom (codes "a") (codes "${v}") ∷ []) files start (named (codes "a") (codes "1"))
        ≡ Some (found_in_repository (named (codes "a") (codes "1")) bytes) }
{}
