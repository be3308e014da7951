//! Laws of classpaths and of the files that are fetched.

ghost use Rattle.std.specs.Prelude.{◌≡◌, ◌≢◌, ℕ, Bool, true, false, [], ◌∷◌, codes, AllPairs, Contains, flat_map};
ghost use Rattle.std.specs.Prelude.{List as Items};
ghost use Rattle.mvn_base.specs.declared.gav.Gav.{Gav};
ghost use Rattle.classpaths.specs.Classpaths.{classpath, fetch_list, files_of};
ghost use Rattle.classpaths.specs.Example.{leads, tests, web};
ghost use Rattle.classpaths.specs.declared.classpath.Kind.TheVariants.{Compile, Runtime, Test};
ghost use Rattle.classpaths.specs.declared.resolution.Resolved.{Resolved};

/// What is on the compile or the runtime classpath is on the test classpath. Introduction to the Dependency Mechanism,
/// "Dependency Scope".
pub fn test_has_all()
    ensures compile { (winners : Items Resolved) (place : ℕ)
        → Contains (classpath Compile winners) place → Contains (classpath Test winners) place }
    ensures runtime { (winners : Items Resolved) (place : ℕ)
        → Contains (classpath Runtime winners) place → Contains (classpath Test winners) place }
{}

/// No file is fetched twice, and each file of a winner that isn't left out is fetched. Project rule.
pub fn each_file_once()
    ensures once { (is_selected : Gav → Bool) (winners : Items Resolved)
        → AllPairs (λ x y. x ≢ y) (fetch_list is_selected winners) }
    ensures all { (is_selected : Gav → Bool) (winners : Items Resolved) (name : Items ℕ)
        → Contains (flat_map (files_of is_selected) winners) name
        → Contains (fetch_list is_selected winners) name }
{}

/// An example: of `web` there are the jar and the jar of its tests, which have one POM, and `tests` is needed for tests
/// alone.
#[tactic(auto, unfolding(mvn_base::specs::Types::type_rule, mvn_base::specs::FileName::file_name))]
pub fn first_of_two_artifacts()
    ensures compile { classpath Compile (web ∷ leads ∷ tests ∷ []) ≡ 0 ∷ 1 ∷ [] }
    ensures test { classpath Test (web ∷ leads ∷ tests ∷ []) ≡ 0 ∷ 1 ∷ 2 ∷ [] }
    ensures files { fetch_list (λ gav. false) (web ∷ leads ∷ tests ∷ [])
        ≡ codes "g/web/1/web-1.pom" ∷ codes "g/web/1/web-1.jar" ∷ codes "g/web/1/web-1-tests.jar"
        ∷ codes "g/tests/1/tests-1.jar" ∷ [] }
{}
