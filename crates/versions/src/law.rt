//! A law of requirements: the texts that are read as intervals are exactly those that list them.

ghost use Rattle.std.specs.Prelude.{◌≡◌, ◌↔◌, ℕ, List, Ok};
ghost use Rattle.versions.specs.declared.interval.Interval as interval;
ghost use Rattle.versions.specs.declared.requirement.Requirement.TheVariants.{Soft, Hard};
ghost use Rattle.versions.specs.Requirements.{requirement};
ghost use Rattle.versions.specs.Spelling.{IsSoft, Lists};

/// A law of requirements: a text is read as intervals exactly where it lists them, one written after another with
/// commas between, spaces round each and no crossed bounds; and as a version exactly where it has a byte and no
/// divider. It does nothing when it runs.
pub fn spelled_and_read()
    ensures intervals { (text : List ℕ) (all : List interval.Interval) →
        (requirement text ≡ Ok (Hard all)) ↔ Lists text all }
    ensures version { (text version : List ℕ) →
        (requirement text ≡ Ok (Soft version)) ↔ IsSoft text version }
{}
