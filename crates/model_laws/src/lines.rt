//! Laws of what a POM builds on, said above the definition that `lineage` equals. Each is a function that does nothing when it runs.

ghost use Rattle.std.specs.Prelude.{◌≡◌, ℕ, true, List, Option, None, Ok};
ghost use Rattle.mvn_base.specs.declared.machine.Machine as machines;
ghost use Rattle.mvn_base.specs.declared.machine.Pair as pairs;
ghost use Rattle.mvn_base.specs.declared.refusal.PomId as poms;
ghost use Rattle.model_types.specs.declared.model.RawModel as models;
ghost use Rattle.interpolation.specs.Filling.{fill};
ghost use Rattle.pom_source.specs.Worlds.{World};
ghost use Rattle.pom_source.specs.declared.found.Given as givens;
ghost use Rattle.lineage.specs.Lineage.{lineage};
ghost use Rattle.lineage.specs.Reading.{read};
ghost use Rattle.lineage.specs.declared.joined.Joined as joins;
ghost use Rattle.model_laws.specs.Lines.{IsLineage, is_stated};

/// A law of lineages: what a POM builds on is there exactly if there is a line of POMs, each the parent that the one before it names,
/// up to one without a parent, 32 at most and each once; and it is what these come to, each with its active profiles, from the super
/// POM down. POM Reference, "Inheritance".
pub fn parents_in_line()
    ensures line { (world : World) (given : givens.Given) (pom : models.RawModel)
        → (joined : joins.Joined) → lineage world given pom ≡ Ok joined
        → IsLineage world given pom joined }
    ensures there { (world : World) (given : givens.Given) (pom : models.RawModel)
        → (joined : joins.Joined) → IsLineage world given pom joined
        → lineage world given pom ≡ Ok joined }
{}

/// A law of coordinates: a POM without a parent states a group and a version; so does what any POM that was read builds on, and it
/// does after its texts are filled. POM Reference, "Maven Coordinates".
pub fn coordinates_are_stated()
    ensures alone { (pom : poms.PomId) (bytes : List ℕ) (raw : models.RawModel)
        → read pom bytes ≡ Ok raw → raw.parent ≡ None → is_stated raw ≡ true }
    ensures joined { (world : World) (given : givens.Given) (pom : poms.PomId)
        → (bytes : List ℕ) (raw : models.RawModel) (joined : joins.Joined)
        → read pom bytes ≡ Ok raw → lineage world given raw ≡ Ok joined
        → is_stated joined.model ≡ true }
    ensures filled { (model full : models.RawModel) (basedir : Option (List ℕ))
        → (machine : machines.Machine) (defines : List pairs.Pair)
        → fill model basedir machine defines ≡ Ok full → is_stated model ≡ true
        → is_stated full ≡ true }
{}
