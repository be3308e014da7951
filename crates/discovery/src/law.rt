//! A law of discovery: its POMs are those of the modules that POMs list, each after the one that lists it.

ghost use Rattle.std.specs.Prelude.{◌≡◌, Ok};
ghost use Rattle.std.specs.Prelude.{List as Items};
ghost use Rattle.pom_source.specs.Worlds.{World};
ghost use Rattle.pom_source.specs.declared.found.Given as givens;
ghost use Rattle.discovery.specs.Discovery.{discovered};
ghost use Rattle.discovery.specs.Listing.{IsProject};
ghost use Rattle.discovery.specs.declared.pom.ModulePom as poms;

/// A law of `discover`: what it gives is a project. It begins with `pom.xml`; after each POM stand those of the modules
/// that it lists, each with its own before the next; no POM stands there twice, and there are 1,024 at most. It does
/// nothing when it runs. Guide to Working with Multiple Modules; the limit is a project rule.
pub fn modules_are_listed()
    ensures { (world : World) (given : givens.Given) (found : Items poms.ModulePom)
        → discovered world given ≡ Ok found → IsProject world given found }
{}
