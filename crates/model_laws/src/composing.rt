//! Laws of inheritance, profiles, managed dependencies and plugins, and bindings.

ghost use Rattle.std.specs.Prelude.{◌≡◌, ℕ, true, List, [], ◌++◌, Some};
ghost use Rattle.model_types.specs.declared.dependency.Dependency as dependencies;
ghost use Rattle.model_types.specs.declared.model.RawModel as models;
ghost use Rattle.model_types.specs.declared.plugin.Plugin as plugins;
ghost use Rattle.model_merge.specs.Keyed.{item_of};
ghost use Rattle.model_merge.specs.Keys.{key_of_dependency, key_of_plugin};
ghost use Rattle.model_merge.specs.Merging.{merged_plugin, settled_plugins};
ghost use Rattle.inheritance.specs.Inherit.{inherit};
ghost use Rattle.inheritance.specs.Placing.{inheritable, inherited_plugins};
ghost use Rattle.managed_deps.specs.Managed.{apply_one, apply_plugins, first_of_each};
ghost use Rattle.profiles.specs.Injection.{inject, profiles_at};
ghost use Rattle.lifecycle.specs.Bindings.{bound_to, undeclared};
ghost use Rattle.model_laws.specs.Injected.{HasKeysOfBoth, IsStatedByProfiles};
ghost use Rattle.model_laws.specs.Keys.{IsJoin, each_once};
ghost use Rattle.model_laws.specs.Stated.{IsManagedAlone, IsStatedFirst, Managed, Stays, managed_list, names, settled_model};

/// A law of inheritance: a property, a dependency and a managed dependency that a child states is the child's, and so are its group and
/// its version; under other keys stands what its parent states. POM Reference, "Inheritance".
pub fn child_wins()
    ensures { (child parent : models.RawModel) → IsStatedFirst child parent (inherit child parent) }
{}

/// A law of inheritance: the names of a POM's plugins are its own and those of the plugins that its parent passes on, each once. POM
/// Reference, "Plugins".
pub fn inherited_names()
    ensures { (child parent : List plugins.Plugin)
        → IsJoin key_of_plugin (inheritable parent) child (inherited_plugins child parent) }
{}

/// A law of profiles: a POM without active profiles has its own lists, of equal keys the last, and its own plugins, each settled. POM
/// Reference, "Profiles".
pub fn no_profile_settles()
    ensures { (raw : models.RawModel) → inject raw [] ≡ settled_model raw }
{}

/// A law of profiles: a property, a dependency and a managed dependency that an active profile states is the profile's, of several the
/// last one's; under other keys stands what the POM states. POM Reference, "Profiles"; which profile counts is a project rule.
pub fn profile_wins()
    ensures { (raw : models.RawModel) (places : List ℕ)
        → IsStatedByProfiles raw (profiles_at raw.profiles places) (inject raw places) }
{}

/// A law of profiles: the keys of a POM's properties, dependencies, managed dependencies, plugins and managed plugins are its own and
/// those of its active profiles, each once. POM Reference, "Profiles".
pub fn profiles_add_keys()
    ensures { (raw : models.RawModel) (places : List ℕ)
        → HasKeysOfBoth raw (profiles_at raw.profiles places) (inject raw places) }
{}

/// A law of managed dependencies: a declaration keeps its key, and the version and the scope that it states. Introduction to the
/// Dependency Mechanism, "Dependency Management".
pub fn stated_version_stays()
    ensures key { (set : Managed) (own : dependencies.Dependency)
        → key_of_dependency (apply_one set own) ≡ key_of_dependency own }
    ensures version { (set : Managed) (own : dependencies.Dependency)
        → Stays own.version (apply_one set own).version }
    ensures scope { (set : Managed) (own : dependencies.Dependency)
        → Stays own.scope (apply_one set own).scope }
{}

/// A law of what is managed: its list has each key once, and gives the same set if it is managed again. Introduction to the Dependency
/// Mechanism, "Dependency Management".
pub fn managed_once()
    ensures once { (entries : List dependencies.Dependency)
        → each_once key_of_dependency (managed_list entries) ≡ true }
    ensures again { (entries : List dependencies.Dependency)
        → first_of_each (managed_list entries) ≡ first_of_each entries }
{}

/// A law of managed plugins: the names of declared plugins stay as they are, in order, each once. POM Reference, "Plugin Management".
pub fn managed_plugins_add_none()
    ensures { (declared managed : List plugins.Plugin)
        → names (apply_plugins declared managed) ≡ names (settled_plugins declared) }
{}

/// A law of bindings: the names of a module's plugins are those of the declared ones in order, and then those of the other bound ones;
/// each name stands once; and a bound plugin that isn't declared lies below its managed entry. Introduction to the Build Lifecycle.
pub fn declared_keep_order()
    ensures order { (declared managed bound : List plugins.Plugin)
        → names (bound_to declared managed bound)
        ≡ names (settled_plugins declared) ++ names (undeclared declared bound) }
    ensures once { (declared managed bound : List plugins.Plugin)
        → IsJoin key_of_plugin declared bound (bound_to declared managed bound) }
    ensures managed { (declared managed bound : List plugins.Plugin)
        → (entry binding : plugins.Plugin)
        → (alone : IsManagedAlone declared managed bound entry binding)
        → item_of key_of_plugin (bound_to declared managed bound) alone.name
        ≡ Some (merged_plugin entry binding) }
{}
