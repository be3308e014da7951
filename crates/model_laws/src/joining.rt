//! Laws of lists, executions and plugins that are joined.

ghost use Rattle.std.specs.Prelude.{◌≡◌, List};
ghost use Rattle.model_types.specs.declared.plugin.Execution as executions;
ghost use Rattle.model_types.specs.declared.plugin.Plugin as plugins;
ghost use Rattle.model_merge.specs.Keyed.{with_others};
ghost use Rattle.model_merge.specs.Merging.{merged_plugin, settled_plugin};
ghost use Rattle.model_laws.specs.Keys.{HasFirst, HasMerged, IsJoin, IsSettled, merged_executions};
ghost use Rattle.model_merge.specs.Keys.{key_of_execution};

/// A law of lists whose items are told apart by a key: a list joined with the others of a second has the keys of both, each once, and
/// under a key the last of the first list's, or else the last of the second's.
use model_merge::Keyed;

pub fn lists_join<T: Keyed>()
    ensures keys { (first second : List T)
        → IsJoin T.key_of first second (with_others T.key_of first second) }
    ensures found { (first second : List T)
        → HasFirst T.key_of first second (with_others T.key_of first second) }
{}

/// A law of executions: those of a plugin and of the one that it builds on have the ids of both, each once, and under an id what the
/// child and its parent have, merged if both have one. POM Reference, "Executions".
pub fn executions_join()
    ensures ids { (child parent : List executions.Execution)
        → IsJoin key_of_execution parent child (merged_executions child parent) }
    ensures found { (child parent : List executions.Execution)
        → HasMerged child parent (merged_executions child parent) }
{}

/// A law of plugins: a settled one has each dependency, execution and goal once, and stays as it is if it is settled again; two settled
/// ones merge to a settled one. Project rule.
pub fn settled_stays()
    ensures once { (plugin : plugins.Plugin) → IsSettled (settled_plugin plugin) }
    ensures stays { (plugin : plugins.Plugin) → IsSettled plugin
        → settled_plugin plugin ≡ plugin }
    ensures merged { (child parent : plugins.Plugin) → IsSettled child → IsSettled parent
        → IsSettled (merged_plugin child parent) }
{}
