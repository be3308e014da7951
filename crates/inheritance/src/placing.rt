//! The order of a child's plugins among those that it inherits.

ghost use Rattle.std.specs.Prelude.{◌≡◌, List as Items, [], ◌∷◌, ◌++◌, ◌||◌, map, filter, flat_map, Some, None, if◌then◌else◌, IfOk, OnOk};
ghost use Rattle.std.specs.HashSet.{contains};
ghost use Rattle.std.specs.List.{list_any};
ghost use Rattle.mvn_base.specs.declared.key.Key as names;
ghost use Rattle.model_types.specs.declared.plugin.Plugin as plugins;
ghost use Rattle.model_merge.specs.Keyed.{overlaid, same_key, settled};
ghost use Rattle.model_merge.specs.Keys.{key_of_plugin};
ghost use Rattle.model_merge.specs.Merging.{merged_plugin, settled_plugins};
ghost use Rattle.inheritance.specs.Placing.{handed_on, inheritable, inherited_plugins, is_shared, leading, placed};
ghost use Rattle.inheritance.specs.Others.{Stands, HasKeys, listed};

use crate::handing::handed;
use model_merge::{Keyed, each_settled, merged_over, settled, settled_plugins};
use model_types::Plugin;
use mvn_base::Key;
use mvn_shared::{List, Mem, Shared};
use std::alloc::Global;
use std::collections::{HashMap, HashSet};

// The plugins that a parent passes on.
fn inheritable(alloc: Global, parent: &[Shared<Plugin>]) -> Mem<List<Shared<Plugin>>>
    ensures { IfOk result (λ list. list ≡ inheritable parent.now) }
{
    let mut list = List::new(alloc);
    for plugin in settled_plugins(alloc, parent)?.into_vec() {
        if plugin.inherited {
            list.push(handed(alloc, plugin)?)?;
        }
    }
    Ok(list)
}

// One key more.
fn add_key(alloc: Global, keys: &mut HashSet<Key>, plugin: &Shared<Plugin>) -> Mem<()>
    ensures { OnOk result ((q : names.Key) →
        contains same_key keys.new q
        ≡ (same_key (key_of_plugin plugin.now) q || contains same_key keys.old q)) }
{
    keys.insert(plugin.key(alloc)?)?;
    Ok(())
}

// The keys of plugins.
fn keys_of(alloc: Global, plugins: &[Shared<Plugin>]) -> Mem<HashSet<Key>>
    ensures { IfOk result (HasKeys plugins.now) }
{
    let mut keys = HashSet::new(alloc);
    for plugin in plugins {
        add_key(alloc, &mut keys, plugin)?;
    }
    Ok(keys)
}

// The child's plugins that its parent hasn't: those in front of each shared one, and those that no shared one follows.
#[derive(Drop)]
struct Others {
    before: HashMap<Key, Vec<Shared<Plugin>>>,
    last: Vec<Shared<Plugin>>,
}

// Plugins, one list after the other.
fn appended(first: Vec<Shared<Plugin>>, second: Vec<Shared<Plugin>>) -> Mem<Vec<Shared<Plugin>>>
    ensures { IfOk result (λ list. list.items ≡ first.items ++ second.items) }
{
    let mut list = first;
    for plugin in second {
        list.push(plugin)?;
    }
    Ok(list)
}

// Plugins more, under a key.
fn add_before(
    alloc: Global,
    before: &mut HashMap<Key, Vec<Shared<Plugin>>>,
    key: Key,
    plugins: Vec<Shared<Plugin>>,
) -> Mem<()>
    ensures { OnOk result ((q : names.Key) →
        listed before.new q
        ≡ (if same_key key q then listed before.old q ++ plugins.items else listed before.old q)) }
{
    let list = match before.remove(&key) {
        Some(list) => list,
        None => Vec::new(alloc),
    };
    before.insert(key, appended(list, plugins)?)?;
    Ok(())
}

impl Others {
    // A shared plugin follows: the last ones stand in front of it.
    fn before_shared(self, alloc: Global, key: Key) -> Mem<Others>
        ensures before { IfOk result (λ others. (q : names.Key) →
            listed others.before q
            ≡ (if same_key key q then listed self.before q
            ++ self.last.items else listed self.before q)) }
        ensures last { IfOk result (λ others. others.last.items ≡ []) }
    {
        let Others { mut before, last } = self;
        add_before(alloc, &mut before, key, last)?;
        Ok(Others {
            before,
            last: Vec::new(alloc),
        })
    }

    // One more that isn't shared.
    fn with(self, plugin: Shared<Plugin>) -> Mem<Others>
        ensures before { IfOk result (λ others. others.before ≡ self.before) }
        ensures last { IfOk result (λ others. others.last.items ≡ self.last.items ++ plugin ∷ []) }
    {
        let Others { before, mut last } = self;
        last.push(plugin)?;
        Ok(Others { before, last })
    }

    // The child's next plugin.
    fn next(self, alloc: Global, keys: &HashSet<Key>, plugin: Shared<Plugin>) -> Mem<Others>
        ensures { (parent done : Items plugins.Plugin) → HasKeys parent keys.now →
            Stands parent done self.before self.last.items
            → IfOk result (λ others.
            Stands parent (done ++ plugin ∷ []) others.before others.last.items) }
    {
        let key = plugin.key(alloc)?;
        if keys.contains(&key) {
            return self.before_shared(alloc, key);
        }
        self.with(plugin)
    }
}

// Where the child's others stand.
fn others_of(alloc: Global, parent: &[Shared<Plugin>], child: List<Shared<Plugin>>) -> Mem<Others>
    ensures { IfOk result (λ others. Stands parent.now child others.before others.last.items) }
{
    let keys = keys_of(alloc, parent)?;
    let mut others = Others {
        before: HashMap::new(alloc),
        last: Vec::new(alloc),
    };
    for plugin in child.into_vec() {
        others = others.next(alloc, &keys, plugin)?;
    }
    Ok(others)
}

// Copies of plugins, after a list.
fn push_copies(list: &mut List<Shared<Plugin>>, plugins: &[Shared<Plugin>]) -> Mem<()>
    ensures { OnOk result (list.new ≡ list.old ++ plugins.now) }
{
    for plugin in plugins {
        list.push(plugin.share()?)?;
    }
    Ok(())
}

// Copies of what stands under a key, after a list.
fn push_listed(
    list: &mut List<Shared<Plugin>>,
    before: &HashMap<Key, Vec<Shared<Plugin>>>,
    key: &Key,
) -> Mem<()>
    ensures { OnOk result (list.new ≡ list.old ++ listed before.now key.now) }
{
    match before.get(key) {
        Some(plugins) => push_copies(list, plugins.as_slice()),
        None => Ok(()),
    }
}

// A parent's plugin, after the child's others that stand in front of it.
fn push_placed(
    alloc: Global,
    list: &mut List<Shared<Plugin>>,
    before: &HashMap<Key, Vec<Shared<Plugin>>>,
    plugin: Shared<Plugin>,
) -> Mem<()>
    ensures { OnOk result (list.new ≡ (list.old ++ listed before.now (key_of_plugin plugin))
        ++ plugin ∷ []) }
{
    let key = plugin.key(alloc)?;
    push_listed(list, before, &key)?;
    list.push(plugin)
}

// A parent's plugins, each after the child's others that stand in front of it.
fn in_place(
    alloc: Global,
    before: &HashMap<Key, Vec<Shared<Plugin>>>,
    parent: List<Shared<Plugin>>,
) -> Mem<List<Shared<Plugin>>>
    ensures { IfOk result (λ list.
        list ≡ flat_map (λ p. listed before.now (key_of_plugin p) ++ p ∷ []) parent) }
{
    let mut list = List::new(alloc);
    for plugin in parent.into_vec() {
        push_placed(alloc, &mut list, before, plugin)?;
    }
    Ok(list)
}

// The plugins of a child that are each settled, and of its parent.
fn placed(
    alloc: Global,
    child: &[Shared<Plugin>],
    parent: &[Shared<Plugin>],
) -> Mem<List<Shared<Plugin>>>
    ensures { IfOk result (λ list. list
        ≡ placed (settled key_of_plugin child.now) (inheritable parent.now)) }
{
    let parents = inheritable(alloc, parent)?;
    let Others { before, last } = others_of(alloc, parents.as_slice(), settled(alloc, child)?)?;
    let merged = merged_over(alloc, child, parents)?;
    let mut list = in_place(alloc, &before, merged)?;
    push_copies(&mut list, last.as_slice())?;
    Ok(list)
}

/// The plugins of a child and of its parent, each settled: in the parent's order those that it passes on, each merged
/// with the child's of its name, and the child's others in front of the shared one that follows them, or at the end.
/// Costs both, on the average. POM Reference, "Plugins", of `inherited`; the places are a project rule.
#[tactic(auto, unfolding(crate::specs::Placing::inherited_plugins), using(crate::proofs::Alone::plugins_alone))]
pub fn inherited_plugins(
    alloc: Global,
    child: &[Shared<Plugin>],
    parent: &[Shared<Plugin>],
) -> Mem<List<Shared<Plugin>>>
    ensures { IfOk result (λ list. list ≡ inherited_plugins child.now parent.now) }
{
    if child.len() == 0 {
        return inheritable(alloc, parent);
    }
    placed(alloc, each_settled(alloc, child)?.as_slice(), parent)
}
