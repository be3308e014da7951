//! Whether two modules have the same plugins, so that they can share what is built of them.

ghost use Rattle.std.specs.Prelude.{◌≡◌, drop};
ghost use Rattle.model_steps.specs.Alike.{are_alike, begins_alike, has_none, is_alike, is_base_alike, is_plain, is_same, is_stated_alike};

use model_types::{BuildBase, Plugin};
use mvn_shared::{Shared, Text};

// Whether two texts are stated alike.
fn is_stated_alike(a: &Option<Text>, b: &Option<Text>) -> bool
    ensures { result ≡ is_stated_alike a.now b.now }
{
    match a {
        Some(a) => match b {
            Some(b) => a.as_str() == b.as_str(),
            None => false,
        },
        None => b.is_none(),
    }
}

// Whether a list has no items.
fn has_none<T>(items: &[T]) -> bool
    ensures { result ≡ has_none items.now }
{
    match items {
        [] => true,
        [_, ..] => false,
    }
}

// Whether two answers to one question are equal.
fn is_same(a: bool, b: bool) -> bool
    ensures { result ≡ is_same a b }
{
    if a { b } else { !b }
}

// Whether a plugin has a name and a version alone.
fn is_plain(plugin: &Plugin) -> bool
    ensures { result ≡ is_plain plugin.now }
{
    has_none(plugin.dependencies.as_slice())
        && (has_none(plugin.executions.as_slice()) && has_none(plugin.configuration.as_slice()))
}

// Whether two plugins are plain and equal.
fn is_alike(a: &Plugin, b: &Plugin) -> bool
    ensures { result ≡ is_alike a.now b.now }
{
    if !is_plain(a) || !is_plain(b) {
        return false;
    }
    a.artifact.as_str() == b.artifact.as_str()
        && (a.group.as_str() == b.group.as_str()
            && (is_stated_alike(&a.version, &b.version) && is_same(a.inherited, b.inherited)))
}

// Whether a list begins with a plugin that is plain and equal to another.
fn begins_alike(plugin: &Shared<Plugin>, rest: &[Shared<Plugin>]) -> bool
    ensures { result ≡ begins_alike plugin.now rest.now }
{
    match rest {
        [first, ..] => is_alike(plugin, first),
        [] => false,
    }
}

// What is after the first of some plugins.
#[tactic(auto, using(crate::proofs::Likeness::none_behind))]
fn behind_first(plugins: &[Shared<Plugin>]) -> &[Shared<Plugin>]
    ensures { result.now ≡ drop 1 plugins.now }
{
    if plugins.len() == 0 {
        return plugins;
    }
    let (_, rest) = plugins.split_at(1);
    rest
}

// Whether the plugins of two lists are plain and equal, one by one.
#[tactic(auto, using(crate::proofs::Likeness::one_unlike, crate::proofs::Likeness::one_alike, crate::proofs::Likeness::none_left))]
fn are_alike(a: &[Shared<Plugin>], b: &[Shared<Plugin>]) -> bool
    ensures { result ≡ are_alike a.now b.now }
{
    let mut rest = b;
    for plugin in a {
        if !begins_alike(plugin, rest) {
            return false;
        }
        rest = behind_first(rest);
    }
    has_none(rest)
}

/// Whether a module has the plugins of another, and these have names and versions alone; else `false`. Costs the
/// plugins up to the first that isn't alike.
pub(crate) fn is_base_alike(a: &BuildBase, b: &BuildBase) -> bool
    ensures { result ≡ is_base_alike a.now b.now }
{
    are_alike(a.managed_plugins.as_slice(), b.managed_plugins.as_slice())
        && are_alike(a.plugins.as_slice(), b.plugins.as_slice())
}
