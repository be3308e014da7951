//! The elements of a plugin's configuration, at every depth.

ghost use Rattle.std.specs.Prelude.{◌≡◌, ℕ, List, IfOk};
ghost use Rattle.std.specs.Option.{option_copied};
ghost use Rattle.mvn_base.specs.declared.setting.Setting as settings;
ghost use Rattle.pom_model.specs.AnyNames.{configuration, setting_of, settings_within};

use crate::element::{at, child};
use mvn_base::Setting;
use mvn_shared::{List, Mem, Shared};
use pom_text::{DEPTH, Node};
use std::alloc::Global;

// An element with its own text as it stands, and these in it.
fn setting(node: &Node, children: List<Setting>) -> Mem<Setting>
    ensures { (further : List ℕ → List settings.Setting) → children ≡ further node.now.children →
        IfOk result (λ setting. setting ≡ setting_of further node.now) }
{
    let name = node.name.value().clone()?;
    let text = node.text.clone()?;
    Ok(Setting {
        name,
        text,
        children,
    })
}

// Elements and all that is in them, so deep.
fn settings_within(alloc: Global, depth: u32, nodes: &[Node], ks: &[u32]) -> Mem<List<Setting>>
    ensures { IfOk result (λ settings. settings ≡ settings_within depth nodes.now ks.now) }
{
    let mut settings = List::new(alloc);
    if depth == 0 {
        return Ok(settings);
    }
    for k in ks {
        if let Some(node) = at(nodes, *k) {
            let children = settings_within(alloc, depth - 1, nodes, node.children.as_slice())?;
            settings.push(setting(node, children)?)?;
        }
    }
    Ok(settings)
}

// The elements of a configuration, or of none.
#[tactic(auto, unfolding(crate::specs::AnyNames::configuration))]
fn settings_in(alloc: Global, nodes: &[Node], node: Option<&Node>) -> Mem<List<Setting>>
    ensures { IfOk result (λ value. value ≡ configuration nodes.now (option_copied node.entry)) }
{
    match child(nodes, node, "configuration") {
        Some(node) => settings_within(alloc, DEPTH, nodes, node.children.as_slice()),
        None => Ok(List::new(alloc)),
    }
}

/// The elements of a configuration, or of none. Costs all of them.
pub fn configuration(
    alloc: Global,
    nodes: &[Node],
    node: Option<&Node>,
) -> Mem<Shared<List<Setting>>>
    ensures { IfOk result (λ value. value ≡ configuration nodes.now (option_copied node.entry)) }
{
    let settings = settings_in(alloc, nodes, node)?;
    Shared::new(alloc, settings)
}
