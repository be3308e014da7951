//! What a project and a profile may both state, read from an element.

ghost use Rattle.std.specs.Prelude.{◌≡◌, IfOk};
ghost use Rattle.std.specs.Option.{option_copied};
ghost use Rattle.pom_model.specs.Groups.{dependencies, managed, model_base, modules};

use crate::element::child;
use crate::item::list_in;
use crate::property::properties;
use model_types::{Dependency, ModelBase};
use mvn_shared::{List, Mem, Shared};
use pom_text::Node;
use std::alloc::Global;

// The dependencies that an element manages.
fn managed(alloc: Global, nodes: &[Node], node: Option<&Node>) -> Mem<List<Shared<Dependency>>>
    ensures { IfOk result (λ list. list ≡ managed nodes.now (option_copied node.entry)) }
{
    let management = child(nodes, node, "dependencyManagement");
    list_in(alloc, nodes, management, "dependencies", "dependency")
}

/// What a project and a profile may both state, as it stands in an element.
#[tactic(auto, unfolding(crate::specs::Groups::model_base))]
pub fn model_base(alloc: Global, nodes: &[Node], node: Option<&Node>) -> Mem<Shared<ModelBase>>
    ensures { IfOk result (λ value. value ≡ model_base nodes.now (option_copied node.entry)) }
{
    let modules = list_in(alloc, nodes, node, "modules", "module")?;
    let properties = properties(alloc, nodes, node)?;
    let managed = managed(alloc, nodes, node)?;
    let dependencies = list_in(alloc, nodes, node, "dependencies", "dependency")?;
    let base = ModelBase {
        modules,
        properties,
        managed,
        dependencies,
    };
    Shared::new(alloc, base)
}
