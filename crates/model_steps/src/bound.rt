//! `Bound`: the plugins built last, which the next module with the same ones shares.

ghost use Rattle.std.specs.Prelude.{◌≡◌, Some, option_map};
ghost use Rattle.lifecycle.specs.Bindings.{bindings};
ghost use Rattle.model_steps.specs.Building.{bound_base};

use model_types::BuildBase;
use mvn_shared::{Shared, Text};

/// The plugins of a module, beside its packaging and what it declares and inherits, so that the modules for which both
/// are alike share them.
#[derive(Drop)]
pub struct Bound {
    pub(crate) packaging: Text,
    pub(crate) base: Shared<BuildBase>,
    pub(crate) built: Shared<BuildBase>,
    ghost is_built: { option_map (bound_base base) (bindings packaging) ≡ Some built },
}
