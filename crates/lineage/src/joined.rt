//! `Joined`: a POM joined with all that it builds on.

use model_types::RawModel;
use mvn_base::PomId;
use mvn_shared::List;

/// A POM with its profiles over all that it builds on: the POMs of its lineage, from the top, and the model that they
/// come to.
#[derive(Drop)]
pub struct Joined {
    pub poms: List<PomId>,
    pub model: RawModel,
}
