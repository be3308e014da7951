// The numbers of all modules of a plan.
ghost use Rattle.std.specs.Prelude.{◌≡◌, ◌<◌, length, IfOk, OnOk};
ghost use Rattle.module_plan.specs.Parts.{no_parts, parts_of, with_part};

use crate::numbers::{Part, part_of};
use crate::ready::Ready;
use crate::{FileList, Places};
use build_core::PlanModule;
use classpaths::Resolution;
use model_types::Model;
use mvn_base::Gav;
use mvn_shared::{List, Mem, Shared, Text};
use std::alloc::Global;

/// The modules of a plan, and what is shown of them.
#[derive(Drop)]
pub struct Parts {
    pub modules: List<PlanModule>,
    pub models: List<Shared<Model>>,
    pub resolutions: List<Resolution>,
    pub unbound: List<List<Text>>,
}

// One module more.
fn push_part(parts: &mut Parts, part: Part) -> Mem<()>
    ensures { OnOk result (parts.new ≡ with_part parts.old part) }
{
    parts.modules.push(part.planned)?;
    parts.models.push(part.model)?;
    parts.resolutions.push(part.resolution)?;
    parts.unbound.push(part.unbound)
}

// None so far.
fn no_parts(alloc: Global) -> Parts
    ensures { result ≡ no_parts }
{
    Parts {
        modules: List::new(alloc),
        models: List::new(alloc),
        resolutions: List::new(alloc),
        unbound: List::new(alloc),
    }
}

/// The modules of a plan, of those that are ready. Costs their names; what they were made from is moved.
pub fn parts_of(
    alloc: Global,
    built: &Places<Gav>,
    names: &Places<Text>,
    files: &FileList,
    modules: List<Ready>,
) -> Mem<Parts>
    requires few_built { length built.now < 4294967296 }
    requires few_names { length names.now < 4294967296 }
    requires few_files { length files.now < 4294967296 }
    ensures { IfOk result (λ parts. parts ≡ parts_of built.now names.now files.now modules) }
{
    let mut parts = no_parts(alloc);
    for ready in modules.into_vec() {
        let part = part_of(alloc, built, names, files, ready)?;
        push_part(&mut parts, part)?;
    }
    Ok(parts)
}
