// What the report tells of each module besides how it ended.
ghost use Rattle.std.specs.Prelude.{◌≡◌, IfOk};
ghost use Rattle.report.specs.FullDetails.{details, details_of, full_of};

use crate::full::full_part;
use crate::{Details, FullPart, notes_of};
use classpaths::Resolution;
use model_types::Model;
use mvn_shared::{List, Mem, Shared, Text};
use std::alloc::Global;

// The full part, where all is asked for.
fn full_of(
    alloc: Global,
    full: bool,
    model: &Model,
    resolution: &Resolution,
) -> Mem<Option<FullPart>>
    ensures { IfOk result (λ part. part ≡ full_of full model.now resolution.now) }
{
    if full {
        Ok(Some(full_part(alloc, model, resolution)?))
    } else {
        Ok(None)
    }
}

// What is told of a module.
fn details(
    alloc: Global,
    full: bool,
    model: &Model,
    resolution: &Resolution,
    unbound: &[Text],
) -> Mem<Details>
    ensures { IfOk result (λ told. told ≡ details full model.now resolution.now unbound.now) }
{
    let notes = notes_of(alloc, resolution.notes.as_slice(), unbound)?;
    let full = full_of(alloc, full, model, resolution)?;
    Ok(Details { notes, full })
}

/// What the report tells of each module besides how it ended: its notes and, where all is asked for, its model and
/// classpaths. The three lists have an item for each module; where one is shorter, the modules after its end are left
/// out. Costs the texts of what is told. Project format.
#[tactic(auto, using(crate::proofs::Lists::details_step))]
pub fn details_of(
    alloc: Global,
    full: bool,
    models: &[Shared<Model>],
    resolutions: &[Resolution],
    unbound: &[List<Text>],
) -> Mem<List<Details>>
    ensures { IfOk result (λ list.
        list ≡ details_of full models.now resolutions.now unbound.now) }
{
    let mut list = List::new(alloc);
    for at in 0..models.len() {
        let Some(resolution) = resolutions.get(at) else {
            return Ok(list);
        };
        let Some(unbound) = unbound.get(at) else {
            return Ok(list);
        };
        list.push(details(alloc, full, &models[at], resolution, unbound.as_slice())?)?;
    }
    Ok(list)
}
