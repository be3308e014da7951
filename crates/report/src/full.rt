// What is told of a module where all is asked for.
ghost use Rattle.std.specs.Prelude.{◌≡◌, IfOk};
ghost use Rattle.report.specs.Full.{full_part, path_files};

use crate::FullPart;
use crate::files::push_file;
use classpaths::{Kind, Resolution};
use model_json::write_model_json;
use model_types::Model;
use mvn_base::FileName;
use mvn_shared::{List, Mem};
use std::alloc::Global;

// The files of a classpath.
fn path_files(alloc: Global, resolution: &Resolution, kind: Kind) -> Mem<List<FileName>>
    ensures { IfOk result (λ files. files ≡ path_files kind resolution.now.winners) }
{
    let places = resolution.classpath(alloc, kind)?;
    let mut files = List::new(alloc);
    for place in places.as_slice() {
        push_file(alloc, &mut files, resolution.winners.as_slice(), *place)?;
    }
    Ok(files)
}

/// What the full report tells of a module: its effective model as JSON, and of each classpath the files in order; a dependency
/// whose names aren't valid has none. Costs the texts of the model and of the files. Project format.
pub fn full_part(alloc: Global, model: &Model, resolution: &Resolution) -> Mem<FullPart>
    ensures { IfOk result (λ part. part ≡ full_part model.now resolution.now) }
{
    let compile = path_files(alloc, resolution, Kind::Compile)?;
    let runtime = path_files(alloc, resolution, Kind::Runtime)?;
    let test = path_files(alloc, resolution, Kind::Test)?;
    let model = write_model_json(alloc, model)?;
    Ok(FullPart {
        model,
        compile,
        runtime,
        test,
    })
}
