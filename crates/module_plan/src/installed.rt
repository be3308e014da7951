// The files that a module may be installed as.
ghost use Rattle.std.specs.Prelude.{◌≡◌, [], ◌∷◌, ◌++◌, true, codes, IfOk, OnOk, if◌then◌else◌};
ghost use Rattle.mvn_base.specs.FileName.{file_name, IsValid, is_classifier};
ghost use Rattle.mvn_base.specs.Names.{is_name};
ghost use Rattle.classpaths.specs.Classpaths.{pom_file};
ghost use Rattle.module_plan.specs.Outputs.{attached, has_main, is_pom, main_output, outputs};

use crate::selected::Output;
use goal_types::Slot;
use model_types::Model;
use mvn_base::{FileName, Gav, file_of, handler, valid_name};
use mvn_shared::{List, Mem, Text};
use std::alloc::Global;

/// Whether the packaging of a model is `pom`. Constant time.
pub fn is_pom(model: &Model) -> bool
    ensures { result ≡ is_pom model.now }
{
    model.packaging.as_str() == "pom"
}

// The name of a file of the module.
fn name_of(alloc: Global, gav: &Gav, classifier: &str, extension: &Text) -> Mem<FileName>
    requires names { IsValid gav.now }
    requires classifier { is_classifier classifier.now ≡ true }
    requires extension { is_name extension.now ≡ true }
    ensures { IfOk result (λ name. name ≡ file_name gav.now classifier.now extension.now) }
{
    let classifier = Text::from_str(alloc, classifier)?;
    file_of(alloc, gav, &classifier, extension)
}

// The extension of what is attached.
#[tactic(auto, unfolding(mvn_base::specs::Names::is_name, mvn_base::specs::Names::is_name_byte))]
fn jar(alloc: Global) -> Mem<Text>
    ensures word { IfOk result (λ text. text ≡ codes "jar") }
    ensures name { IfOk result (λ text. is_name text ≡ true) }
{
    Text::from_str(alloc, "jar")
}

// The extension of a POM.
#[tactic(auto, unfolding(mvn_base::specs::Names::is_name, mvn_base::specs::Names::is_name_byte))]
fn pom(alloc: Global) -> Mem<Text>
    ensures word { IfOk result (λ text. text ≡ codes "pom") }
    ensures name { IfOk result (λ text. is_name text ≡ true) }
{
    Text::from_str(alloc, "pom")
}

/// The name of a POM's file. Costs its length. Maven's repository layout.
pub fn pom_file(alloc: Global, gav: &Gav) -> Mem<FileName>
    requires names { IsValid gav.now }
    ensures { IfOk result (λ name. name ≡ pom_file gav.now) }
{
    let extension = pom(alloc)?;
    name_of(alloc, gav, "", &extension)
}

// Puts the outputs beside the POM and the main one to others.
#[tactic(auto, unfolding(mvn_base::specs::Names::is_name, mvn_base::specs::Names::is_name_byte))]
fn push_attached(alloc: Global, gav: &Gav, list: &mut List<Output>) -> Mem<()>
    requires names { IsValid gav.now }
    ensures { OnOk result (list.new ≡ list.old ++ attached gav.now) }
{
    let extension = jar(alloc)?;
    let name = name_of(alloc, gav, "tests", &extension)?;
    list.push(Output {
        slot: Slot::Tests,
        name,
    })?;
    let name = name_of(alloc, gav, "sources", &extension)?;
    list.push(Output {
        slot: Slot::Sources,
        name,
    })?;
    let name = name_of(alloc, gav, "javadoc", &extension)?;
    list.push(Output {
        slot: Slot::Javadoc,
        name,
    })
}

// Puts the main output to others, if there is one.
fn push_main(alloc: Global, model: &Model, list: &mut List<Output>) -> Mem<()>
    requires names { IsValid model.now.gav }
    ensures { OnOk result (list.new
        ≡ list.old ++ (if has_main model.now then main_output model.now ∷ [] else [])) }
{
    if is_pom(model) {
        return Ok(());
    }
    let extension = handler(alloc, &model.packaging)?.extension;
    if !valid_name(extension.as_bytes()) {
        return Ok(());
    }
    let name = name_of(alloc, &model.gav, "", &extension)?;
    list.push(Output {
        slot: Slot::Main,
        name,
    })
}

/// The files that a module may be installed as, the POM's first. Costs their names. Maven's repository layout.
#[tactic(auto, unfolding(crate::specs::Outputs::outputs), using(crate::proofs::Lists::some_then))]
pub fn outputs(alloc: Global, model: &Model) -> Mem<List<Output>>
    requires names { IsValid model.now.gav }
    ensures { IfOk result (λ list. list ≡ outputs model.now) }
{
    let mut list = List::new(alloc);
    let name = pom_file(alloc, &model.gav)?;
    list.push(Output {
        slot: Slot::Pom,
        name,
    })?;
    push_main(alloc, model, &mut list)?;
    push_attached(alloc, &model.gav, &mut list)?;
    Ok(list)
}
