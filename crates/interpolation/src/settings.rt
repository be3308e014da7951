//! The configuration of a plugin with its texts filled, at every depth.

ghost use Rattle.std.specs.Prelude.{List as Items, []};
ghost use Rattle.mvn_base.specs.declared.machine.Pair as pairs;
ghost use Rattle.interpolation.specs.Filling.{each, fill_setting};
ghost use Rattle.interpolation.specs.Tables.{Gives, IsTable};

use crate::{FillFault, Filler};
use mvn_base::Setting;
use mvn_shared::{List, Shared};
use std::alloc::Global;

// A setting with its text and its children filled.
#[cycle(filled_setting)]
fn filled_setting(
    alloc: Global,
    filler: &mut Filler,
    setting: &Setting,
) -> Result<Setting, FillFault>
    ensures { (known : Items pairs.Pair) → IsTable known [] filler.old
        → Gives known (fill_setting known setting.now) filler.new result }
{
    let name = setting.name.clone()?;
    let text = filler.text(alloc, name.as_str(), &setting.text)?;
    let children = match fill_settings(alloc, filler, &setting.children) {
        Ok(children) => children,
        Err(fault) => return Err(fault),
    };
    Ok(Setting {
        name,
        text,
        children,
    })
}

// Settings with their texts filled, in order.
#[cycle(filled_setting)]
fn fill_settings(
    alloc: Global,
    filler: &mut Filler,
    settings: &List<Setting>,
) -> Result<List<Setting>, FillFault>
    ensures { (known : Items pairs.Pair) → IsTable known [] filler.old
        → Gives known (each (fill_setting known) settings.now) filler.new result }
{
    let mut list = List::new(alloc);
    for setting in settings.as_slice() {
        match filled_setting(alloc, filler, setting) {
            Ok(setting) => list.push(setting)?,
            Err(fault) => return Err(fault),
        }
    }
    Ok(list)
}

/// A configuration with its texts filled, in order. Costs what these come to.
pub(crate) fn fill_configuration(
    alloc: Global,
    filler: &mut Filler,
    configuration: &Shared<List<Setting>>,
) -> Result<Shared<List<Setting>>, FillFault>
    ensures { (known : Items pairs.Pair) → IsTable known [] filler.old
        → Gives known (each (fill_setting known) configuration.now) filler.new result }
{
    match fill_settings(alloc, filler, configuration.value()) {
        Ok(settings) => Ok(Shared::new(alloc, settings)?),
        Err(fault) => Err(fault),
    }
}
