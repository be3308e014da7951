//! An element of a plugin's configuration, at any depth.

ghost use Rattle.std.specs.Prelude.{◌≡◌, IfOk};

use mvn_shared::{List, Mem, Text};
use std::alloc::AllocError;

/// An element of a plugin's configuration: its name, its own text and its children. POM Reference, "Plugins".
#[derive(Drop)]
pub struct Setting {
    pub name: Text,
    pub text: Text,
    pub children: List<Setting>,
}

impl Clone for Setting {
    ghost is_clone = { λ setting copy. copy ≡ setting };

    fn clone(&self) -> Result<Setting, AllocError> {
        match copy(self) {
            Ok(copy) => Ok(copy),
            Err(_) => Err(AllocError),
        }
    }
}

// A setting and all below it.
#[cycle(copy)]
fn copy(setting: &Setting) -> Mem<Setting>
    ensures { IfOk result (λ copy. copy ≡ setting.now) }
{
    let name = setting.name.clone()?;
    let text = setting.text.clone()?;
    let children = copies(&setting.children)?;
    Ok(Setting {
        name,
        text,
        children,
    })
}

#[cycle(copy)]
fn copies(settings: &List<Setting>) -> Mem<List<Setting>>
    ensures { IfOk result (λ copies. copies ≡ settings.now) }
{
    let mut copies = settings.emptied()?;
    for setting in settings.as_slice() {
        copies.push(copy(setting)?)?;
    }
    Ok(copies)
}
