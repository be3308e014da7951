// The machine that the rows know.
use crate::fields::put_pairs;
use mvn_base::Machine;
use mvn_shared::{List, Mem, Shared, Text};
use std::alloc::Global;

fn no_text(alloc: Global) -> Text {
    Text::of(String::new(alloc))
}

// A machine of which these alone may be known.
fn machine_of(alloc: Global, root: Text, jdk: Text, os_name: Text, os_family: Text) -> Machine {
    Machine {
        root,
        env: List::new(alloc),
        system: List::new(alloc),
        jdk,
        os_name,
        os_family,
        os_arch: no_text(alloc),
        os_version: no_text(alloc),
    }
}

// A machine of which nothing is known.
fn unknown(alloc: Global) -> Machine {
    machine_of(
        alloc,
        no_text(alloc),
        no_text(alloc),
        no_text(alloc),
        no_text(alloc),
    )
}

fn put_system(machine: &mut Machine) -> Mem<()> {
    machine.os_name.push_str("Linux")?;
    machine.os_family.push_str("unix")?;
    machine.os_arch.push_str("amd64")?;
    machine.os_version.push_str("5")
}

fn put_variables(alloc: Global, machine: &mut Machine) -> Mem<()> {
    machine.root.push_str("/w")?;
    machine.jdk.push_str("17.0.2")?;
    put_pairs(alloc, &mut machine.env, "E=${s} HOME=/h")?;
    put_pairs(alloc, &mut machine.system, "s=1 t=x")
}

fn put(alloc: Global, machine: &mut Machine) -> Mem<()> {
    put_system(machine)?;
    put_variables(alloc, machine)
}

fn described(alloc: Global) -> Mem<Machine> {
    let mut machine = unknown(alloc);
    put(alloc, &mut machine)?;
    Ok(machine)
}

/// A Linux 5 for the JDK 17.0.2, with the project in `/w`, two variables and two properties of the system.
pub fn machine(alloc: Global) -> Mem<Shared<Machine>> {
    let machine = described(alloc)?;
    Shared::new(alloc, machine)
}
