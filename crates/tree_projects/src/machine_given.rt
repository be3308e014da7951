// What the machine gives.
use mvn_base::{Choice, Machine};
use mvn_shared::{List, Mem, Text};
use pom_source::Given;
use std::alloc::Global;

// What a machine says of its system: name, family, architecture and version.
#[derive(Drop)]
struct System {
    name: Text,
    family: Text,
    arch: Text,
    version: Text,
}

// Linux.
fn linux(alloc: Global) -> Mem<System> {
    let name = Text::from_str(alloc, "Linux")?;
    let family = Text::from_str(alloc, "unix")?;
    let arch = Text::from_str(alloc, "amd64")?;
    let version = Text::from_str(alloc, "6.1")?;
    Ok(System {
        name,
        family,
        arch,
        version,
    })
}

// A machine of this system. Takes no memory.
fn machine_of(alloc: Global, root: Text, jdk: Text, system: System) -> Machine {
    let System {
        name: os_name,
        family: os_family,
        arch: os_arch,
        version: os_version,
    } = system;
    Machine {
        root,
        env: List::new(alloc),
        system: List::new(alloc),
        jdk,
        os_name,
        os_family,
        os_arch,
        os_version,
    }
}

// A machine with Linux, whose root is `/w`.
fn machine(alloc: Global) -> Mem<Machine> {
    let root = Text::from_str(alloc, "/w")?;
    let jdk = Text::from_str(alloc, "17.0.1")?;
    let system = linux(alloc)?;
    Ok(machine_of(alloc, root, jdk, system))
}

/// No variables, no defined properties and no chosen profiles, and a machine with Linux whose root is `/w`.
pub fn given(alloc: Global) -> Mem<Given> {
    let machine = machine(alloc)?;
    let choice = Choice {
        on: List::new(alloc),
        off: List::new(alloc),
    };
    Ok(Given {
        machine,
        defines: List::new(alloc),
        choice,
        ci: List::new(alloc),
    })
}
