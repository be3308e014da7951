// What the machine gives, and what the words of a command line ask for.
use cli_words::{CommandLine, WordError, options};
use mvn_base::{Choice, Machine};
use mvn_shared::{Bytes, List, Mem, Text};
use pom_source::Given;
use std::alloc::Global;
use std::mem::replace;

fn no_text(alloc: Global) -> Text {
    Text::of(String::new(alloc))
}

fn no_choice(alloc: Global) -> Choice {
    Choice {
        on: List::new(alloc),
        off: List::new(alloc),
    }
}

// A machine of which these alone may be known.
fn machine_of(alloc: Global, root: Text, jdk: Text, os_name: Text, os_family: Text) -> Machine {
    Machine {
        root,
        env: List::new(alloc),
        system: List::new(alloc),
        jdk,
        os_name,
        os_family,
        os_arch: no_text(alloc),
        os_version: no_text(alloc),
    }
}

fn no_machine(alloc: Global) -> Machine {
    machine_of(
        alloc,
        no_text(alloc),
        no_text(alloc),
        no_text(alloc),
        no_text(alloc),
    )
}

/// Nothing is given: all texts are empty.
pub fn no_given(alloc: Global) -> Given {
    Given {
        machine: no_machine(alloc),
        defines: List::new(alloc),
        choice: no_choice(alloc),
        ci: List::new(alloc),
    }
}

/// The properties and the profiles of a command line, which are taken out of it: a plan asks it for neither.
pub fn given_by(alloc: Global, line: &mut CommandLine) -> Given {
    Given {
        machine: no_machine(alloc),
        defines: replace(&mut line.defines, List::new(alloc)),
        choice: replace(&mut line.choice, no_choice(alloc)),
        ci: List::new(alloc),
    }
}

/// Makes an empty machine one with Linux whose root is `/w`.
pub fn describe(machine: &mut Machine) -> Mem<()> {
    machine.root.push_str("/w")?;
    machine.jdk.push_str("17.0.1")?;
    machine.os_name.push_str("Linux")?;
    machine.os_family.push_str("unix")?;
    machine.os_arch.push_str("amd64")?;
    machine.os_version.push_str("6.1")
}

// Adds the words of a field.
fn push_words(alloc: Global, list: &mut Vec<Bytes>, field: &str) -> Mem<()> {
    for word in field.split_whitespace() {
        list.push(Bytes::from_slice(alloc, word.as_bytes())?)?;
    }
    Ok(())
}

// What the words of a field ask for, of which the list has none yet.
fn asked(alloc: Global, list: &mut Vec<Bytes>, field: &str) -> Result<CommandLine, WordError> {
    push_words(alloc, list, field)?;
    options(alloc, list, 16)
}

/// What words ask for.
pub fn line(alloc: Global, field: &str) -> Result<CommandLine, WordError> {
    let mut list = Vec::new(alloc);
    asked(alloc, &mut list, field)
}
