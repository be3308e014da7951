//! The criteria of an activation: a property, the JDK and the operating system.

ghost use Rattle.std.specs.Prelude.{◌≡◌, ℕ, List as Items, option_map, option_to_list, ◌++◌, IfErr, IfOk, OnOk};
ghost use Rattle.std.specs.List.{list_all};
ghost use Rattle.std.specs.Str.{str_eq_ignore_ascii_case};
ghost use Rattle.profiles.specs.Activation.{admitted_by, all_hold, given, is_jdk, is_system, is_value, os_criteria, property_criterion, property_holds, turn, turned};
ghost use Rattle.profiles.specs.Known.{known_value};
ghost use Rattle.versions.specs.Requirements.{Refuses, admits, requirement};

use crate::lookup::{Known, behind};
use model_types::{Os, Property};
use mvn_base::Machine;
use mvn_shared::{Mem, OutOfMemory, Text};
use std::alloc::Global;
use versions::{Requirement, RequirementError, Version};

// Whether a text begins with `!`, and what is tested.
fn turn<'a>(text: &'a str) -> (bool, &'a str)
    ensures { (result.0, result.1.now) ≡ turn text.now }
{
    let Some(rest) = behind("!", text) else {
        return (false, text);
    };
    (true, rest)
}

// Whether a property has a value.
fn is_value(own: &Option<Text>, wanted: &str) -> bool
    ensures { result ≡ turned (is_value own.now) wanted.now }
{
    let (is_turned, wanted) = turn(wanted);
    let is_there = match own {
        Some(value) => value.as_str() == wanted,
        None => false,
    };
    is_there != is_turned
}

// The value of a property of this name.
fn property_value(alloc: Global, known: &Known, name: &str) -> Mem<Option<Text>>
    ensures { IfOk result (λ value. value ≡ known_value known.now name.now) }
{
    let name = Text::from_str(alloc, name)?;
    known.value(alloc, &name)
}

// Whether a property is defined, or has the value that is asked for.
fn property_holds(alloc: Global, known: &Known, property: &Property) -> Mem<bool>
    ensures { IfOk result (λ holds. holds ≡ property_holds (known_value known.now) property.now) }
{
    let (is_turned, name) = turn(property.name.as_str());
    let value = property_value(alloc, known, name)?;
    if is_turned {
        return Ok(value.is_none());
    }
    match &property.value {
        Some(wanted) => Ok(is_value(&value, wanted.as_str())),
        None => Ok(value.is_some()),
    }
}

// Whether a requirement admits the jdk's version.
fn is_admitted(alloc: Global, requirement: &Requirement, jdk: &Text) -> Mem<bool>
    ensures { IfOk result (λ holds. holds ≡ admits requirement.now jdk.now) }
{
    let version = Version::parse(alloc, jdk)?;
    Ok(requirement.admits(&version))
}

// What a range requires.
fn range_of(alloc: Global, range: &str) -> Result<Requirement, RequirementError>
    ensures value { IfOk result (λ parsed. requirement range.now ≡ Ok parsed) }
    ensures refused { IfErr result (λ error. Refuses error (requirement range.now)) }
{
    let range = Text::from_str(alloc, range)?;
    Requirement::parse(alloc, &range)
}

// Whether a range admits the jdk's version.
fn is_in_range(alloc: Global, jdk: &Text, range: &str) -> Mem<bool>
    ensures { IfOk result (λ holds. holds ≡ admitted_by (requirement range.now) jdk.now) }
{
    match range_of(alloc, range) {
        Ok(requirement) => is_admitted(alloc, &requirement, jdk),
        Err(RequirementError::BadRange { .. }) => Ok(false),
        Err(RequirementError::Memory) => Err(OutOfMemory),
    }
}

// Whether a text is the jdk's, as a range or as what its version begins with.
fn is_jdk(alloc: Global, jdk: &Text, text: &str) -> Mem<bool>
    ensures { IfOk result (λ holds. holds ≡ is_jdk jdk.now text.now) }
{
    if behind("[", text).is_some() || behind("(", text).is_some() {
        return is_in_range(alloc, jdk, text);
    }
    Ok(behind(text, jdk.as_str()).is_some())
}

// Whether the jdk is the one that is asked for.
fn jdk_holds(alloc: Global, machine: &Machine, text: &Text) -> Mem<bool>
    ensures { IfOk result (λ holds. holds ≡ turned (is_jdk machine.now.jdk) text.now) }
{
    let (is_turned, rest) = turn(text.as_str());
    Ok(is_jdk(alloc, &machine.jdk, rest)? != is_turned)
}

/// An answer more, where there is one.
pub(crate) fn push_given(list: &mut Vec<bool>, holds: Option<bool>) -> Mem<()>
    ensures { OnOk result (list.new.items ≡ list.old.items ++ option_to_list holds) }
{
    if let Some(holds) = holds {
        list.push(holds)?;
    }
    Ok(())
}

/// What is asked of a property, after a list.
pub(crate) fn push_property(
    alloc: Global,
    list: &mut Vec<bool>,
    known: &Known,
    property: &Option<Property>,
) -> Mem<()>
    ensures { OnOk result (list.new.items
        ≡ list.old.items ++ property_criterion (known_value known.now) property.now) }
{
    let Some(property) = property else {
        return Ok(());
    };
    list.push(property_holds(alloc, known, property)?)?;
    Ok(())
}

/// What is asked of the jdk, after a list.
pub(crate) fn push_jdk(
    alloc: Global,
    list: &mut Vec<bool>,
    machine: &Machine,
    text: &Option<Text>,
) -> Mem<()>
    ensures { OnOk result (list.new.items
        ≡ list.old.items ++ given (turned (is_jdk machine.now.jdk)) text.now) }
{
    let Some(text) = text else {
        return Ok(());
    };
    list.push(jdk_holds(alloc, machine, text)?)?;
    Ok(())
}

// Whether a field of the system is what is asked for, where anything is.
fn push_field(list: &mut Vec<bool>, own: &Text, wanted: &Option<Text>) -> Mem<()>
    ensures { OnOk result (list.new.items
        ≡ list.old.items ++ given (turned (is_system own.now)) wanted.now) }
{
    let Some(wanted) = wanted else {
        return Ok(());
    };
    let (is_turned, rest) = turn(wanted.as_str());
    list.push(own.as_str().eq_ignore_ascii_case(rest) != is_turned)?;
    Ok(())
}

/// What is asked of the system, after a list.
pub(crate) fn push_os(list: &mut Vec<bool>, machine: &Machine, os: &Option<Os>) -> Mem<()>
    ensures { OnOk result (list.new.items ≡ list.old.items ++ os_criteria machine.now os.now) }
{
    let Some(os) = os else {
        return Ok(());
    };
    push_field(list, &machine.os_name, &os.name)?;
    push_field(list, &machine.os_family, &os.family)?;
    push_field(list, &machine.os_arch, &os.arch)?;
    push_field(list, &machine.os_version, &os.version)
}

// Whether all of some hold.
fn all_true(list: &[bool]) -> bool
    ensures { result ≡ list_all (λ b. b) list.now }
{
    list.iter().all(|holds| *holds)
}

/// Whether there is a criterion, and all of them hold.
pub(crate) fn all_hold(list: &[bool]) -> bool
    ensures { result ≡ all_hold list.now }
{
    !list.is_empty() && all_true(list)
}
