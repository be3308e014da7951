// The POMs of the generated project and of its libraries. POM Reference, for the elements.
ghost use Rattle.std.specs.Prelude.{◌≡◌, ◌≤◌, ◌++◌, flat_map, IfOk, OnOk};
ghost use Rattle.std.specs.String.{string_bytes};
ghost use Rattle.make_project.specs.Poms.{base_pom, coordinates, depth, dependency, element, library, library_pom, module_element, module_name, module_part, module_pom, modules_part, numbers, parent, pom, root_pom, upstream};

use mvn_shared::{Bytes, Mem};
use std::alloc::Global;

// An element with this content.
#[tactic(auto, unfolding(crate::specs::Poms::element))]
fn push_element(out: &mut Vec<u8>, name: &str, content: &[u8]) -> Mem<()>
    ensures { OnOk result (out.new.items ≡ out.old.items ++ element name.now content.now) }
{
    out.extend_from_slice(b"<")?;
    out.extend_from_slice(name.as_bytes())?;
    out.extend_from_slice(b">")?;
    out.extend_from_slice(content)?;
    out.extend_from_slice(b"</")?;
    out.extend_from_slice(name.as_bytes())?;
    out.extend_from_slice(b">")?;
    Ok(())
}

// The coordinates of version 1.0.
fn push_coordinates(out: &mut Vec<u8>, group: &str, artifact: &str) -> Mem<()>
    ensures { OnOk result (out.new.items ≡ out.old.items ++ coordinates group.now artifact.now) }
{
    push_element(out, "groupId", group.as_bytes())?;
    push_element(out, "artifactId", artifact.as_bytes())?;
    push_element(out, "version", b"1.0")
}

// A dependency.
fn push_dependency(alloc: Global, out: &mut Vec<u8>, group: &str, artifact: &str) -> Mem<()>
    ensures { OnOk result (out.new.items ≡ out.old.items ++ dependency group.now artifact.now) }
{
    let mut named = Vec::new(alloc);
    push_coordinates(&mut named, group, artifact)?;
    push_element(out, "dependency", &named)
}

// A POM with this content after the version of the model.
fn pom(alloc: Global, content: &[u8]) -> Mem<Bytes>
    ensures { IfOk result (λ bytes. bytes ≡ pom content.now) }
{
    let mut whole = Vec::new(alloc);
    push_element(&mut whole, "modelVersion", b"4.0.0")?;
    whole.extend_from_slice(content)?;
    let mut out = Vec::new(alloc);
    push_element(&mut out, "project", &whole)?;
    Ok(Bytes::of(out))
}

/// The artifact of a module, which is its folder too. Costs its length.
pub(crate) fn module_name(alloc: Global, number: u32) -> Mem<String>
    ensures { IfOk result (λ name. string_bytes name ≡ module_name number) }
{
    Ok(format!(in alloc; "m{number}")?)
}

/// The artifact of a library. Costs its length.
pub(crate) fn library(alloc: Global, number: u32) -> Mem<String>
    ensures { IfOk result (λ name. string_bytes name ≡ library number) }
{
    Ok(format!(in alloc; "lib{number}")?)
}

// How many modules stand below a module, down to the first.
#[tactic(auto, using(crate::proofs::Numbers::depth_is))]
fn depth(number: u32) -> u32
    ensures { result ≡ depth number }
{
    if number == 0 { 0 } else { number.ilog2() }
}

// A module, as the root names it.
fn push_module(alloc: Global, out: &mut Vec<u8>, number: u32) -> Mem<()>
    ensures { OnOk result (out.new.items ≡ out.old.items ++ module_element number) }
{
    let name = module_name(alloc, number)?;
    push_element(out, "module", name.as_bytes())
}

// The modules of a project of so many POMs.
#[tactic(auto, using(crate::proofs::Numbers::numbers_more))]
fn push_modules(alloc: Global, out: &mut Vec<u8>, poms: u32) -> Mem<()>
    requires { 1 ≤ poms }
    ensures { OnOk result (out.new.items
        ≡ out.old.items ++ flat_map module_element (numbers poms)) }
{
    for number in 1..poms {
        push_module(alloc, out, number)?;
    }
    Ok(())
}

// The element of the modules, where there are any.
fn push_modules_part(alloc: Global, out: &mut Vec<u8>, poms: u32) -> Mem<()>
    ensures { OnOk result (out.new.items ≡ out.old.items ++ modules_part poms) }
{
    if poms < 2 {
        return Ok(());
    }
    let mut modules = Vec::new(alloc);
    push_modules(alloc, &mut modules, poms)?;
    push_element(out, "modules", &modules)
}

/// The POM of the root of a project of so many POMs. Costs their number.
#[tactic(auto, unfolding(crate::specs::Poms::root_pom))]
pub(crate) fn root_pom(alloc: Global, poms: u32) -> Mem<Bytes>
    ensures { IfOk result (λ bytes. bytes ≡ root_pom poms) }
{
    let mut content = Vec::new(alloc);
    push_coordinates(&mut content, "gen", "root")?;
    push_element(&mut content, "packaging", b"pom")?;
    push_modules_part(alloc, &mut content, poms)?;
    pom(alloc, &content)
}

// The dependency on the module of half the number, but for the first.
fn push_upstream(alloc: Global, out: &mut Vec<u8>, number: u32) -> Mem<()>
    ensures { OnOk result (out.new.items ≡ out.old.items ++ upstream number) }
{
    if number < 2 {
        return Ok(());
    }
    let half = module_name(alloc, number / 2)?;
    push_dependency(alloc, out, "gen", half.as_str())
}

// The dependencies of a module.
fn module_part(alloc: Global, number: u32) -> Mem<Vec<u8>>
    ensures { IfOk result (λ bytes. bytes.items ≡ module_part number) }
{
    let mut out = Vec::new(alloc);
    push_upstream(alloc, &mut out, number)?;
    let library = library(alloc, depth(number))?;
    push_dependency(alloc, &mut out, "ext", library.as_str())?;
    Ok(out)
}

// The parent of a module: the root, which is found in the folder above.
fn push_parent(alloc: Global, out: &mut Vec<u8>) -> Mem<()>
    ensures { OnOk result (out.new.items ≡ out.old.items ++ parent) }
{
    let mut root = Vec::new(alloc);
    push_coordinates(&mut root, "gen", "root")?;
    push_element(out, "parent", &root)
}

/// The POM of a module. Costs its length.
#[tactic(auto, unfolding(crate::specs::Poms::module_pom))]
pub(crate) fn module_pom(alloc: Global, number: u32) -> Mem<Bytes>
    ensures { IfOk result (λ bytes. bytes ≡ module_pom number) }
{
    let mut content = Vec::new(alloc);
    push_parent(alloc, &mut content)?;
    let name = module_name(alloc, number)?;
    push_element(&mut content, "artifactId", name.as_bytes())?;
    let needs = module_part(alloc, number)?;
    push_element(&mut content, "dependencies", &needs)?;
    pom(alloc, &content)
}

/// The POM of a library. Costs its length.
#[tactic(auto, unfolding(crate::specs::Poms::library_pom))]
pub(crate) fn library_pom(alloc: Global, artifact: &str) -> Mem<Bytes>
    ensures { IfOk result (λ bytes. bytes ≡ library_pom artifact.now) }
{
    let mut needs = Vec::new(alloc);
    push_dependency(alloc, &mut needs, "ext", "base")?;
    let mut content = Vec::new(alloc);
    push_coordinates(&mut content, "ext", artifact)?;
    push_element(&mut content, "dependencies", &needs)?;
    pom(alloc, &content)
}

/// The POM of the library on which all others stand.
#[tactic(auto, unfolding(crate::specs::Poms::base_pom))]
pub(crate) fn base_pom(alloc: Global) -> Mem<Bytes>
    ensures { IfOk result (λ bytes. bytes ≡ base_pom) }
{
    let mut content = Vec::new(alloc);
    push_coordinates(&mut content, "ext", "base")?;
    pom(alloc, &content)
}
