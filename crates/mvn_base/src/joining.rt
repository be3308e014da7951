//! Paths in a project, and how one is joined with another that is relative to it.

ghost use Rattle.std.specs.Prelude.{◌≡◌, nat_eq, ◌∷◌, ◌++◌, fold, map, flat_map, IfOk, OnOk};
ghost use Rattle.std.specs.List.{slice_split};
ghost use Rattle.std.specs.String.{string_bytes};
ghost use Rattle.mvn_base.specs.Paths.{add_step, is_at_top, joined, path_of, steps, up};

use mvn_shared::{Mem, Text};
use std::alloc::{AllocError, Global};

// The parts of a path between slashes.
fn by_slash<'a>(alloc: Global, path: &'a str) -> Result<Vec<&'a str>, AllocError>
    ensures { IfOk result (λ parts.
        map (λ x. x.now) parts.items ≡ slice_split (λ b. nat_eq b 47) path.now) }
{
    path.split('/').collect(alloc)
}

// The parts of a path between backslashes.
fn by_backslash<'a>(alloc: Global, path: &'a str) -> Result<Vec<&'a str>, AllocError>
    ensures { IfOk result (λ parts.
        map (λ x. x.now) parts.items ≡ slice_split (λ b. nat_eq b 92) path.now) }
{
    path.split('\\').collect(alloc)
}

// Whether steps lead nowhere but up.
fn is_at_top(done: &[&str]) -> bool
    ensures { result ≡ is_at_top (map (λ x. x.now) done.now) }
{
    match done.last() {
        Some(last) => *last == "..",
        None => true,
    }
}

// One step up.
fn go_up<'a>(done: &mut Vec<&'a str>) -> Mem<()>
    ensures { OnOk result (map (λ x. x.now) done.new.items ≡ up (map (λ x. x.now) done.old.items)) }
{
    if is_at_top(done.as_slice()) {
        done.push("..")?;
        return Ok(());
    }
    done.pop();
    Ok(())
}

// One step more.
fn add_step<'a>(done: &mut Vec<&'a str>, step: &'a str) -> Mem<()>
    ensures { OnOk result
        (map (λ x. x.now) done.new.items ≡ add_step (map (λ x. x.now) done.old.items) step.now) }
{
    if step == "" || step == "." {
        return Ok(());
    }
    if step == ".." {
        return go_up(done);
    }
    done.push(step)?;
    Ok(())
}

// The steps of a part without slashes.
fn add_part<'a>(alloc: Global, done: &mut Vec<&'a str>, part: &'a str) -> Mem<()>
    ensures { OnOk result
        (map (λ x. x.now) done.new.items
        ≡ fold add_step (map (λ x. x.now) done.old.items)
        (slice_split (λ b. nat_eq b 92) part.now)) }
{
    for step in by_backslash(alloc, part)?.as_slice() {
        add_step(done, *step)?;
    }
    Ok(())
}

// The steps of a path.
fn add_path<'a>(alloc: Global, done: &mut Vec<&'a str>, path: &'a str) -> Mem<()>
    ensures { OnOk result
        (map (λ x. x.now) done.new.items
        ≡ fold add_step (map (λ x. x.now) done.old.items) (steps path.now)) }
{
    for part in by_slash(alloc, path)?.as_slice() {
        add_part(alloc, done, *part)?;
    }
    Ok(())
}

// Each step after a slash.
fn push_further(path: &mut String, steps: &[&str]) -> Mem<()>
    ensures { OnOk result
        (string_bytes path.new ≡ string_bytes path.old
        ++ flat_map (λ t. 47 ∷ t) (map (λ x. x.now) steps.now)) }
{
    for step in steps {
        path.push('/')?;
        path.push_str(*step)?;
    }
    Ok(())
}

// Steps with slashes between them.
fn path_of(alloc: Global, steps: &[&str]) -> Mem<Text>
    ensures { IfOk result (λ path. path ≡ path_of (map (λ x. x.now) steps.now)) }
{
    let mut path = String::new(alloc);
    if let [first, further @ ..] = steps {
        path.push_str(*first)?;
        push_further(&mut path, further)?;
    }
    Ok(Text::of(path))
}

/// A path from a folder on, both relative to the project's root: `/` and `\` divide steps, empty steps and `.` lead
/// nowhere, and `..` leads up, so that it stays at the front alone. Costs both texts. Project rule.
#[tactic(auto, unfolding(crate::specs::Paths::joined))]
pub fn joined(alloc: Global, folder: &Text, path: &Text) -> Mem<Text>
    ensures { IfOk result (λ whole. whole ≡ joined folder.now path.now) }
{
    let mut steps = Vec::new(alloc);
    add_path(alloc, &mut steps, folder.as_str())?;
    add_path(alloc, &mut steps, path.as_str())?;
    path_of(alloc, steps.as_slice())
}
