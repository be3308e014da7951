// The name of a repository's file, read from its path.
ghost use Rattle.std.specs.Prelude.{◌≡◌, ◌==◌, [], ◌++◌, codes, map, IfOk};
ghost use Rattle.std.specs.String.{string_bytes};
ghost use Rattle.std.specs.Option.{option_map};
ghost use Rattle.std.specs.List.{slice_split};
ghost use Rattle.goal_program.specs.Names.{classifier_in, from_end, group_by, gav_by, is_valid, file_at, file_cut, file_behind, file_by, file_in};
ghost use Rattle.goal_program.specs.Texts.{cuts, first_some};

use crate::text::{behind, cut};
use mvn_base::{FileName, Gav, file_of, valid_group, valid_name, valid_version};
use mvn_shared::{Mem, Text};
use std::alloc::{AllocError, Global};

// The steps of a path.
fn steps<'a>(alloc: Global, path: &'a str) -> Result<Vec<&'a str>, AllocError>
    ensures { IfOk result
        (λ steps. map (λ x. x.now) steps.items ≡ slice_split (λ b. b == 47) path.now) }
{
    path.split('/').collect(alloc)
}

// What stands before the extension, as a classifier.
fn classifier_in<'a>(front: &'a str) -> Option<&'a str>
    ensures { option_map (λ c. c.now) result ≡ classifier_in front.now }
{
    if front.is_empty() {
        Some("")
    } else {
        behind("-", front)
    }
}

// The last step but two.
fn third_last<'a>(steps: &[&'a str]) -> &'a str
    ensures { result.now ≡ from_end 3 (map (λ s. s.now) steps.now) }
{
    match steps {
        [.., step, _, _] => step,
        _ => "",
    }
}

// The last step but one.
fn second_last<'a>(steps: &[&'a str]) -> &'a str
    ensures { result.now ≡ from_end 2 (map (λ s. s.now) steps.now) }
{
    match steps {
        [.., step, _] => step,
        _ => "",
    }
}

// The last step.
fn last<'a>(steps: &[&'a str]) -> &'a str
    ensures { result.now ≡ from_end 1 (map (λ s. s.now) steps.now) }
{
    match steps {
        [.., step] => step,
        _ => "",
    }
}

// The group that the first steps name.
#[tactic(auto, using(crate::proofs::RequestSteps::group_joined))]
fn group_by(alloc: Global, steps: &[&str]) -> Mem<Text>
    ensures { IfOk result (λ group. group ≡ group_by (map (λ s. s.now) steps.now)) }
{
    let count = steps.len().saturating_sub(3);
    Ok(Text::of(steps[..count].join(alloc, ".")?))
}

// The coordinates that a path's steps name.
fn gav_by(alloc: Global, steps: &[&str]) -> Mem<Gav>
    ensures { IfOk result (λ gav. gav ≡ gav_by (map (λ s. s.now) steps.now)) }
{
    let group = group_by(alloc, steps)?;
    let artifact = Text::from_str(alloc, third_last(steps))?;
    let version = Text::from_str(alloc, second_last(steps))?;
    Ok(Gav {
        group,
        artifact,
        version,
    })
}

// The front of a file's last step: its artifact and its version.
fn front_of(alloc: Global, gav: &Gav) -> Mem<String>
    ensures { IfOk result
        (λ front. string_bytes front ≡ gav.now.artifact ++ codes "-" ++ gav.now.version) }
{
    let artifact = &gav.artifact;
    let version = &gav.version;
    Ok(format!(in alloc; "{artifact}-{version}")?)
}

// Whether the parts of a file's name are valid.
#[tactic(auto, unfolding(crate::specs::Names::is_valid))]
fn is_valid(gav: &Gav, classifier: &Text, extension: &Text) -> bool
    ensures { result ≡ is_valid gav.now classifier.now extension.now }
{
    valid_group(gav.group.as_bytes())
        && valid_name(gav.artifact.as_bytes())
        && valid_version(gav.version.as_bytes())
        && (classifier.is_empty() || valid_name(classifier.as_bytes()))
        && valid_name(extension.as_bytes())
}

// The file of these coordinates, classifier and extension, where they are valid and this is its path.
#[tactic(auto, unfolding(crate::specs::Names::file_at, crate::specs::Names::is_valid))]
fn file_at(
    alloc: Global,
    gav: &Gav,
    classifier: &Text,
    extension: &Text,
    path: &str,
) -> Mem<Option<FileName>>
    ensures { IfOk result
        (λ found. found ≡ file_at gav.now classifier.now extension.now path.now) }
{
    if !is_valid(gav, classifier, extension) {
        return Ok(None);
    }
    let name = file_of(alloc, gav, classifier, extension)?;
    if name.as_text().as_bytes() == path.as_bytes() {
        Ok(Some(name))
    } else {
        Ok(None)
    }
}

// The same of words.
fn file_with(
    alloc: Global,
    gav: &Gav,
    classifier: &str,
    extension: &str,
    path: &str,
) -> Mem<Option<FileName>>
    ensures { IfOk result
        (λ found. found ≡ file_at gav.now classifier.now extension.now path.now) }
{
    let classifier = Text::from_str(alloc, classifier)?;
    let extension = Text::from_str(alloc, extension)?;
    file_at(alloc, gav, &classifier, &extension, path)
}

// The file of these coordinates whose name ends so, cut before its extension, where this is its path.
fn file_cut(
    alloc: Global,
    gav: &Gav,
    front: &str,
    extension: &str,
    path: &str,
) -> Mem<Option<FileName>>
    ensures { IfOk result
        (λ found. found ≡ file_cut gav.now path.now (front.now, extension.now)) }
{
    match classifier_in(front) {
        Some(classifier) => file_with(alloc, gav, classifier, extension, path),
        None => Ok(None),
    }
}

// The same of a name's end, cut at the first of its dots where that is one.
#[tactic(auto, using(crate::proofs::Cuts::first_found, crate::proofs::Cuts::first_more, crate::proofs::Cuts::first_none, crate::proofs::Cuts::cut_shorter))]
fn file_ending(alloc: Global, gav: &Gav, end: &str, path: &str) -> Mem<Option<FileName>>
    ensures { IfOk result (λ found. found
        ≡ first_some (file_cut gav.now path.now) (cuts 46 [] end.now)) }
{
    let mut front = Text::of(String::new(alloc));
    let mut rest = end;
    while let Some((part, behind)) = cut(rest, '.') {
        front.push_str(part)?;
        if let Some(name) = file_cut(alloc, gav, front.as_str(), behind, path)? {
            return Ok(Some(name));
        }
        front.push_str(".")?;
        rest = behind;
    }
    Ok(None)
}

// The file of these coordinates whose last step this is, where this is its path.
fn file_behind(alloc: Global, gav: &Gav, last: &str, path: &str) -> Mem<Option<FileName>>
    ensures { IfOk result (λ found. found ≡ file_behind gav.now last.now path.now) }
{
    let front = front_of(alloc, gav)?;
    match behind(front.as_str(), last) {
        Some(end) => file_ending(alloc, gav, end, path),
        None => Ok(None),
    }
}

// The file at a path of these steps.
fn file_by(alloc: Global, steps: &[&str], path: &str) -> Mem<Option<FileName>>
    ensures { IfOk result (λ found. found ≡ file_by (map (λ s. s.now) steps.now) path.now) }
{
    if steps.len() < 3 {
        return Ok(None);
    }
    let gav = gav_by(alloc, steps)?;
    file_behind(alloc, &gav, last(steps), path)
}

/// The name of the file at a path of a repository; None where no file of valid coordinates has it. Costs its length
/// for each dot of its last step.
#[tactic(auto, unfolding(crate::specs::Names::file_in))]
pub(crate) fn file_in(alloc: Global, path: &str) -> Mem<Option<FileName>>
    ensures { IfOk result (λ found. found ≡ file_in path.now) }
{
    let steps = steps(alloc, path)?;
    file_by(alloc, &steps, path)
}
