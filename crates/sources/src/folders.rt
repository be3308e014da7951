// The folders that a model's sources are in.
ghost use Rattle.std.specs.Prelude.{◌≡◌, ◌++◌, [], ◌∷◌, filter_map, option_to_list, IfOk, OnOk};
ghost use Rattle.profiles.specs.FileTexts.{below_root, path_of};
ghost use Rattle.sources.specs.Folders.{folder_in, inside, leads_out, source_folders, stated_folders};

use model_types::{Model, Sources};
use mvn_base::joined;
use mvn_shared::{List, Mem, Text};
use profiles::behind;
use std::alloc::Global;

// An absolute path in the project, from its root on.
fn below_root(alloc: Global, root: &Text, text: &Text) -> Mem<Option<Text>>
    ensures { IfOk result (λ path. path ≡ below_root root.now text.now) }
{
    let nothing = Text::of(String::new(alloc));
    if text == root {
        return Ok(Some(nothing));
    }
    let front = format!(in alloc; "{root}/")?;
    match behind(front.as_str(), text.as_str()) {
        Some(rest) => Ok(Some(joined(alloc, &nothing, &Text::from_str(alloc, rest)?)?)),
        None => Ok(None),
    }
}

// The path that a folder names, from the project's root on.
fn path_of(alloc: Global, root: &Text, folder: &Text) -> Mem<Option<Text>>
    ensures { IfOk result (λ path. path ≡ path_of root.now [] folder.now) }
{
    if behind("/", folder.as_str()).is_some() {
        return below_root(alloc, root, folder);
    }
    let nothing = Text::of(String::new(alloc));
    Ok(Some(joined(alloc, &nothing, folder)?))
}

// Whether a path leads out of the project.
fn leads_out(path: &Text) -> bool
    ensures { result ≡ leads_out path.now }
{
    path.as_str() == ".." || behind("../", path.as_str()).is_some()
}

// A path, if it is in the project.
fn inside(path: Option<Text>) -> Option<Text>
    ensures { result ≡ inside path }
{
    match path {
        Some(path) => {
            if leads_out(&path) {
                return None;
            }
            Some(path)
        }
        None => None,
    }
}

// A folder from the project's root on, if it is in the project.
fn folder_in(alloc: Global, root: &Text, folder: &Text) -> Mem<Option<Text>>
    ensures { IfOk result (λ path. path ≡ folder_in root.now folder.now) }
{
    Ok(inside(path_of(alloc, root, folder)?))
}

// Puts a folder to others, if it is in the project.
fn push_folder(alloc: Global, root: &Text, folder: &Text, list: &mut List<Text>) -> Mem<()>
    ensures { OnOk result
        (list.new ≡ list.old ++ filter_map (folder_in root.now) (folder.now ∷ [])) }
{
    if let Some(path) = folder_in(alloc, root, folder)? {
        list.push(path)?;
    }
    Ok(())
}

// Puts folders to others.
#[tactic(auto, using(crate::proofs::Folding::one_by_one))]
fn push_folders(alloc: Global, root: &Text, folders: &[Text], list: &mut List<Text>) -> Mem<()>
    ensures { OnOk result (list.new ≡ list.old ++ filter_map (folder_in root.now) folders.now) }
{
    for folder in folders {
        push_folder(alloc, root, folder, list)?;
    }
    Ok(())
}

// Puts one that may be absent to others.
fn push_stated(alloc: Global, root: &Text, folder: &Option<Text>, list: &mut List<Text>) -> Mem<()>
    ensures { OnOk result
        (list.new ≡ list.old ++ filter_map (folder_in root.now) (option_to_list folder.now)) }
{
    match folder {
        Some(folder) => push_folder(alloc, root, folder, list),
        None => Ok(()),
    }
}

/// The folders that a model's sources are in, from the project's root on; one outside of it is left out. Costs their length. POM
/// Reference, "Directories".
#[tactic(auto, using(crate::proofs::Folding::four), unfolding(crate::specs::Folders::source_folders))]
pub(crate) fn source_folders(alloc: Global, root: &Text, model: &Model) -> Mem<List<Text>>
    ensures { IfOk result (λ folders. folders ≡ source_folders root.now model.now) }
{
    let sources = model.build.sources.value();
    let mut list = List::new(alloc);
    push_stated(alloc, root, &sources.source, &mut list)?;
    push_folders(alloc, root, sources.resources.as_slice(), &mut list)?;
    push_stated(alloc, root, &sources.test_source, &mut list)?;
    push_folders(alloc, root, sources.test_resources.as_slice(), &mut list)?;
    Ok(list)
}
