//! The settings of a configuration, merged with those that it builds on.

ghost use Rattle.std.specs.Prelude.{◌≡◌, ℕ, ◌+◌, ◌<◌, ◌^◌, List, [], ◌∷◌, ◌++◌, map, count_by, slice_get, if◌then◌else◌, IfOk, OnOk};
ghost use Rattle.std.specs.HashSet.{contains};
ghost use Rattle.std.specs.List.{list_any, list_all};
ghost use Rattle.std.specs.Option.{option_copied, option_and_then, option_map_or};
ghost use Rattle.std.specs.Str.{bytes_eq};
ghost use Rattle.model_merge.specs.Configuration.{chosen_text, is_blank, merged_configuration, merged_or, merged_setting, name_of, partners, unnamed};
ghost use Rattle.model_merge.specs.Names.{count_in, places_in, places_from};

use mvn_base::Setting;
use mvn_shared::{List, Mem, Text};
use std::alloc::Global;
use std::collections::{HashMap, HashSet};

// Whether a text has nothing but white space.
fn is_blank_text(text: &Text) -> bool
    ensures { result ≡ list_all is_blank text.now }
{
    text.as_bytes()
        .iter()
        .all(|byte| matches!(*byte, b' ' | b'\t' | b'\n' | b'\r'))
}

// The child's text where it has more than white space, or else the parent's.
fn chosen_text(own: &Text, inherited: &Text) -> Mem<Text>
    ensures { IfOk result (λ text. text ≡ chosen_text own.now inherited.now) }
{
    if is_blank_text(own) {
        Ok(inherited.clone()?)
    } else {
        Ok(own.clone()?)
    }
}

// One place more, under a name.
fn add_place(
    alloc: Global,
    places: &mut HashMap<Text, Vec<usize>>,
    name: &Text,
    place: usize,
) -> Mem<()>
    ensures { OnOk result ((q : List ℕ) →
        places_in places.new q
        ≡ (if bytes_eq name.now q then places_in places.old q
        ++ place ∷ [] else places_in places.old q)) }
{
    let mut list = match places.remove(name) {
        Some(list) => list,
        None => Vec::new(alloc),
    };
    list.push(place)?;
    places.insert(name.clone()?, list)?;
    Ok(())
}

// The places of the settings of each name, ascending.
fn places_of(alloc: Global, settings: &[Setting]) -> Mem<HashMap<Text, Vec<usize>>>
    ensures { IfOk result (λ places. (q : List ℕ) →
        places_in places q ≡ places_from q 0 settings.now) }
{
    let mut places = HashMap::new(alloc);
    for place in 0..settings.len() {
        add_place(alloc, &mut places, &settings[place].name, place)?;
    }
    Ok(places)
}

// How many of a name came before; one more from now on.
fn counted(counts: &mut HashMap<Text, usize>, name: &Text) -> Mem<usize>
    requires { count_in counts.old name.now < 2 ^ 63 }
    ensures number { IfOk result (λ number. number ≡ count_in counts.old name.now) }
    ensures others { OnOk result ((q : List ℕ) →
        count_in counts.new q
        ≡ (if bytes_eq name.now q then count_in counts.old q + 1 else count_in counts.old q)) }
{
    let number = match counts.get(name) {
        Some(number) => *number,
        None => 0,
    };
    counts.insert(name.clone()?, number + 1)?;
    Ok(number)
}

// The place of that number under a name.
fn place_at(places: &HashMap<Text, Vec<usize>>, name: &Text, number: usize) -> Option<usize>
    ensures { result ≡ slice_get (places_in places.now name.now) number }
{
    match places.get(name) {
        Some(list) => list.get(number).copied(),
        None => None,
    }
}

// For each child's setting the place of the parent's that it is merged with.
fn partner_places(alloc: Global, child: &[Setting], parent: &[Setting]) -> Mem<Vec<Option<usize>>>
    ensures { IfOk result (λ list. map (λ o. option_and_then (slice_get parent.now) o) list.items
        ≡ partners [] (map name_of child.now) parent.now) }
{
    let places = places_of(alloc, parent)?;
    let mut counts = HashMap::new(alloc);
    let mut list = Vec::with_capacity(alloc, child.len())?;
    for setting in child {
        let number = counted(&mut counts, &setting.name)?;
        list.push(place_at(&places, &setting.name, number))?;
    }
    Ok(list)
}

// The names of settings.
fn names_of(alloc: Global, settings: &[Setting]) -> Mem<HashSet<Text>>
    ensures { IfOk result (λ names. (q : List ℕ) →
        contains bytes_eq names q ≡ list_any (λ n. bytes_eq n q) (map name_of settings.now)) }
{
    let mut names = HashSet::new(alloc);
    for setting in settings {
        names.insert(setting.name.clone()?)?;
    }
    Ok(names)
}

// A copy of a setting.
fn copy(setting: &Setting) -> Mem<Setting>
    ensures { IfOk result (λ copy. copy ≡ setting.now) }
{
    Ok(setting.clone()?)
}

// A parent's setting, after a list where its name isn't among the child's.
fn push_unnamed(list: &mut List<Setting>, names: &HashSet<Text>, setting: &Setting) -> Mem<()>
    ensures { (child : List (List ℕ)) →
        ((q : List ℕ) → contains bytes_eq names.now q ≡ list_any (λ n. bytes_eq n q) child) →
        OnOk result (list.new ≡ list.old ++ unnamed child (setting.now ∷ [])) }
{
    if names.contains(&setting.name) {
        return Ok(());
    }
    list.push(copy(setting)?)
}

// The parent's settings of names that the child hasn't, after a list.
fn with_unnamed(
    list: List<Setting>,
    names: &HashSet<Text>,
    parent: &[Setting],
) -> Mem<List<Setting>>
    ensures { (child : List (List ℕ)) →
        ((q : List ℕ) → contains bytes_eq names.now q ≡ list_any (λ n. bytes_eq n q) child) →
        IfOk result (λ whole. whole ≡ list ++ unnamed child parent.now) }
{
    let mut list = list;
    for setting in parent {
        push_unnamed(&mut list, names, setting)?;
    }
    Ok(list)
}

// A child's setting, merged with the parent's of its name and number.
#[cycle(merged_setting)]
fn merged_setting(alloc: Global, child: &Setting, parent: &Setting) -> Mem<Setting>
    ensures { IfOk result (λ merged. merged ≡ merged_setting child.now parent.now) }
{
    let name = child.name.clone()?;
    let text = chosen_text(&child.text, &parent.text)?;
    let children = merged_configuration(
        alloc,
        child.children.as_slice(),
        parent.children.as_slice(),
    )?;
    Ok(Setting {
        name,
        text,
        children,
    })
}

// A child's setting, merged with its partner where it has one.
#[cycle(merged_setting)]
fn merged_or(alloc: Global, child: &Setting, partner: Option<&Setting>) -> Mem<Setting>
    ensures { IfOk result (λ merged. merged ≡ merged_or child.now (option_copied partner.entry)) }
{
    match partner {
        Some(parent) => merged_setting(alloc, child, parent),
        None => copy(child),
    }
}

// The partner of the child's setting at a place.
fn partner_at<'a>(places: &[Option<usize>], at: usize, parent: &'a [Setting]) -> Option<&'a Setting>
    ensures { option_copied result
        ≡ option_and_then (λ o. o)
        (slice_get (map (option_and_then (slice_get parent.now)) places.now) at) }
{
    match places.get(at) {
        Some(Some(place)) => parent.get(*place),
        _ => None,
    }
}

/// The settings of a configuration, each merged with the parent's of the same name and number at every depth, and then
/// the parent's of names that aren't there. A merged setting has the child's text where that has more than white space.
/// Costs both, on the average, for each level of them. Project rule.
#[cycle(merged_setting)]
pub fn merged_configuration(
    alloc: Global,
    child: &[Setting],
    parent: &[Setting],
) -> Mem<List<Setting>>
    ensures { IfOk result (λ merged. merged ≡ merged_configuration child.now parent.now) }
{
    let places = partner_places(alloc, child, parent)?;
    let mut list = List::new(alloc);
    for at in 0..child.len() {
        let partner = partner_at(places.as_slice(), at, parent);
        list.push(merged_or(alloc, &child[at], partner)?)?;
    }
    with_unnamed(list, &names_of(alloc, child)?, parent)
}
