//! The project's POMs, with the place of the first of each coordinates.

ghost use Rattle.std.specs.Prelude.{◌≡◌, find, slice_get, Some, IfOk, OnOk, if◌then◌else◌};
ghost use Rattle.std.specs.HashMap.{get};
ghost use Rattle.std.specs.Option.{option_copied};
ghost use Rattle.mvn_base.specs.Gav.{gav_eq};
ghost use Rattle.mvn_base.specs.declared.gav.Gav as gavs;
ghost use Rattle.model_resolver.specs.Places.{LeadToFirst};

use crate::resolver::ProjectPom;
use mvn_base::Gav;
use mvn_shared::Mem;
use std::alloc::Global;
use std::collections::HashMap;
use std::marker::Model;

/// The project's POMs that were read, in their order, where coordinates are found at once. Contracts see them as the
/// list. Project rule.
#[derive(Drop)]
pub struct ProjectPoms<'p> {
    poms: &'p [ProjectPom],
    places: HashMap<Gav, usize>,
}

impl<'p> Model for ProjectPoms<'p> {
    ghost use Rattle.std.specs.Prelude as logic;
    ghost use Rattle.std.specs.Coded.{codes};
    ghost use Rattle.std.specs.HashMap.{get};
    ghost use Rattle.mvn_base.specs.contracts.setting.Setting as settings;
    ghost use Rattle.mvn_base.specs.Gav.{gav_eq};
    ghost use Rattle.model_resolver.specs.declared.resolver.ProjectPom as entries;
    ghost use Rattle.model_resolver.specs.Places.{LeadToFirst};

    ghost Value = { logic.List entries.ProjectPom };

    ghost coded = { Prim.hlevel (codes, settings.the_row.coded) };

    ghost view = { λ all. all.poms.now };

    ghost invariant = { λ all. LeadToFirst all.poms.now all.poms.now (get gav_eq all.places) };
}

// Puts a place under coordinates, instead of another.
fn put_place(places: &mut HashMap<Gav, usize>, gav: &Gav, place: usize) -> Mem<()>
    ensures { OnOk result ((other : gavs.Gav) → get gav_eq places.new other
        ≡ (if gav_eq gav.now other then Some place else get gav_eq places.old other)) }
{
    places.insert(gav.clone()?, place)?;
    Ok(())
}

// The place of the first POM of each coordinates: from the last POM to the first, each takes the place of one after it.
fn places_of(alloc: Global, poms: &[ProjectPom]) -> Mem<HashMap<Gav, usize>>
    ensures { IfOk result (λ places. LeadToFirst poms.now poms.now (get gav_eq places)) }
{
    let mut places = HashMap::new(alloc);
    for at in (0..poms.len()).rev() {
        put_place(&mut places, &poms[at].gav, at)?;
    }
    Ok(places)
}

// The POM at a place.
fn at_place(poms: &[ProjectPom], place: usize) -> Option<&ProjectPom>
    ensures { option_copied result ≡ slice_get poms.now place }
{
    poms.get(place)
}

impl<'p> ProjectPoms<'p> {
    /// These POMs. Costs the coordinates of each, on the average; their texts aren't copied.
    pub fn of(alloc: Global, poms: &'p [ProjectPom]) -> Mem<ProjectPoms<'p>>
        ensures { IfOk result (λ all. all ≡ poms.now) }
    {
        let places = places_of(alloc, poms)?;
        Ok(ProjectPoms { poms, places })
    }

    /// The POMs as a list. Constant time.
    pub(crate) fn list(&self) -> &[ProjectPom]
        ensures { result.now ≡ self.now }
    {
        self.poms
    }

    /// The first of these coordinates. Costs the coordinates, on the average.
    pub(crate) fn first(&self, gav: &Gav) -> Option<&ProjectPom>
        ensures { option_copied result ≡ find (λ p. gav_eq p.gav gav.now) self.now }
    {
        match self.places.get(gav) {
            Some(place) => at_place(self.poms, *place),
            None => None,
        }
    }
}
