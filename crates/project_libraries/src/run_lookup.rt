//! What a run knows of libraries, as mediation asks for it.

ghost use Rattle.std.specs.Prelude.{◌≡◌, ◌≤◌, length, IfOk, IfSome};
ghost use Rattle.mvn_shared.specs.Cause.{HasCause};
ghost use Rattle.mvn_outside.specs.Shelf.{files_now};
ghost use Rattle.model_resolver.specs.Resolving.{TellsSame};
ghost use Rattle.mediation.specs.Faults.{lookup_failed};
ghost use Rattle.mediation.specs.Telling.{TellsOn};
ghost use Rattle.project_libraries.specs.Available.{available};
ghost use Rattle.mvn_base.specs.Limits.{most_versions};

use crate::known::known_at;
use crate::{Versions, available};
use effective::RunStore;
use mediation::{Known, Lookup, LookupFault};
use model_resolver::ModelResolver;
use model_types::Model;
use mvn_base::Gav;
use mvn_outside::{Remote, Shelf, Tree};
use mvn_shared::{List, Shared, Text};
use pom_source::Given;
use std::collections::HashMap;

// The versions of an artifact among modules and in the repositories of a source.
fn versions_in<'t, 's, 'r, 'p, T: Tree, S: Shelf, R: Remote>(
    source: &mut ModelResolver<'t, 's, 'r, 'p, T, S, R>,
    own: &[Shared<Model>],
    group: &Text,
    artifact: &Text,
) -> Result<Versions, LookupFault>
    ensures tells { IfSome (S.told source.old.shelf.now) (λ told.
        IfSome (R.files source.old.remote.now) (λ files. IfOk result (λ all.
        all ≡ available (files_now told) files own.now group.now artifact.now))) }
    ensures few { IfOk result (λ all. IfSome all (λ list. length list ≤ most_versions)) }
    ensures same { TellsSame T.files T.faults S.told S.faults R.files R.faults
        source.old source.new }
    ensures cause { HasCause source.old.failures.count source.new.failures.count
        (lookup_failed result) }
{
    available(
        source.alloc,
        &mut *source.shelf,
        &mut *source.remote,
        &mut source.failures,
        own,
        group,
        artifact,
    )
}

/// Answers of a coordinate the effective model of the module that has it, and else what its POM comes to, which is
/// built once; of an artifact the versions of the modules and of the two repositories.
#[derive(Drop)]
pub(crate) struct RunLookup<'t, 's, 'r, 'p, 'k, 'g, 'o, 'm, T, S, R> {
    pub source: ModelResolver<'t, 's, 'r, 'p, T, S, R>,
    pub store: &'k mut RunStore,
    pub given: &'g Given,
    pub own: &'o [Shared<Model>],
    pub memo: &'m mut HashMap<Gav, Known>,
}

impl<'t, 's, 'r, 'p, 'k, 'g, 'o, 'm, T: Tree, S: Shelf, R: Remote> Lookup
    for RunLookup<'t, 's, 'r, 'p, 'k, 'g, 'o, 'm, T, S, R> {
    ghost use Rattle.project_libraries.specs.Holding.{AlikeRun, FitsRun};

    ghost fits = { FitsRun T.files T.faults S.told S.faults R.files R.faults };

    ghost faults = { λ lookup. lookup.source.failures.count };

    ghost tells_same = { AlikeRun T.files T.faults S.told S.faults R.files R.faults };

    fn model(&mut self, gav: &Gav) -> Result<Known, LookupFault> {
        known_at(
            self.source.alloc,
            &mut self.source,
            &mut *self.store,
            self.given,
            &mut *self.memo,
            gav,
        )
    }

    fn versions(
        &mut self,
        group: &Text,
        artifact: &Text,
    ) -> Result<Option<List<Text>>, LookupFault> {
        versions_in(&mut self.source, self.own, group, artifact)
    }
}

/// A look-up that tells after some calls what it tells after one.
pub(crate) trait Whole: Lookup {
    ghost whole: { (before now : Self) → TellsOn Self.tells_same before now → Self.tells_same before now };
}

impl<'t, 's, 'r, 'p, 'k, 'g, 'o, 'm, T: Tree, S: Shelf, R: Remote> Whole
    for RunLookup<'t, 's, 'r, 'p, 'k, 'g, 'o, 'm, T, S, R> {
    ghost use Rattle.project_libraries.specs.Composing.{alike_whole};

    ghost whole = { λ before now told. alike_whole T.files T.faults S.told S.faults R.files R.faults told };
}
