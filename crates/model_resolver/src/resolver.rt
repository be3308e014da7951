//! `ModelResolver`: POMs looked up over the project's folder, its own POMs and two repositories.

use crate::asking::{ask_there, ask_tree};
use crate::failures::Failures;
use crate::known::{project_at, project_of};
use crate::poms::ProjectPoms;
use crate::repositories::find_in_repositories;
use mvn_base::Gav;
use mvn_outside::{DeviceFault, Files, Remote, Shelf, Tree};
use mvn_shared::{Bytes, Text};
use pom_source::{Found, PomSource};
use std::alloc::Global;

/// A POM of the project that was read: where it stands, its coordinates as it says them, and its bytes.
#[derive(Drop)]
pub struct ProjectPom {
    pub path: Text,
    pub gav: Gav,
    pub bytes: Bytes,
}

/// Looks POMs up: by their path in the project's folder; by their coordinates among the project's POMs first, then in
/// the local repository, then in the remote one. Each of the project's POMs that was read is answered from memory. It
/// counts its failures, and keeps which device failed first; after that no device is asked. A look-up by coordinates
/// among the project's POMs costs the coordinates, on the average. Maven Model Builder, `ModelResolver`.
#[derive(Drop)]
pub struct ModelResolver<'t, 's, 'r, 'p, T, S, R> {
    pub alloc: Global,
    pub tree: &'t mut T,
    pub shelf: &'s mut S,
    pub remote: &'r mut R,
    pub project: &'p ProjectPoms<'p>,
    pub failures: Failures,
}

impl<'t, 's, 'r, 'p, T: Tree, S: Shelf, R: Remote> Files
    for ModelResolver<'t, 's, 'r, 'p, T, S, R> {
    ghost use Rattle.std.specs.Prelude.{false};
    ghost use Rattle.model_resolver.specs.Fitting.{may_fail};
    ghost use Rattle.model_resolver.specs.Resolving.{TellsSame};

    ghost fits = { λ resolver world. T.fits resolver.tree.now world };

    ghost faults = { λ resolver. resolver.failures.count };

    ghost never_fails = { λ resolver. false };

    ghost no_faults = { λ resolver never. may_fail resolver.failures.count never };

    ghost tells_same = { TellsSame T.files T.faults S.told S.faults R.files R.faults };

    fn has(&mut self, path: &Text) -> Result<bool, DeviceFault> {
        ask_there(&mut *self.tree, &mut self.failures, path)
    }
}

impl<'t, 's, 'r, 'p, T: Tree, S: Shelf, R: Remote> PomSource
    for ModelResolver<'t, 's, 'r, 'p, T, S, R> {
    ghost use Rattle.model_resolver.specs.Resolving.{FitsWorld};
    ghost use Rattle.model_resolver.specs.Fitting.{fits_tree, fits_still};

    ghost fits_poms = { FitsWorld T.files T.faults S.told S.faults R.files R.faults };

    ghost files_fit = { λ resolver world fits. fits_tree T.files T.faults S.told S.faults R.files R.faults T.fits T.agrees resolver world fits };

    ghost fits_on = { λ before now world same fits. fits_still T.files T.faults S.told S.faults R.files R.faults before now world same fits };

    fn by_path(&mut self, path: &Text) -> Result<Option<Bytes>, DeviceFault> {
        if let Some(bytes) = project_at(self.project, path)? {
            return Ok(Some(bytes));
        }
        ask_tree(self.alloc, &mut *self.tree, &mut self.failures, path)
    }

    #[tactic(auto, using(crate::proofs::Finding::found_first, crate::proofs::Finding::found_later))]
    fn by_gav(&mut self, gav: &Gav) -> Result<Option<Found>, DeviceFault> {
        if let Some(found) = project_of(self.project, gav)? {
            return Ok(Some(found));
        }
        find_in_repositories(
            self.alloc,
            &mut *self.shelf,
            &mut *self.remote,
            &mut self.failures,
            gav,
        )
    }
}
