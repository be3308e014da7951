//! `Judge`: what the profiles of one POM are judged by, and whether one is chosen.

ghost use Rattle.std.specs.Prelude.{◌≡◌, ◌&&◌, false, is_some, option_map, option_to_list, IfOk};
ghost use Rattle.std.specs.Option.{option_map_or};
ghost use Rattle.profiles.specs.Activation.{asks_file, file_holds, folder_of, for_project, is_listed, stands};
ghost use Rattle.profiles.specs.Judging.{Alone, Asks, Judges, asked_path, asks_for, asks_of, criteria_by, holds_by, is_chosen_by, is_default_by, named_by, place_of};

use crate::criteria::{all_hold, push_given, push_jdk, push_os, push_property};
use crate::file_text::{basedir_of, filled, path_of};
use crate::lookup::Known;
use model_types::{Activation, Profile, RawModel};
use mvn_base::{Choice, Machine, Pair, PomId, joined};
use mvn_outside::{DeviceFault, Files};
use mvn_shared::{List, Mem, Shared, Text};
use std::alloc::Global;

/// Where a project's POM stands: its folder, from the project's root on, and as a path of the
/// system.
#[derive(Drop)]
pub(crate) struct Place {
    folder: Text,
    basedir: Text,
}

// The folder of a POM.
fn folder_of(alloc: Global, pom: &Text) -> Mem<Text>
    ensures { IfOk result (λ folder. folder ≡ folder_of pom.now) }
{
    let up = Text::from_str(alloc, "..")?;
    joined(alloc, pom, &up)
}

// Where a POM stands, where it is one of the project.
fn place_of(alloc: Global, machine: &Machine, pom: &PomId) -> Mem<Option<Place>>
    ensures { IfOk result (λ place. place ≡ place_of machine.now pom.now) }
{
    match pom {
        PomId::Path(path) => {
            let folder = folder_of(alloc, path)?;
            let basedir = basedir_of(alloc, &machine.root, &folder)?;
            Ok(Some(Place { folder, basedir }))
        }
        PomId::Gav(_) => Ok(None),
    }
}

/// What the profiles of one POM are judged by.
#[derive(Drop)]
pub(crate) struct Judge<'a> {
    machine: &'a Machine,
    pom: &'a PomId,
    choice: &'a Choice,
    known: Known,
    place: Option<Place>,
}

// Whether a file stands at a path, where one is named.
#[tactic(auto, using(crate::proofs::Telling::untold, crate::proofs::Telling::told_once))]
fn has_file<F: Files>(files: &mut F, path: &Option<Text>) -> Result<bool, DeviceFault>
    ensures { Asks F.fits F.faults F.tells_same files.old files.new result
        (λ world. stands world path.now) }
{
    match path {
        Some(path) => files.has(path),
        None => Ok(false),
    }
}

impl<'a> Judge<'a> {
    /// What judges the profiles of a POM. Costs the properties, on the average.
    pub(crate) fn of(
        alloc: Global,
        raw: &'a RawModel,
        machine: &'a Machine,
        defines: &[Pair],
        choice: &'a Choice,
    ) -> Mem<Judge<'a>>
        ensures { IfOk result (λ judge. Judges judge machine.now defines.now choice.now
            raw.now.pom raw.now.profiles) }
    {
        let pom = raw.pom.value();
        let place = place_of(alloc, machine, pom)?;
        let known = Known::of(alloc, defines, machine)?;
        Ok(Judge {
            machine,
            pom,
            choice,
            known,
            place,
        })
    }

    // The path that a text names, from a place on.
    fn asked_path(&self, alloc: Global, place: &Place, text: &Text) -> Mem<Option<Text>>
        ensures { IfOk result (λ path. path ≡ asked_path self.now place.now text.now) }
    {
        let text = filled(alloc, &place.basedir, &self.known, text)?;
        path_of(alloc, &self.machine.root, &place.folder, &text)
    }

    // Whether what a text names is there, or is missing.
    #[tactic(auto, using(crate::proofs::Telling::untold))]
    fn file_holds<F: Files>(
        &self,
        alloc: Global,
        missing: bool,
        text: &Text,
        files: &mut F,
    ) -> Result<bool, DeviceFault>
        ensures asks { Asks F.fits F.faults F.tells_same files.old files.new result
            (λ world. file_holds missing world (named_by self.now text.now)) }
        ensures alone { Alone (is_some self.now.place) result
            (λ world. file_holds missing world (named_by self.now text.now)) }
        ensures untouched { is_some self.now.place ≡ false → files.new ≡ files.old }
    {
        let Some(place) = &self.place else {
            return Ok(false);
        };
        let path = self.asked_path(alloc, place, text)?;
        let found = has_file(files, &path)?;
        Ok(found != missing)
    }

    // What the file criterion comes to, where there is one.
    #[tactic(auto, using(crate::proofs::Telling::untold))]
    fn file_criterion<F: Files>(
        &self,
        alloc: Global,
        missing: bool,
        text: &Option<Text>,
        files: &mut F,
    ) -> Result<Option<bool>, DeviceFault>
        ensures asks { Asks F.fits F.faults F.tells_same files.old files.new result
            (λ world. option_map (λ t. file_holds missing world (named_by self.now t)) text.now) }
        ensures alone { Alone (is_some self.now.place && is_some text.now) result
            (λ world. option_map (λ t. file_holds missing world (named_by self.now t)) text.now) }
        ensures untouched { (is_some self.now.place && is_some text.now) ≡ false
            → files.new ≡ files.old }
    {
        match text {
            Some(text) => Ok(Some(self.file_holds(alloc, missing, text, files)?)),
            None => Ok(None),
        }
    }

    // What is asked, each as whether it holds; what is asked of files is known.
    fn criteria(
        &self,
        alloc: Global,
        activation: &Activation,
        exists: Option<bool>,
        missing: Option<bool>,
    ) -> Mem<Vec<bool>>
        ensures { IfOk result (λ list. list.items
            ≡ criteria_by self.now activation.now
            (option_to_list exists) (option_to_list missing)) }
    {
        let mut list = Vec::new(alloc);
        push_property(alloc, &mut list, &self.known, &activation.property)?;
        push_given(&mut list, exists)?;
        push_given(&mut list, missing)?;
        push_jdk(alloc, &mut list, self.machine, &activation.jdk)?;
        push_os(&mut list, self.machine, &activation.os)?;
        Ok(list)
    }

    // Whether an activation has a criterion, and all hold.
    #[tactic(auto, using(crate::proofs::Asking::left_false, crate::proofs::Asking::right_false, crate::proofs::Telling::untold, crate::proofs::Telling::told_both))]
    fn holds<F: Files>(
        &self,
        alloc: Global,
        activation: &Activation,
        files: &mut F,
    ) -> Result<bool, DeviceFault>
        ensures asks { Asks F.fits F.faults F.tells_same files.old files.new result
            (λ world. holds_by self.now world activation.now) }
        ensures alone { Alone (asks_of self.now activation.now) result
            (λ world. holds_by self.now world activation.now) }
        ensures untouched { asks_of self.now activation.now ≡ false → files.new ≡ files.old }
    {
        let exists = self.file_criterion(alloc, false, &activation.exists, files)?;
        let missing = self.file_criterion(alloc, true, &activation.missing, files)?;
        let list = self.criteria(alloc, activation, exists, missing)?;
        Ok(all_hold(list.as_slice()))
    }

    // Whether all criteria hold, where there is an activation.
    #[tactic(auto, using(crate::proofs::Telling::untold))]
    fn activates<F: Files>(
        &self,
        alloc: Global,
        activation: &Option<Shared<Activation>>,
        files: &mut F,
    ) -> Result<bool, DeviceFault>
        ensures asks { Asks F.fits F.faults F.tells_same files.old files.new result
            (λ world. option_map_or (holds_by self.now world) activation.now false) }
        ensures alone { Alone
            (is_some self.now.place && option_map_or asks_file activation.now false) result
            (λ world. option_map_or (holds_by self.now world) activation.now false) }
        ensures untouched { (is_some self.now.place && option_map_or asks_file activation.now false)
            ≡ false
            → files.new ≡ files.old }
    {
        match activation {
            Some(activation) => self.holds(alloc, activation.value(), files),
            None => Ok(false),
        }
    }

    // Whether an id is among some, which count for a POM of the project.
    fn is_listed(&self, ids: &List<Text>, id: &Text) -> bool
        ensures { result ≡ is_listed (for_project self.now.pom.now ids.now) id.now }
    {
        match self.pom {
            PomId::Path(_) => ids.as_slice().contains(id),
            PomId::Gav(_) => false,
        }
    }

    /// Whether a profile is active by its id or by its criteria.
    #[tactic(auto, using(crate::proofs::Asking::unlisted_false, crate::proofs::Telling::untold))]
    pub(crate) fn is_chosen<F: Files>(
        &self,
        alloc: Global,
        profile: &Profile,
        files: &mut F,
    ) -> Result<bool, DeviceFault>
        ensures asks { Asks F.fits F.faults F.tells_same files.old files.new result
            (λ world. is_chosen_by self.now world profile.now) }
        ensures alone { Alone (asks_for self.now profile.now) result
            (λ world. is_chosen_by self.now world profile.now) }
        ensures untouched { asks_for self.now profile.now ≡ false → files.new ≡ files.old }
    {
        if self.is_listed(&self.choice.off, &profile.id) {
            return Ok(false);
        }
        if self.is_listed(&self.choice.on, &profile.id) {
            return Ok(true);
        }
        self.activates(alloc, &profile.activation, files)
    }

    /// Whether a profile is active where no profile is chosen.
    pub(crate) fn is_default(&self, profile: &Profile) -> bool
        ensures { result ≡ is_default_by self.now profile.now }
    {
        match &profile.activation {
            Some(activation) => {
                activation.by_default && !self.is_listed(&self.choice.off, &profile.id)
            }
            None => false,
        }
    }
}
