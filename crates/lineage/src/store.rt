//! `Store`: what was read in a run, by path and by coordinates, and the lineages of parents.

ghost use Rattle.std.specs.Prelude.{◌≡◌, ◌≤◌, ℕ, List as Items, Ok, None, Some, length, is_some, IfOk, IfSome, OnOk, OnErr, true, false, if◌then◌else◌};
ghost use Rattle.std.specs.HashMap.{get};
ghost use Rattle.std.specs.Option.{option_or};
ghost use Rattle.std.specs.Str.{bytes_eq};
ghost use Rattle.mvn_base.specs.declared.gav.Gav as gavs;
ghost use Rattle.mvn_base.specs.declared.refusal.PomId as poms;
ghost use Rattle.model_types.specs.declared.model.RawModel as raws;
ghost use Rattle.pom_source.specs.Worlds.{World};
ghost use Rattle.pom_source.specs.declared.found.Given as givens;
ghost use Rattle.mvn_base.specs.Gav.{gav_eq};
ghost use Rattle.lineage.specs.Beside.{read_at};
ghost use Rattle.lineage.specs.Lineage.{joined_from, known_at};
ghost use Rattle.lineage.specs.declared.origin.Candidate.TheVariants as candidates;
ghost use Rattle.lineage.specs.Stores.{AgreesOnPaths, AreActive, Holds, IsAt, IsKept, KeepsLines, KeepsRead, if_serves, known_as, known_in, line_in, meets, places_in, read_in, serves};

use crate::joined::Joined;
use crate::origin::{Candidate, Origin};
use crate::poms::meets;
use model_types::RawModel;
use mvn_base::{Gav, PomId};
use mvn_shared::{List, Mem, Shared, Text};
use std::alloc::Global;
use std::collections::HashMap;

/// What was read in a run: the POM at each path and of each coordinates that was asked for, which profiles of the POM
/// at a path are active, and what parents build on, by the path or the coordinates that led to them. So a POM of the
/// project is read, activated and joined once, whether it is a module, a parent or both, and a parent that a thousand
/// modules share, too, if it has one way to it. A store serves one `Given` and one project. Nothing in it is forgotten.
/// That coordinates lead to no POM is kept, and the refusal of the POM that they lead to; other refusals aren't.
/// Project rule.
#[derive(Drop)]
pub struct Store {
    read: HashMap<Text, Option<Shared<RawModel>>>,
    known: HashMap<Gav, Option<Shared<Candidate>>>,
    beside: HashMap<Text, Shared<Joined>>,
    elsewhere: HashMap<Gav, Shared<Joined>>,
    active: HashMap<Text, Shared<List<usize>>>,
}

// Whether a lineage serves one who has met these POMs and may meet so many.
fn serves(kept: &Joined, left: u32, seen: &List<PomId>) -> bool
    ensures value { result ≡ serves left seen.now kept.now }
    ensures few { result ≡ true → length kept.now.poms ≤ left }
    ensures apart { result ≡ true → meets kept.now.poms seen.now ≡ false }
{
    kept.poms.len() <= left as usize && !meets(&kept.poms, seen)
}

// A copy of what was found.
fn same_found(found: &Option<Shared<RawModel>>) -> Mem<Option<Shared<RawModel>>>
    ensures { IfOk result (λ same. same ≡ found.now) }
{
    Ok(found.clone()?)
}

// A copy of what is known.
fn same_known(found: &Option<Shared<Candidate>>) -> Mem<Option<Shared<Candidate>>>
    ensures { IfOk result (λ same. same ≡ found.now) }
{
    Ok(found.clone()?)
}

// A POM that was read at a path, as one that coordinates lead to.
fn as_known(
    alloc: Global,
    found: &Option<Shared<RawModel>>,
) -> Mem<Option<Option<Shared<Candidate>>>>
    ensures { IfOk result (λ known. known ≡ known_as (Some found.now)) }
{
    match found {
        Some(raw) => {
            let known = Shared::new(alloc, Candidate::Read(raw.share()?))?;
            Ok(Some(Some(known)))
        }
        None => Ok(None),
    }
}

// Puts what is known under coordinates.
fn set_known(
    map: &mut HashMap<Gav, Option<Shared<Candidate>>>,
    gav: &Gav,
    found: &Option<Shared<Candidate>>,
) -> Mem<()>
    ensures ok { OnOk result ((other : gavs.Gav) → get gav_eq map.new other
        ≡ (if gav_eq gav.now other then Some found.now else get gav_eq map.old other)) }
    ensures err { OnErr result ((other : gavs.Gav) → get gav_eq map.new other
        ≡ get gav_eq map.old other) }
{
    map.insert(gav.clone()?, same_known(found)?)?;
    Ok(())
}

// Puts a lineage under a path.
fn set_beside(
    map: &mut HashMap<Text, Shared<Joined>>,
    path: &Text,
    line: &Shared<Joined>,
) -> Mem<()>
    ensures ok { OnOk result ((other : Items ℕ) → get bytes_eq map.new other
        ≡ (if bytes_eq path.now other then Some line.now else get bytes_eq map.old other)) }
    ensures err { OnErr result ((other : Items ℕ) → get bytes_eq map.new other
        ≡ get bytes_eq map.old other) }
{
    map.insert(path.clone()?, line.share()?)?;
    Ok(())
}

// Puts a lineage under coordinates.
fn set_elsewhere(
    map: &mut HashMap<Gav, Shared<Joined>>,
    gav: &Gav,
    line: &Shared<Joined>,
) -> Mem<()>
    ensures ok { OnOk result ((other : gavs.Gav) → get gav_eq map.new other
        ≡ (if gav_eq gav.now other then Some line.now else get gav_eq map.old other)) }
    ensures err { OnErr result ((other : gavs.Gav) → get gav_eq map.new other
        ≡ get gav_eq map.old other) }
{
    map.insert(gav.clone()?, line.share()?)?;
    Ok(())
}

// Puts the places of active profiles under a path.
fn set_active(
    map: &mut HashMap<Text, Shared<List<usize>>>,
    path: &Text,
    places: &Shared<List<usize>>,
) -> Mem<()>
    ensures ok { OnOk result ((other : Items ℕ) → get bytes_eq map.new other
        ≡ (if bytes_eq path.now other then Some places.now else get bytes_eq map.old other)) }
    ensures err { OnErr result ((other : Items ℕ) → get bytes_eq map.new other
        ≡ get bytes_eq map.old other) }
{
    map.insert(path.clone()?, places.share()?)?;
    Ok(())
}

// Puts what was read under a path.
fn set_read(
    map: &mut HashMap<Text, Option<Shared<RawModel>>>,
    path: &Text,
    found: &Option<Shared<RawModel>>,
) -> Mem<()>
    ensures ok { OnOk result ((other : Items ℕ) → get bytes_eq map.new other
        ≡ (if bytes_eq path.now other then Some found.now else get bytes_eq map.old other)) }
    ensures err { OnErr result ((other : Items ℕ) → get bytes_eq map.new other
        ≡ get bytes_eq map.old other) }
{
    map.insert(path.clone()?, same_found(found)?)?;
    Ok(())
}

impl Store {
    /// An empty store. Takes no memory.
    #[tactic(auto, using(crate::proofs::Holding::nothing_held))]
    pub fn new(alloc: Global) -> Store
        ensures { (world : World) (given : givens.Given) → Holds world given result }
    {
        Store {
            read: HashMap::new(alloc),
            known: HashMap::new(alloc),
            beside: HashMap::new(alloc),
            elsewhere: HashMap::new(alloc),
            active: HashMap::new(alloc),
        }
    }

    /// What was read by path and which profiles are active there, without the rest: for a source that finds the same
    /// POMs and files by path, and other POMs by coordinates. Takes no memory. Project rule.
    pub fn only_by_path(self, alloc: Global) -> Store
        ensures { (world other : World) (given : givens.Given) → Holds world given self
            → AgreesOnPaths world other → other.there ≡ world.there → Holds other given result }
    {
        let Store { read, active, .. } = self;
        Store {
            read,
            known: HashMap::new(alloc),
            beside: HashMap::new(alloc),
            elsewhere: HashMap::new(alloc),
            active,
        }
    }

    // What was read at a path, if that was asked for.
    fn read_there(&self, path: &Text) -> Mem<Option<Option<Shared<RawModel>>>>
        ensures { IfOk result (λ found. found ≡ read_in self.now path.now) }
    {
        match self.read.get(path) {
            Some(found) => Ok(Some(same_found(found)?)),
            None => Ok(None),
        }
    }

    /// What was read at a path before. Costs the path.
    #[tactic(auto, using(crate::proofs::Holding::read_serves))]
    pub fn find_read(&self, path: &Text) -> Mem<Option<Option<Shared<RawModel>>>>
        ensures value { IfOk result (λ found. found ≡ read_in self.now path.now) }
        ensures told { (world : World) (given : givens.Given) → Holds world given self.now
            → IfOk result (λ kept. IfSome kept (λ found. read_at world path.now ≡ Ok found)) }
    {
        let kept = self.read_there(path)?;
        Ok(kept)
    }

    /// Keeps what was read at a path. Costs the path.
    #[tactic(auto, using(crate::proofs::Holding::holds_same, crate::proofs::Holding::read_more))]
    pub fn keep_read(&mut self, path: &Text, found: &Option<Shared<RawModel>>) -> Mem<()>
        ensures kept { OnOk result (read_in self.new path.now ≡ Some found.now) }
        ensures keeps { read_in self.old path.now ≡ None → KeepsRead self.old self.new }
        ensures keeps_lines { KeepsLines self.old self.new }
        ensures holds { (world : World) (given : givens.Given) → Holds world given self.old
            → read_at world path.now ≡ Ok found.now → Holds world given self.new }
    {
        set_read(&mut self.read, path, found)
    }

    // The places that are kept under a path.
    fn active_there(&self, path: &Text) -> Mem<Option<Shared<List<usize>>>>
        ensures { IfOk result (λ found. found ≡ places_in self.now path.now) }
    {
        match self.active.get(path) {
            Some(places) => Ok(Some(places.share()?)),
            None => Ok(None),
        }
    }

    /// The places of the active profiles of the POM at a path, if they were looked for before. Costs the path.
    #[tactic(auto, using(crate::proofs::Holding::active_serves))]
    pub fn find_active(&self, path: &Text) -> Mem<Option<Shared<List<usize>>>>
        ensures value { IfOk result (λ found. found ≡ places_in self.now path.now) }
        ensures told { (world : World) (given : givens.Given) → Holds world given self.now
            → IfOk result (λ kept. IfSome kept (λ places. AreActive world given path.now places)) }
    {
        let kept = self.active_there(path)?;
        Ok(kept)
    }

    /// Keeps the places of the active profiles of the POM at a path. Costs the path.
    #[tactic(auto, using(crate::proofs::Holding::holds_same, crate::proofs::Holding::active_more))]
    pub fn keep_active(&mut self, path: &Text, places: &Shared<List<usize>>) -> Mem<()>
        ensures kept { OnOk result (places_in self.new path.now ≡ Some places.now) }
        ensures keeps { KeepsRead self.old self.new }
        ensures keeps_lines { KeepsLines self.old self.new }
        ensures holds { (world : World) (given : givens.Given) → Holds world given self.old
            → AreActive world given path.now places.now → Holds world given self.new }
    {
        set_active(&mut self.active, path, places)
    }

    // What is known of the POM of coordinates, if that was asked for.
    fn known_there(&self, gav: &Gav) -> Mem<Option<Option<Shared<Candidate>>>>
        ensures { IfOk result (λ found. found ≡ known_in self.now gav.now) }
    {
        match self.known.get(gav) {
            Some(found) => Ok(Some(same_known(found)?)),
            None => Ok(None),
        }
    }

    /// What is known of the POM of coordinates. Costs the coordinates.
    #[tactic(auto, using(crate::proofs::Holding::known_serves))]
    pub fn find_known(&self, gav: &Gav) -> Mem<Option<Option<Shared<Candidate>>>>
        ensures value { IfOk result (λ found. found ≡ known_in self.now gav.now) }
        ensures told { (world : World) (given : givens.Given) → Holds world given self.now
            → IfOk result (λ kept. IfSome kept (λ found. known_at world gav.now ≡ Ok found)) }
    {
        let kept = self.known_there(gav)?;
        Ok(kept)
    }

    /// Keeps what is known of the POM of coordinates. Costs the coordinates.
    pub fn keep_known(&mut self, gav: &Gav, found: &Option<Shared<Candidate>>) -> Mem<()>
        ensures kept { OnOk result (known_in self.new gav.now ≡ Some found.now) }
        ensures others { (other : gavs.Gav) → gav_eq gav.now other ≡ false
            → known_in self.new other ≡ known_in self.old other }
        ensures keeps { KeepsRead self.old self.new }
        ensures keeps_lines { KeepsLines self.old self.new }
        ensures holds { (world : World) (given : givens.Given) → Holds world given self.old
            → known_at world gav.now ≡ Ok found.now → Holds world given self.new }
    {
        set_known(&mut self.known, gav, found)
    }

    // Whether something is known of the POM of coordinates.
    fn is_known(&self, gav: &Gav) -> bool
        ensures { result ≡ is_some (known_in self.now gav.now) }
    {
        self.known.get(gav).is_some()
    }

    // The POM that was read at a path, as one that coordinates lead to.
    fn read_as(&self, alloc: Global, path: &Text) -> Mem<Option<Option<Shared<Candidate>>>>
        ensures { IfOk result (λ known. known ≡ known_as (read_in self.now path.now)) }
    {
        match self.read.get(path) {
            Some(found) => as_known(alloc, found),
            None => Ok(None),
        }
    }

    /// Keeps the POM that was read at a path under coordinates too, if nothing is known of these and a POM was read
    /// there: for a source in which the coordinates lead to the POM at this path. Whether something is known of them
    /// now. Its model is shared. Costs the path and the coordinates. Project rule.
    #[tactic(auto, using(crate::proofs::Twice::stays_known, crate::proofs::Twice::now_known, crate::proofs::Twice::not_read, crate::proofs::Twice::is_known, crate::proofs::Twice::leads))]
    pub fn keep_as(&mut self, alloc: Global, gav: &Gav, path: &Text) -> Mem<bool>
        ensures value { IfOk result (λ known. known ≡ is_some (known_in self.new gav.now)) }
        ensures kept { OnOk result (known_in self.new gav.now
            ≡ option_or (known_in self.old gav.now) (known_as (read_in self.old path.now))) }
        ensures others { (other : gavs.Gav) → gav_eq gav.now other ≡ false
            → known_in self.new other ≡ known_in self.old other }
        ensures keeps { KeepsRead self.old self.new }
        ensures keeps_lines { KeepsLines self.old self.new }
        ensures holds { (world : World) (given : givens.Given) → Holds world given self.old
            → (known_in self.old gav.now ≡ None → (raw : raws.RawModel)
            → read_at world path.now ≡ Ok (Some raw)
            → known_at world gav.now ≡ Ok (Some (candidates.Read raw)))
            → Holds world given self.new }
    {
        if self.is_known(gav) {
            return Ok(true);
        }
        let Some(found) = self.read_as(alloc, path)? else {
            return Ok(false);
        };
        self.keep_known(gav, &found)?;
        Ok(true)
    }

    // The lineage that is kept under a path or coordinates.
    fn line_there(&self, origin: &Origin) -> Mem<Option<Shared<Joined>>>
        ensures { IfOk result (λ found. found ≡ line_in self.now origin.now) }
    {
        let found = match origin {
            Origin::Beside(path, _) => self.beside.get(path),
            Origin::Elsewhere(gav) => self.elsewhere.get(gav),
        };
        match found {
            Some(line) => Ok(Some(line.share()?)),
            None => Ok(None),
        }
    }

    /// The lineage from an origin on, if it is kept and serves one who has met these POMs and may meet so many. Costs a
    /// comparison of these with its POMs.
    #[tactic(auto, using(crate::proofs::Holding::line_serves))]
    pub fn find_line(
        &self,
        left: u32,
        seen: &List<PomId>,
        origin: &Origin,
    ) -> Mem<Option<Shared<Joined>>>
        ensures value { IfOk result (λ found. found
            ≡ if_serves left seen.now (line_in self.now origin.now)) }
        ensures told { (world : World) (given : givens.Given) (child : poms.PomId)
            → Holds world given self.now → IsAt world origin.now
            → IfOk result (λ found. IfSome found (λ kept.
            joined_from world given left child seen.now origin.now ≡ Ok kept)) }
    {
        let Some(line) = self.line_there(origin)? else {
            return Ok(None);
        };
        if serves(line.value(), left, seen) {
            Ok(Some(line))
        } else {
            Ok(None)
        }
    }

    /// Keeps the lineage from an origin on. Costs the path or the coordinates.
    #[tactic(auto, using(crate::proofs::Holding::beside_more, crate::proofs::Holding::elsewhere_more, crate::proofs::Holding::holds_same))]
    pub fn keep_line(&mut self, origin: &Origin, line: &Shared<Joined>) -> Mem<()>
        ensures kept { OnOk result (is_some (line_in self.new origin.now) ≡ true) }
        ensures keeps { KeepsRead self.old self.new }
        ensures keeps_lines { KeepsLines self.old self.new }
        ensures holds { (world : World) (given : givens.Given) → Holds world given self.old
            → IsAt world origin.now → IsKept world given origin.now line.now
            → Holds world given self.new }
    {
        match origin {
            Origin::Beside(path, _) => set_beside(&mut self.beside, path, line),
            Origin::Elsewhere(gav) => set_elsewhere(&mut self.elsewhere, gav, line),
        }
    }
}
