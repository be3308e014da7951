//! The search for winners through the dependency graph, level by level.

ghost use Rattle.std.specs.Prelude.{◌≡◌, ◌*◌, ◌<◌, ◌≤◌, ◌∷◌, ◌++◌, [], None, Some, drop, take, length, map, flat_map, slice_get, Ok, All, nat_lt, IfOk, OnOk, if◌then◌else◌};
ghost use Rattle.std.specs.Prelude as logic;
ghost use Rattle.std.specs.Option.{option_to_list};
ghost use Rattle.mvn_shared.specs.Cause.{HasCause};
ghost use Rattle.model_types.specs.declared.dependency.Dependency as dependencies;
ghost use Rattle.mediation.specs.Faults.{Says, is_faulty};
ghost use Rattle.collector.specs.Edges.{direct_edges, transitive_edges};
ghost use Rattle.collector.specs.declared.edge.Edge as edge_rows;
ghost use Rattle.mediation.specs.declared.winner.Winner as rows;
ghost use Rattle.mediation.specs.Telling.{TellsOn};
ghost use Rattle.mediation.specs.Libraries.{Libraries, declarations, gav_of, graph_of, most_winners};
ghost use Rattle.mediation.specs.Rows.{Adds, ArePlaced, IsPicked, IsPrefix, Leads, Resolves, edges_below, paths_of, place_of, row_of, won_by};
ghost use Rattle.mediation.specs.Found.{ResolvesGraph, left_in};
ghost use Rattle.collector.specs.Winners.{Path, longer};

use crate::winner::{Winner, Winners};
use crate::{Known, Lookup, MOST_WINNERS, MediationFault, ask_model, chosen};
use collector::{Edge, Exclusions, direct_edges};
use managed_deps::ManagedSet;
use model_types::Dependency;
use mvn_base::{Gav, Key};
use mvn_shared::{List, Mem, Shared, Text};
use std::alloc::Global;

// A copy of an edge, which shares its texts and its exclusions.
fn copied(edge: &Edge) -> Mem<Edge>
    ensures { IfOk result (λ copy. copy ≡ edge.now) }
{
    let key = edge.key.clone()?;
    let requirement = edge.requirement.clone()?;
    let exclusions = edge.exclusions.share()?;
    Ok(Edge {
        position: edge.position,
        key,
        requirement,
        scope: edge.scope,
        managed_scope: edge.managed_scope,
        exclusions,
    })
}

// One winner more.
fn push_winner(
    winners: &mut Winners,
    edge: &Edge,
    version: Text,
    above: Option<usize>,
    known: Known,
) -> Mem<()>
    requires new { row_of winners.old edge.now.key ≡ None }
    requires room { length winners.old < most_winners }
    ensures more { OnOk result (winners.new ≡ winners.old ++ record {
      edge = edge.now;
      version = version;
      above = above;
      known = known;
    } ∷ []) }
    ensures placed { OnOk result (place_of winners.new edge.now.key ≡ Some (length winners.old)) }
{
    let edge = copied(edge)?;
    winners.push(Winner {
        edge,
        version,
        above,
        known,
    })
}

// One winner more, with what is known of its POM.
#[tactic(auto, using(crate::proofs::Prefixes::pushed))]
fn add_winner<L: Lookup>(
    lookup: &mut L,
    winners: &mut Winners,
    edge: &Edge,
    version: Text,
    above: Option<usize>,
) -> Result<(), MediationFault>
    requires new { row_of winners.old edge.now.key ≡ None }
    requires room { length winners.old < most_winners }
    ensures adds { (libraries : Libraries) → L.fits lookup.old libraries
        → OnOk result (winners.new ≡ winners.old ++ won_by libraries edge.now above version ∷ []) }
    ensures keeps { OnOk result (IsPrefix winners.old winners.new) }
    ensures placed { OnOk result (place_of winners.new edge.now.key ≡ Some (length winners.old)) }
    ensures says { (libraries : Libraries) → L.fits lookup.old libraries → Says (Ok tt) result }
    ensures same { (libraries : Libraries) → L.fits lookup.old libraries
        → L.fits lookup.new libraries }
    ensures alike { TellsOn L.tells_same lookup.old lookup.new }
    ensures cause { HasCause (L.faults lookup.old) (L.faults lookup.new) (is_faulty result) }
{
    match known_at(lookup, &edge.key, &version) {
        Ok(known) => {
            push_winner(winners, edge, version, above, known)?;
            Ok(())
        }
        Err(fault) => Err(fault),
    }
}

// One declaration of a key that has no winner, which wins.
#[tactic(auto, using(crate::proofs::Telling::untold, crate::proofs::Telling::told_both, crate::proofs::Prefixes::whole))]
fn add_new<L: Lookup>(
    alloc: Global,
    lookup: &mut L,
    winners: &mut Winners,
    edge: &Edge,
    above: Option<usize>,
) -> Result<(), MediationFault>
    requires new { row_of winners.old edge.now.key ≡ None }
    ensures adds { (libraries : Libraries) (front : Path) → L.fits lookup.old libraries
        → Leads (paths_of winners.old) above front
        → Adds libraries winners.old winners.new ((edge.now ∷ front) ∷ []) result }
    ensures keeps { OnOk result (IsPrefix winners.old winners.new) }
    ensures placed { OnOk result (place_of winners.new edge.now.key ≡ Some (length winners.old)) }
    ensures same { (libraries : Libraries) → L.fits lookup.old libraries
        → L.fits lookup.new libraries }
    ensures alike { TellsOn L.tells_same lookup.old lookup.new }
    ensures cause { HasCause (L.faults lookup.old) (L.faults lookup.new) (is_faulty result) }
{
    match chosen(alloc, lookup, winners.len(), edge) {
        Ok(version) => add_winner(lookup, winners, edge, version, above),
        Err(fault) => Err(fault),
    }
}

// The place of the winner of a declaration's key; the declaration wins where there is none yet.
#[tactic(auto, using(crate::proofs::Telling::untold, crate::proofs::Prefixes::whole))]
fn decide<L: Lookup>(
    alloc: Global,
    lookup: &mut L,
    winners: &mut Winners,
    edge: &Edge,
    above: Option<usize>,
) -> Result<usize, MediationFault>
    ensures adds { (libraries : Libraries) (front : Path) → L.fits lookup.old libraries
        → Leads (paths_of winners.old) above front
        → Adds libraries winners.old winners.new ((edge.now ∷ front) ∷ []) result }
    ensures keeps { OnOk result (IsPrefix winners.old winners.new) }
    ensures placed { IfOk result (λ place. place_of winners.new edge.now.key ≡ Some place) }
    ensures same { (libraries : Libraries) → L.fits lookup.old libraries
        → L.fits lookup.new libraries }
    ensures alike { TellsOn L.tells_same lookup.old lookup.new }
    ensures cause { HasCause (L.faults lookup.old) (L.faults lookup.new) (is_faulty result) }
{
    if let Some(place) = winners.place(&edge.key) {
        return Ok(place);
    }
    let place = winners.len();
    match add_new(alloc, lookup, winners, edge, above) {
        Ok(()) => Ok(place),
        Err(fault) => Err(fault),
    }
}

// The declarations of one end, each with the place of its winner.
#[tactic(auto, using(crate::proofs::Telling::untold, crate::proofs::Telling::told_both))]
fn add_edges<L: Lookup>(
    alloc: Global,
    lookup: &mut L,
    winners: &mut Winners,
    places: &mut List<usize>,
    edges: &[Edge],
    above: Option<usize>,
) -> Result<(), MediationFault>
    ensures adds { (libraries : Libraries) (front : Path) → L.fits lookup.old libraries
        → Leads (paths_of winners.old) above front
        → Adds libraries winners.old winners.new (map (λ e. e ∷ front) edges.now) result }
    ensures keeps { OnOk result (IsPrefix winners.old winners.new) }
    ensures placed { (done : logic.List edge_rows.Edge) → ArePlaced winners.old done places.old
        → OnOk result (ArePlaced winners.new (done ++ edges.now) places.new) }
    ensures same { (libraries : Libraries) → L.fits lookup.old libraries
        → L.fits lookup.new libraries }
    ensures alike { TellsOn L.tells_same lookup.old lookup.new }
    ensures cause { HasCause (L.faults lookup.old) (L.faults lookup.new) (is_faulty result) }
{
    for edge in edges {
        let place = match decide(alloc, lookup, winners, edge, above) {
            Ok(place) => place,
            Err(fault) => return Err(fault),
        };
        places.push(place)?;
    }
    Ok(())
}

// What is known of the POM of a version.
#[tactic(auto, using(crate::proofs::Telling::untold))]
fn known_at<L: Lookup>(lookup: &mut L, key: &Key, version: &Text) -> Result<Known, MediationFault>
    ensures says { (libraries : Libraries) → L.fits lookup.old libraries
        → Says (Ok (libraries.at (gav_of key.now version.now))) result }
    ensures same { (libraries : Libraries) → L.fits lookup.old libraries
        → L.fits lookup.new libraries }
    ensures alike { TellsOn L.tells_same lookup.old lookup.new }
    ensures cause { HasCause (L.faults lookup.old) (L.faults lookup.new) (is_faulty result) }
{
    let gav = coordinate(key, version)?;
    ask_model(lookup, &gav)
}

// The coordinate of a version.
fn coordinate(key: &Key, version: &Text) -> Mem<Gav>
    ensures { IfOk result (λ gav. gav ≡ gav_of key.now version.now) }
{
    let group = key.group.clone()?;
    let artifact = key.artifact.clone()?;
    let version = version.clone()?;
    Ok(Gav {
        group,
        artifact,
        version,
    })
}

// An empty list of edges.
fn no_edges(alloc: Global) -> Mem<Shared<List<Edge>>>
    ensures { IfOk result (λ list. list ≡ []) }
{
    Shared::new(alloc, List::new(alloc))
}

// What a POM that is known leads to.
fn edges_of(
    alloc: Global,
    known: &Known,
    managed: &ManagedSet,
    cut: &Exclusions,
) -> Mem<Shared<List<Edge>>>
    ensures { IfOk result (λ list.
        list ≡ transitive_edges (declarations known.now) managed.now cut.now) }
{
    match known {
        Known::Model(library) => library.edges(alloc, managed, cut),
        Known::Missing => no_edges(alloc),
        Known::Refused(_) => no_edges(alloc),
    }
}

// What the POM of a winner leads to: its dependencies as `edges` of the collector gives them, none where the POM is
// missing or refused.
fn edges_below(alloc: Global, managed: &ManagedSet, winner: &Winner) -> Mem<Shared<List<Edge>>>
    ensures { IfOk result (λ list. list ≡ edges_below managed.now winner.now) }
{
    edges_of(alloc, &winner.known, managed, &winner.edge.exclusions)
}

// The paths one edge longer than a winner's, and what its POM leads to.
#[tactic(auto, using(crate::proofs::Telling::untold, crate::proofs::Prefixes::whole, crate::proofs::Standing::none_placed))]
fn expand<L: Lookup>(
    alloc: Global,
    lookup: &mut L,
    managed: &ManagedSet,
    winners: &mut Winners,
    places: &mut List<usize>,
    place: usize,
) -> Result<Shared<List<Edge>>, MediationFault>
    ensures adds { (libraries : Libraries) (direct : logic.List dependencies.Dependency)
        → L.fits lookup.old libraries
        → All (IsPicked libraries) winners.old
        → Adds libraries winners.old winners.new
        (flat_map (longer (graph_of libraries managed.now direct))
        (option_to_list (slice_get (paths_of winners.old) place))) result }
    ensures keeps { OnOk result (IsPrefix winners.old winners.new) }
    ensures placed { (done : logic.List edge_rows.Edge) → ArePlaced winners.old done places.old
        → IfOk result (λ edges. ArePlaced winners.new (done ++ edges) places.new) }
    ensures below { (winner : rows.Winner) → slice_get winners.old place ≡ Some winner
        → IfOk result (λ edges. edges ≡ edges_below managed.now winner) }
    ensures same { (libraries : Libraries) → L.fits lookup.old libraries
        → L.fits lookup.new libraries }
    ensures alike { TellsOn L.tells_same lookup.old lookup.new }
    ensures cause { HasCause (L.faults lookup.old) (L.faults lookup.new) (is_faulty result) }
{
    let Some(winner) = winners.get(place) else {
        return Ok(no_edges(alloc)?);
    };
    let edges = edges_below(alloc, managed, winner)?;
    let list = edges.as_slice();
    match add_edges(alloc, lookup, winners, places, list, Some(place)) {
        Ok(()) => Ok(edges),
        Err(fault) => Err(fault),
    }
}

// The paths one edge longer than those of the winners from a place on, before another; what the POM of each leads to is
// kept.
#[tactic(auto, using(crate::proofs::Telling::untold, crate::proofs::Telling::told_both))]
fn add_level<L: Lookup>(
    alloc: Global,
    lookup: &mut L,
    managed: &ManagedSet,
    winners: &mut Winners,
    places: &mut List<usize>,
    below: &mut List<Shared<List<Edge>>>,
    from: usize,
    to: usize,
) -> Result<(), MediationFault>
    requires order { from ≤ to }
    requires all { to ≡ length winners.old }
    ensures adds { (libraries : Libraries) (direct : logic.List dependencies.Dependency)
        → L.fits lookup.old libraries
        → All (IsPicked libraries) winners.old
        → Adds libraries winners.old winners.new
        (flat_map (longer (graph_of libraries managed.now direct))
        (drop from (paths_of winners.old))) result }
    ensures below { below.old ≡ map (edges_below managed.now) (take from winners.old)
        → OnOk result (below.new ≡ map (edges_below managed.now) (take to winners.new)) }
    ensures placed { (done : logic.List edge_rows.Edge)
        → ArePlaced winners.old (done ++ flat_map (λ edges. edges) below.old) places.old
        → OnOk result (ArePlaced winners.new
        (done ++ flat_map (λ edges. edges) below.new) places.new) }
    ensures same { (libraries : Libraries) → L.fits lookup.old libraries
        → L.fits lookup.new libraries }
    ensures alike { TellsOn L.tells_same lookup.old lookup.new }
    ensures cause { HasCause (L.faults lookup.old) (L.faults lookup.new) (is_faulty result) }
{
    for place in from..to {
        let edges = match expand(alloc, lookup, managed, winners, places, place) {
            Ok(edges) => edges,
            Err(fault) => return Err(fault),
        };
        below.push(edges)?;
    }
    Ok(())
}

// The room to begin with for the winners of a project, by the number of its declarations: a guess, and no more than
// there may be.
fn room_for(declared: usize) -> usize
    ensures { result ≡ (if nat_lt declared 1024 then 16 * declared else most_winners) }
{
    if declared < 1024 {
        16 * declared
    } else {
        MOST_WINNERS
    }
}

// No list yet, with room for a number.
fn with_room<T>(alloc: Global, room: usize) -> Mem<List<T>>
    ensures { IfOk result (λ list. list ≡ []) }
{
    Ok(List::of(Vec::with_capacity(alloc, room)?))
}

// Fills what is empty with the winners of a project that declares these edges, with what each of them leads to, and
// with the places.
#[tactic(auto, using(crate::proofs::Telling::untold, crate::proofs::Telling::told_both))]
fn add_levels<L: Lookup>(
    alloc: Global,
    lookup: &mut L,
    managed: &ManagedSet,
    own: &[Edge],
    winners: &mut Winners,
    places: &mut List<usize>,
    below: &mut List<Shared<List<Edge>>>,
) -> Result<(), MediationFault>
    requires winners { winners.old ≡ [] }
    requires places { places.old ≡ [] }
    requires below { below.old ≡ [] }
    ensures resolves { (libraries : Libraries) (direct : logic.List dependencies.Dependency)
        → own.now ≡ direct_edges direct → L.fits lookup.old libraries
        → Resolves libraries (graph_of libraries managed.now direct) (left_in winners.new result) }
    ensures below { OnOk result (below.new ≡ map (edges_below managed.now) winners.new) }
    ensures placed { OnOk result (ArePlaced winners.new
        (own.now ++ flat_map (λ edges. edges) below.new) places.new) }
    ensures same { (libraries : Libraries) → L.fits lookup.old libraries
        → L.fits lookup.new libraries }
    ensures alike { TellsOn L.tells_same lookup.old lookup.new }
    ensures cause { HasCause (L.faults lookup.old) (L.faults lookup.new) (is_faulty result) }
{
    match add_edges(alloc, lookup, winners, places, own, None) {
        Ok(()) => {}
        Err(fault) => return Err(fault),
    }
    let mut from = 0;
    while from < winners.len() {
        let to = winners.len();
        match add_level(alloc, lookup, managed, winners, places, below, from, to) {
            Ok(()) => {}
            Err(fault) => return Err(fault),
        }
        from = to;
    }
    Ok(())
}

/// The winners of a project's dependency graph, and what is declared in it.
#[derive(Drop)]
pub struct DependencyGraph {
    pub winners: Winners,
    /// What the project declares.
    pub own: List<Edge>,
    /// What the POM of each winner declares, in the order of the winners.
    pub below: List<Shared<List<Edge>>>,
    /// The place of the winner of each declaration: of the project's, and then of each winner's POM's.
    pub places: List<usize>,
}

/// The winners of a project: of each key the nearest declaration, and of those the first. A project's own declaration
/// so wins always. A winner leads to what its POM declares, at the version that is picked for it; a POM that is missing
/// or refused leads to nothing. Refused by the first winner, by length and positions, that has no version or for which
/// there is no room: where a range admits no available version, where what is required of the version is no
/// requirement, where more than 4,096 versions are available, and at the 16,385th winner, whose versions aren't looked
/// up. `Lookup` comes only where the look-up failed. Costs a look-up for each winner, and the texts of each declaration
/// on the average; for each winner with a range one look-up more, and each available version is parsed once. Begins
/// with room for 16 times as many winners and places as the project has declarations, at most for 16,384. Introduction
/// to the Dependency Mechanism, "Dependency mediation".
#[tactic(auto, using(crate::proofs::Telling::untold, crate::proofs::Telling::told_both))]
pub fn find_winners<L: Lookup>(
    alloc: Global,
    direct: &[Shared<Dependency>],
    managed: &ManagedSet,
    lookup: &mut L,
) -> Result<DependencyGraph, MediationFault>
    ensures resolves { (libraries : Libraries) → L.fits lookup.old libraries
        → ResolvesGraph libraries (graph_of libraries managed.now direct.now) result }
    ensures declared { IfOk result (λ graph. graph.own ≡ direct_edges direct.now) }
    ensures below { IfOk result (λ graph. graph.below
        ≡ map (edges_below managed.now) graph.winners) }
    ensures placed { IfOk result (λ graph. ArePlaced graph.winners
        (graph.own ++ flat_map (λ edges. edges) graph.below) graph.places) }
    ensures same { (libraries : Libraries) → L.fits lookup.old libraries
        → L.fits lookup.new libraries }
    ensures alike { TellsOn L.tells_same lookup.old lookup.new }
    ensures cause { HasCause (L.faults lookup.old) (L.faults lookup.new) (is_faulty result) }
{
    let room = room_for(direct.len());
    let mut places = with_room(alloc, room)?;
    let mut below = with_room(alloc, room)?;
    let own = direct_edges(alloc, direct)?;
    let mut winners = Winners::new(alloc, room)?;
    let declared = own.as_slice();
    match add_levels(
        alloc,
        lookup,
        managed,
        declared,
        &mut winners,
        &mut places,
        &mut below,
    ) {
        Ok(()) => Ok(DependencyGraph {
            winners,
            own,
            below,
            places,
        }),
        Err(fault) => Err(fault),
    }
}
