//! The program `bench_graphs` tells the winners of projects among libraries.
//!
//! The lines of standard input are those of `graph_lines`, and three more: `project` begins another project, with libraries of its own;
//! `module` one over the libraries that there are, with dependencies of its own and what it manages itself; `module counted` such a one
//! of which only the number of its winners is told. Prints for each project its winners, each with its version and its scope; the places
//! of those that stand on each classpath; the files to fetch; and then what isn't known of their POMs; or the refusal; then a blank line.
#![tactic(auto)]

ghost use Rattle.std.specs.Prelude.{All};
ghost use Rattle.classpaths.specs.Classpaths.{HasNames};

mod names;

use classpaths::{Kind, Note, Resolution, Resolved};
use collector::Scope;
use graph_lines::{Graph, MemLibraries};
use managed_deps::{ManagedSet, managed};
use mediation::MediationFault;
use model_types::Dependency;
use mvn_base::Gav;
use mvn_shared::Shared;
use names::are_named;
use resolution::{KeptRows, mediate};
use std::alloc::Global;
use std::collections::HashSet;

fn scope_name(scope: Scope) -> &'static str {
    match scope {
        Scope::Compile => "compile",
        Scope::Provided => "provided",
        Scope::Runtime => "runtime",
        Scope::Test => "test",
    }
}

fn print_winner(rt: &HostRuntime, winner: &Resolved) -> anyhow::Result<()> {
    let (group, artifact, version) = (&winner.gav.group, &winner.gav.artifact, &winner.gav.version);
    let kind = &winner.kind;
    let scope = scope_name(winner.scope);
    println!(rt; "{group}:{artifact}:{kind} {version} {scope}")?;
    Ok(())
}

fn print_note(rt: &HostRuntime, note: &Note) -> anyhow::Result<()> {
    match note {
        Note::Missing(gav) => {
            let (group, artifact, version) = (&gav.group, &gav.artifact, &gav.version);
            println!(rt; "note missing {group}:{artifact}:{version}")?;
        }
        Note::Refused(gav, _) => {
            let (group, artifact, version) = (&gav.group, &gav.artifact, &gav.version);
            println!(rt; "note refused {group}:{artifact}:{version}")?;
        }
    }
    Ok(())
}

fn print_path(
    rt: &HostRuntime,
    name: &str,
    resolution: &Resolution,
    kind: Kind,
) -> anyhow::Result<()> {
    print!(rt; "{name}")?;
    match resolution.classpath(rt.alloc(), kind) {
        Ok(list) => {
            for place in list.as_slice() {
                print!(rt; " {place}")?;
            }
        }
        Err(_) => {}
    }
    println!(rt; "")?;
    Ok(())
}

fn print_files(
    rt: &HostRuntime,
    resolution: &Resolution,
    selected: &HashSet<Gav>,
) -> anyhow::Result<()>
    requires { All HasNames resolution.now.winners }
{
    match resolution.files(rt.alloc(), selected) {
        Ok(files) => {
            for file in files.as_slice() {
                let name = file.as_text();
                println!(rt; "fetch {name}")?;
            }
        }
        Err(_) => println!(rt; "out of memory")?,
    }
    Ok(())
}

fn print_winners(rt: &HostRuntime, winners: &[Shared<Resolved>]) -> anyhow::Result<()> {
    for winner in winners {
        print_winner(rt, winner)?;
    }
    Ok(())
}

fn print_notes(rt: &HostRuntime, notes: &[Note]) -> anyhow::Result<()> {
    for note in notes {
        print_note(rt, note)?;
    }
    Ok(())
}

fn print_resolved(rt: &HostRuntime, resolution: &Resolution) -> anyhow::Result<()> {
    let winners: &[Shared<Resolved>] = resolution.winners.as_slice();
    print_winners(rt, winners)?;
    print_path(rt, "compile", resolution, Kind::Compile)?;
    print_path(rt, "runtime", resolution, Kind::Runtime)?;
    print_path(rt, "test", resolution, Kind::Test)?;
    let selected = HashSet::new(rt.alloc());
    if are_named(winners) {
        print_files(rt, resolution, &selected)?;
    }
    print_notes(rt, resolution.notes.as_slice())
}

fn print_fault(rt: &HostRuntime, fault: &MediationFault) -> anyhow::Result<()> {
    match fault {
        MediationFault::Refused { rule, place } => println!(rt; "refused {rule} at {place}")?,
        MediationFault::Lookup => println!(rt; "fault")?,
        MediationFault::Memory => println!(rt; "out of memory")?,
    }
    Ok(())
}

// What a project comes to, with what it manages.
fn mediated(
    alloc: Global,
    graph: &mut Graph,
    rows: &mut KeptRows,
    set: &ManagedSet,
) -> Result<Resolution, MediationFault> {
    let direct: &[Shared<Dependency>] = graph.direct.as_slice();
    let libraries: &mut MemLibraries = &mut graph.libraries;
    mediate(alloc, direct, set, libraries, rows)
}

// What is told of a project that is resolved.
fn print_told(rt: &HostRuntime, resolution: &Resolution, counted: bool) -> anyhow::Result<()> {
    if counted {
        let count = resolution.winners.len();
        println!(rt; "{count} winners")?;
        return Ok(());
    }
    print_resolved(rt, resolution)
}

fn print_graph(rt: &HostRuntime, graph: &mut Graph, rows: &mut KeptRows) -> anyhow::Result<()> {
    let alloc = rt.alloc();
    match managed(alloc, graph.managed.as_slice(), &[]) {
        Ok(set) => match mediated(alloc, graph, rows, &set) {
            Ok(resolution) => print_told(rt, &resolution, graph.counted),
            Err(fault) => print_fault(rt, &fault),
        },
        Err(_) => {
            println!(rt; "out of memory")?;
            Ok(())
        }
    }
}

// What was read so far, told and ended by a blank line.
fn tell(rt: &HostRuntime, graph: &mut Graph, rows: &mut KeptRows) -> anyhow::Result<()> {
    graph.end(rt.alloc())?;
    print_graph(rt, graph, rows)?;
    println!(rt; "")?;
    Ok(())
}

// A line that begins another project, and any other line.
fn read_line(
    rt: &HostRuntime,
    graph: &mut Graph,
    rows: &mut KeptRows,
    line: &str,
) -> anyhow::Result<()> {
    match line {
        "project" => {
            tell(rt, graph, rows)?;
            *graph = Graph::new(rt.alloc())?;
            *rows = KeptRows::new(rt.alloc());
        }
        "module" => {
            tell(rt, graph, rows)?;
            graph.go_on(rt.alloc(), false);
        }
        "module counted" => {
            tell(rt, graph, rows)?;
            graph.go_on(rt.alloc(), true);
        }
        _ => graph.line(rt.alloc(), line)?,
    }
    Ok(())
}

// Reads all lines, and ends the last project.
fn read_lines(rt: &HostRuntime, graph: &mut Graph, rows: &mut KeptRows) -> anyhow::Result<()> {
    for line in rt.lines(rt.alloc()) {
        let line = line?;
        read_line(rt, graph, rows, line.as_str())?;
    }
    tell(rt, graph, rows)
}

// Reads all lines into a project without lines yet.
fn read_all(rt: &HostRuntime, graph: &mut Graph) -> anyhow::Result<()> {
    let mut rows = KeptRows::new(rt.alloc());
    read_lines(rt, graph, &mut rows)
}

fn main(rt: HostRuntime) -> anyhow::Result<()> {
    let mut graph = Graph::new(rt.alloc())?;
    read_all(&rt, &mut graph)
}
