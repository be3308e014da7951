// What lines say of a project and of libraries.
use crate::MemLibraries;
use crate::models::{base, build, dependency, gav, model, word};
use model_types::{Build, Dependency, ModelBase};
use mvn_base::Gav;
use mvn_shared::{List, Mem, Shared, Text};
use std::alloc::{AllocError, Global};
use std::collections::HashMap;
use std::mem::replace;

/// What was read: the libraries; the project's dependencies and what it manages; and the library that was begun, with its dependencies
/// so far.
#[derive(Drop)]
pub struct Graph {
    pub libraries: MemLibraries,
    pub direct: List<Shared<Dependency>>,
    pub managed: List<Shared<Dependency>>,
    /// Whether only the number of the project's winners is told.
    pub counted: bool,
    /// The versions of each artifact so far, under `group:artifact`.
    versions: HashMap<Text, List<Text>>,
    begun: Option<Gav>,
    needs: List<Shared<Dependency>>,
    build: Shared<Build>,
}

// The words of a line.
fn words<'a>(alloc: Global, line: &'a str) -> Result<Vec<&'a str>, AllocError> {
    line.split(' ').collect(alloc)
}

// What an artifact's versions are kept under.
fn name_of(gav: &Gav) -> Mem<Text> {
    let mut name = gav.group.clone()?;
    name.push_str(":")?;
    name.push_str(gav.artifact.as_str())?;
    Ok(name)
}

impl Graph {
    /// Nothing was read yet.
    pub fn new(alloc: Global) -> Mem<Graph> {
        let build = build(alloc)?;
        Ok(Graph {
            libraries: MemLibraries::new(alloc),
            direct: List::new(alloc),
            managed: List::new(alloc),
            counted: false,
            versions: HashMap::new(alloc),
            begun: None,
            needs: List::new(alloc),
            build,
        })
    }

    // One version more of an artifact.
    fn add_version(&mut self, alloc: Global, gav: &Gav) -> Mem<()> {
        let name = name_of(gav)?;
        let mut list = match self.versions.remove(&name) {
            Some(list) => list,
            None => List::new(alloc),
        };
        list.push(gav.version.clone()?)?;
        self.libraries
            .put_versions(&gav.group, &gav.artifact, list.clone()?)?;
        self.versions.insert(name, list)?;
        Ok(())
    }

    fn put_model(&mut self, alloc: Global, gav: Gav, base: &Shared<ModelBase>) -> Mem<()> {
        self.add_version(alloc, &gav)?;
        let model = model(alloc, &gav, base, &self.build)?;
        self.libraries.put_model(gav, model)
    }

    // Puts in a library with these dependencies.
    fn put(&mut self, alloc: Global, gav: Gav, needs: List<Shared<Dependency>>) -> Mem<()> {
        let base = base(alloc, needs)?;
        self.put_model(alloc, gav, &base)
    }

    /// Ends the library that was begun.
    pub fn end(&mut self, alloc: Global) -> Mem<()> {
        let needs = replace(&mut self.needs, List::new(alloc));
        match self.begun.take() {
            None => {
                self.direct = needs;
                Ok(())
            }
            Some(gav) => self.put(alloc, gav, needs),
        }
    }

    /// Begins another project over the libraries that there are, of which nothing is copied.
    pub fn go_on(&mut self, alloc: Global, counted: bool) {
        self.direct = List::new(alloc);
        self.managed = List::new(alloc);
        self.counted = counted;
    }

    // Begins a library.
    fn begin(&mut self, alloc: Global, words: &[&str]) -> Mem<()> {
        if words.len() != 4 {
            return Ok(());
        }
        self.end(alloc)?;
        self.begun = Some(gav(alloc, words)?);
        Ok(())
    }

    // One dependency more of what was begun.
    fn add_need(&mut self, alloc: Global, words: &[&str]) -> Mem<()> {
        let count = words.len();
        if count < 6 {
            return Ok(());
        }
        let (optional, cut) = (word(words, count - 2), word(words, count - 1));
        let need = dependency(alloc, words, optional, cut)?;
        self.needs.push(need)
    }

    // One dependency more that the project manages.
    fn add_managed(&mut self, alloc: Global, words: &[&str]) -> Mem<()> {
        let count = words.len();
        if count < 6 {
            return Ok(());
        }
        let managed = dependency(alloc, words, "-", word(words, count - 1))?;
        self.managed.push(managed)
    }

    /// One line more.
    pub fn line(&mut self, alloc: Global, line: &str) -> Mem<()> {
        let words = words(alloc, line)?;
        let (kind, _) = line.split_once(' ').unwrap_or((line, ""));
        match kind {
            "pom" => self.begin(alloc, words.as_slice()),
            "needs" => self.add_need(alloc, words.as_slice()),
            "managed" => self.add_managed(alloc, words.as_slice()),
            _ => Ok(()),
        }
    }
}
