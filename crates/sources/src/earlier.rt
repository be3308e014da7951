// The sources that were read for the modules before, and reading a file that may be among them.
ghost use Rattle.std.specs.Prelude.{◌≡◌, ◌≤◌, ℕ, List as Items, [], ◌∷◌, ◌++◌, Some, false, length, IfOk, IfSome, OnOk, if◌then◌else◌};
ghost use Rattle.std.specs.HashMap.{get};
ghost use Rattle.std.specs.Option.{option_copied};
ghost use Rattle.std.specs.Str.{bytes_eq};
ghost use Rattle.mvn_shared.specs.Cause.{HasCause};
ghost use Rattle.mvn_shared.specs.Files.{Files, file_at};
ghost use Rattle.mvn_outside.specs.Faults.{read_failed};
ghost use Rattle.mvn_outside.specs.Reading.{Reads};
ghost use Rattle.sources.specs.Earlier.{AreThere, bytes_at, bytes_in, noted};

use goal_types::SourceFile;
use mvn_outside::{ReadFault, Tree};
use mvn_shared::{Bytes, List, Mem, Text};
use std::alloc::Global;
use std::collections::HashMap;
use std::marker::Model;

/// The sources of the modules before, with places of their files by path: the module's and the file's number. Contracts see the sources.
#[derive(Drop)]
pub(crate) struct Earlier {
    lists: List<List<SourceFile>>,
    places: HashMap<Text, (usize, usize)>,
}

impl Model for Earlier {
    ghost use Rattle.std.specs.Prelude as logic;
    ghost use Rattle.goal_types.specs.declared.goal.SourceFile as sources;

    ghost Value = { logic.List (logic.List sources.SourceFile) };

    ghost view = { λ earlier. earlier.lists };
}

// Notes the place of a file.
fn put(
    places: &mut HashMap<Text, (usize, usize)>,
    source: &SourceFile,
    place: (usize, usize),
) -> Mem<()>
    ensures { OnOk result ((q : Items ℕ) → get bytes_eq places.new q
        ≡ (if bytes_eq source.now.path q then Some place else get bytes_eq places.old q)) }
{
    places.insert(source.path.clone()?, place)?;
    Ok(())
}

// Notes the places of a module's files.
fn note(places: &mut HashMap<Text, (usize, usize)>, list: usize, sources: &[SourceFile]) -> Mem<()>
    ensures { OnOk result ((q : Items ℕ) → get bytes_eq places.new q
        ≡ noted list 0 sources.now q (get bytes_eq places.old q)) }
{
    for number in 0..sources.len() {
        put(places, &sources[number], (list, number))?;
    }
    Ok(())
}

// The bytes of the file of that number, if it has this path.
fn bytes_in<'a>(sources: &'a List<SourceFile>, number: usize, path: &Text) -> Option<&'a Bytes>
    ensures { option_copied result ≡ bytes_in sources.now number path.now }
{
    match sources.get(number) {
        Some(source) => {
            if source.path == *path {
                return Some(&source.bytes);
            }
            None
        }
        None => None,
    }
}

impl Earlier {
    /// Nothing was read. Takes no memory.
    pub(crate) fn new(alloc: Global) -> Earlier
        ensures { result ≡ [] }
    {
        Earlier {
            lists: List::new(alloc),
            places: HashMap::new(alloc),
        }
    }

    /// Puts the sources of one module more after the others. Constant time on the average.
    pub(crate) fn push(&mut self, sources: List<SourceFile>) -> Mem<()>
        ensures { OnOk result (self.new ≡ self.old ++ sources ∷ []) }
    {
        self.lists.push(sources)
    }

    /// Notes the places of the last module's files, so that they are found. Costs its paths, on the average.
    pub(crate) fn note_last(&mut self) -> Mem<()>
        ensures { self.new ≡ self.old }
    {
        let count = self.lists.len();
        if count == 0 {
            return Ok(());
        }
        match self.lists.get(count - 1) {
            Some(sources) => note(&mut self.places, count - 1, sources.as_slice()),
            None => Ok(()),
        }
    }

    // The bytes of the file at a place, if it has this path.
    fn bytes_at(&self, list: usize, number: usize, path: &Text) -> Option<&Bytes>
        ensures { option_copied result ≡ bytes_at self.now list number path.now }
    {
        match self.lists.get(list) {
            Some(sources) => bytes_in(sources, number, path),
            None => None,
        }
    }

    // The bytes that were read of a file whose place is noted.
    #[tactic(auto, using(crate::proofs::ReadBefore::found_there))]
    fn bytes_of(&self, path: &Text) -> Option<&Bytes>
        ensures { (files : Files) → AreThere files self.now
            → IfSome (option_copied result) (λ bytes. file_at files path.now ≡ Some bytes) }
    {
        match self.places.get(path) {
            Some(place) => self.bytes_at(place.0, place.1, path),
            None => None,
        }
    }

    /// The sources of the modules.
    pub(crate) fn into_lists(self) -> List<List<SourceFile>>
        ensures { result ≡ self }
    {
        self.lists
    }
}

// A copy of at most so many bytes, as reading them would answer.
fn copied(bytes: &Bytes, limit: u64) -> Result<Option<Bytes>, ReadFault>
    ensures reads { Reads (Some bytes.now) limit result }
    ensures within { IfOk result (λ found. IfSome found (λ bytes. length bytes ≤ limit)) }
    ensures quiet { read_failed result ≡ false }
{
    if bytes.len() as u64 > limit {
        return Err(ReadFault::TooLarge);
    }
    match bytes.clone() {
        Ok(copy) => Ok(Some(copy)),
        Err(_) => Err(ReadFault::Memory),
    }
}

/// The bytes of a file of at most so many bytes; nothing where no file is there. The tree is asked for a file whose place isn't noted;
/// the bytes of another are copied. Costs a look-up on the average, and the bytes.
#[tactic(auto, using(crate::proofs::ReadBefore::reads_there))]
pub(crate) fn read_once<T: Tree>(
    tree: &mut T,
    earlier: &Earlier,
    path: &Text,
    limit: u64,
) -> Result<Option<Bytes>, ReadFault>
    requires there { IfSome (T.files tree.old) (λ files. AreThere files earlier.now) }
    ensures reads { IfSome (T.files tree.old) (λ files.
        Reads (file_at files path.now) limit result) }
    ensures within { IfOk result (λ found. IfSome found (λ bytes. length bytes ≤ limit)) }
    ensures same { T.files tree.new ≡ T.files tree.old }
    ensures cause { HasCause (T.faults tree.old) (T.faults tree.new) (read_failed result) }
{
    match earlier.bytes_of(path) {
        Some(bytes) => copied(bytes, limit),
        None => tree.read(path, limit),
    }
}
