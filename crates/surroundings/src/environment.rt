// What the program takes from its surroundings: its words, the variables of the environment, and a name of its own process.
ghost use Rattle.std.specs.Prelude.{◌≡◌, IfOk};
ghost use Rattle.std.specs.Option.{option_copied};
ghost use Rattle.surroundings.specs.Variables.{value_or};

use mvn_base::{Machine, Pair};
use mvn_shared::{Bytes, List, Mem, OutOfMemory, Text, TextError};
use std::alloc::Global;
use std::collections::BTreeMap;
use std::env::FillError;
use std::rt::{Clock, Env};

/// How many bytes a word or a variable may have, tried one after another. The system's own limit lies below the last.
const SIZES: [usize; 4] = [256, 4096, 131_072, 4_194_304];

/// Which bytes are asked for.
#[derive(Clone, Copy)]
enum Wanted {
    /// The word with this number; the program's name is 0.
    Word(usize),
    /// The variable with this number, as `NAME=value`.
    Variable(usize),
}

impl Wanted {
    fn fill<R: Env>(self, rt: &R, bytes: &mut [u8]) -> Result<usize, FillError> {
        match self {
            Wanted::Word(i) => rt.arg(i, bytes),
            Wanted::Variable(i) => rt.var_at(i, bytes),
        }
    }
}

// The bytes of a word or a variable; nothing after the last.
fn bytes_of<R: Env>(rt: &R, alloc: Global, wanted: Wanted) -> Mem<Option<Vec<u8>>> {
    for size in SIZES {
        let mut bytes = vec![in alloc; 0u8; size]?;
        match wanted.fill(rt, &mut bytes) {
            Ok(len) => {
                bytes.truncate(len);
                return Ok(Some(bytes));
            }
            Err(FillError::NotPresent) => return Ok(None),
            Err(FillError::TooLong) => {}
        }
    }
    Err(OutOfMemory)
}

/// The words after the program's name.
pub fn words<R: Env>(rt: &R, alloc: Global) -> Mem<Vec<Bytes>> {
    let mut words = Vec::new(alloc);
    for i in 1..usize::MAX {
        let Some(word) = bytes_of(rt, alloc, Wanted::Word(i))? else {
            break;
        };
        words.push(Bytes::of(word))?;
    }
    Ok(words)
}

// A text of these bytes, where they are one. Its copies share it, since each model is filled from the environment.
fn text_of(alloc: Global, bytes: &[u8]) -> Mem<Option<Text>> {
    match Text::from_slice(alloc, bytes) {
        Ok(text) => Ok(Some(text.shared(alloc)?)),
        Err(TextError::NotUtf8) => Ok(None),
        Err(TextError::Memory) => Err(OutOfMemory),
    }
}

// Puts a variable in, where its name and its value are texts and none of its name is there.
fn put_variable(alloc: Global, variables: &mut BTreeMap<Text, Text>, entry: &[u8]) -> Mem<()> {
    let Some(at) = entry.iter().position(|b| *b == b'=') else {
        return Ok(());
    };
    let Some(name) = text_of(alloc, &entry[..at])? else {
        return Ok(());
    };
    if variables.contains_key(&name) {
        return Ok(());
    }
    let Some(value) = text_of(alloc, &entry[at + 1..])? else {
        return Ok(());
    };
    variables.insert(name, value)?;
    Ok(())
}

/// The variables of the environment whose name and value are texts; of two with one name the first counts.
pub fn variables<R: Env>(rt: &R, alloc: Global) -> Mem<BTreeMap<Text, Text>> {
    let mut variables = BTreeMap::new(alloc);
    for i in 0..usize::MAX {
        let Some(entry) = bytes_of(rt, alloc, Wanted::Variable(i))? else {
            break;
        };
        put_variable(alloc, &mut variables, &entry)?;
    }
    Ok(variables)
}

// The value of a variable, or another text where there is none, or an empty one.
fn value_or(alloc: Global, value: Option<&Text>, other: &str) -> Mem<Text>
    ensures { IfOk result (λ text. text ≡ value_or (option_copied value.entry) other.now) }
{
    match value {
        Some(value) => match value.as_bytes() {
            [] => Text::from_str(alloc, other),
            [_, ..] => Ok(value.clone()?),
        },
        None => Text::from_str(alloc, other),
    }
}

/// The value of a variable, or the text that stands for it where there is none, or an empty one: no folder has an empty name.
pub(crate) fn variable_or(
    alloc: Global,
    variables: &BTreeMap<Text, Text>,
    name: &str,
    other: &str,
) -> Mem<Text> {
    value_or(alloc, variables.get(&Text::from_str(alloc, name)?), other)
}

// When this is asked, in nanoseconds since 1970; 0 where the clock isn't known.
fn now<R: Clock>(rt: &R) -> u128 {
    match rt.since_1970() {
        Ok(time) => time.as_nanos(),
        Err(_) => 0,
    }
}

/// A name of the process with this number that no other has while its files are there: that number, and when it began.
pub(crate) fn process_name<R: Clock>(rt: &R, alloc: Global, number: u32) -> Mem<Text> {
    let start = now(rt);
    Ok(Text::of(format!(in alloc; "{number}-{start}")?))
}

// The variables as pairs, ascending by name.
fn pairs(alloc: Global, variables: &BTreeMap<Text, Text>) -> Mem<List<Pair>> {
    let mut pairs = List::new(alloc);
    for (name, value) in variables {
        pairs.push(Pair {
            name: name.clone()?,
            value: value.clone()?,
        })?;
    }
    Ok(pairs)
}

// What the system is.
#[derive(Drop)]
struct System {
    name: Text,
    family: Text,
    arch: Text,
    version: Text,
}

fn linux(alloc: Global) -> Mem<System> {
    let name = Text::from_str(alloc, "linux")?;
    let family = Text::from_str(alloc, "unix")?;
    let arch = Text::from_str(alloc, "")?;
    let version = Text::from_str(alloc, "")?;
    Ok(System {
        name,
        family,
        arch,
        version,
    })
}

/// What a project may ask of this machine.
pub fn machine(alloc: Global, variables: &BTreeMap<Text, Text>) -> Mem<Machine> {
    let root = variable_or(alloc, variables, "PWD", ".")?;
    let jdk = variable_or(alloc, variables, "MVN_JDK", "")?;
    let system = linux(alloc)?;
    let env = pairs(alloc, variables)?;
    Ok(Machine {
        root,
        env,
        system: List::new(alloc),
        jdk,
        os_name: system.name,
        os_family: system.family,
        os_arch: system.arch,
        os_version: system.version,
    })
}
