//! The built-in goals: what they answer to a request.

ghost use Rattle.std.specs.Prelude.{◌≡◌, ◌∷◌, ◌++◌, ℕ, List, find, flat_map, IfOk};
ghost use Rattle.std.specs.Option.{option_map};
ghost use Rattle.sha2.specs.Sha256.{sha256};
ghost use Rattle.goal_types.specs.Requests.{entry_bytes, request_text};
ghost use Rattle.gates.specs.Builtin.{is_named, text_of, failure_text, failure_in, digest_text, output_for, builtin};

use goal_types::{
    GoalAnswer, GoalRequest, OwnBytes, PathEntry, Slot, SourceFile, line_of, request_line,
};
use mvn_outside::{DeviceFault, Gate};
use mvn_shared::{Bytes, Mem, Text};
use sha2::{Digest, Sha256};
use std::alloc::Global;

/// The most bytes of a failure's text.
const MOST_TEXT: usize = 8192;

/// The built-in goals. A source named `fail-` and the goal makes it fail with the source's first line; else a goal with a
/// slot produces the digest of its request, and any other is done. It never fails itself, and tells its function. Project rule.
#[derive(Drop)]
pub struct Builtin {
    alloc: Global,
}

impl Builtin {
    ghost use Rattle.std.specs.Prelude.{true};

    /// The built-in goals; what they make is allocated with `alloc`. Constant cost. Project rule.
    pub fn new(alloc: Global) -> Builtin
        ensures never { ⟦<Builtin as Gate>⟧.never_fails result ≡ true }
    {
        Builtin { alloc }
    }
}

// Whether the last step of a path is this name, which `tail` has with a slash in front.
#[tactic(auto, unfolding(crate::specs::Builtin::is_named))]
fn is_named(tail: &[u8], name: &[u8], path: &[u8]) -> bool
    requires { tail.now ≡ 47 ∷ name.now }
    ensures { result ≡ is_named name.now path.now }
{
    !name.contains(&b'/') && (path == name || path.ends_with(tail))
}

// The first of these sources whose last step is this name.
fn source_named<'a>(tail: &[u8], name: &[u8], sources: &'a [SourceFile]) -> Option<&'a SourceFile>
    requires { tail.now ≡ 47 ∷ name.now }
    ensures { option_map (λ s. s.now) result ≡ find (λ s. is_named name.now s.path) sources.now }
{
    for source in sources {
        if is_named(tail, name, source.path.as_bytes()) {
            return Some(source);
        }
    }
    None
}

// The bytes as a text, where they are one.
fn text_of(bytes: &[u8]) -> Option<&str>
    ensures { option_map (λ text. text.now) result ≡ text_of bytes.now }
{
    match std::str::from_utf8(bytes) {
        Ok(text) => Some(text),
        Err(_) => None,
    }
}

// The text of a source that makes a goal fail.
#[tactic(auto, unfolding(crate::specs::Builtin::failure_text))]
fn failure_text(alloc: Global, bytes: &[u8]) -> Mem<Text>
    ensures { IfOk result (λ text. text ≡ failure_text bytes.now) }
{
    let line = line_of(bytes);
    if line.len() > MOST_TEXT {
        return Text::from_str(alloc, "failed");
    }
    match text_of(line) {
        Some(text) => Text::from_str(alloc, text),
        None => Text::from_str(alloc, "failed"),
    }
}

// What a goal's failing source says, if there is one.
fn failure_of(alloc: Global, goal: &Text, sources: &[SourceFile]) -> Mem<Option<Text>>
    ensures { IfOk result (λ found.
        found ≡ option_map (λ s. failure_text s.bytes) (failure_in goal.now sources.now)) }
{
    let mut tail = Vec::from_slice(alloc, b"/fail-")?;
    tail.extend_from_slice(goal.as_bytes())?;
    match source_named(&tail, &tail[1..], sources) {
        Some(source) => Ok(Some(failure_text(alloc, source.bytes.as_slice())?)),
        None => Ok(None),
    }
}

// Feeds the hasher with the bytes of sources.
fn feed_sources<D: Digest>(hasher: &mut D, sources: &[SourceFile])
    ensures { (m : List ℕ) → D.holds hasher.old m →
        D.holds hasher.new (m ++ flat_map (λ s. s.bytes) sources.now) }
{
    for file in sources {
        hasher.update(file.bytes.as_slice());
    }
}

// Feeds the hasher with the bytes of a module's own outputs.
fn feed_own<D: Digest>(hasher: &mut D, own: &[OwnBytes])
    ensures { (m : List ℕ) → D.holds hasher.old m →
        D.holds hasher.new (m ++ flat_map (λ o. o.bytes) own.now) }
{
    for output in own {
        hasher.update(output.bytes.as_slice());
    }
}

// Feeds the hasher with the bytes of the entries of a classpath.
fn feed_entries<D: Digest>(hasher: &mut D, entries: &[PathEntry])
    ensures { (m : List ℕ) → D.holds hasher.old m →
        D.holds hasher.new (m ++ flat_map (λ e. entry_bytes e.bytes) entries.now) }
{
    for entry in entries {
        if let Some(found) = &entry.bytes {
            hasher.update(found.as_slice());
        }
    }
}

// The digest of a request's bytes. Only its line is built; the other bytes are fed from where they stand.
fn request_digest(alloc: Global, request: &GoalRequest) -> Mem<[u8; 32]>
    ensures { IfOk result (λ digest. digest ≡ sha256 (request_text request.now)) }
{
    let line = request_line(alloc, request)?;
    let mut hasher = Sha256::new();
    hasher.update(line.as_slice());
    feed_sources(&mut hasher, request.sources.as_slice());
    feed_own(&mut hasher, request.own.as_slice());
    feed_entries(&mut hasher, request.classpath.as_slice());
    Ok(hasher.finalize())
}

// That digest in hexadecimal digits and with a line feed.
#[tactic(auto, unfolding(crate::specs::Builtin::digest_text))]
fn digest_text(alloc: Global, request: &GoalRequest) -> Mem<Bytes>
    ensures { IfOk result (λ bytes. bytes ≡ digest_text request.now) }
{
    let digest = request_digest(alloc, request)?;
    let mut text = hex::encode(alloc, digest)?.into_bytes();
    text.push(b'\n')?;
    Ok(Bytes::of(text))
}

// The answer to a request.
#[tactic(auto, unfolding(crate::specs::Builtin::builtin))]
fn answer(alloc: Global, request: &GoalRequest) -> Mem<GoalAnswer>
    ensures { IfOk result (λ answer. answer ≡ builtin request.now) }
{
    if let Some(text) = failure_of(alloc, &request.call.goal, request.sources.as_slice())? {
        return Ok(GoalAnswer::Failed(text));
    }
    if request.call.slot == Slot::Nowhere {
        return Ok(GoalAnswer::Done);
    }
    Ok(GoalAnswer::Produced(digest_text(alloc, request)?))
}

impl Gate for Builtin {
    ghost use Rattle.std.specs.Prelude.{Some, true, refl};
    ghost use Rattle.gates.specs.Builtin.{builtin, same_answer};
    ghost use Rattle.gates.specs.Same.{one_answer};

    ghost answers = { λ _. Some (λ request answer. same_answer (builtin request) answer) };

    ghost faults = { λ _. 0 };

    ghost never_fails = { λ _. true };

    ghost no_faults = { λ _ _. refl };

    ghost one_answer = { λ _. one_answer };

    fn call(&mut self, request: &GoalRequest) -> Result<GoalAnswer, DeviceFault> {
        match answer(self.alloc, request) {
            Ok(answer) => Ok(answer),
            Err(_) => Err(DeviceFault::Memory),
        }
    }
}
