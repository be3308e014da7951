//! `Filler`: the values of names, each filled at most once, or refused where it leads back to itself.

ghost use Rattle.std.specs.Prelude.{◌≡◌, ◌++◌, ◌+◌, ◌*◌, ◌==◌, ℕ, [], ◌∷◌, Ok, vec_len, List as Items, Some, None, is_some, reverse, if◌then◌else◌, OnOk, IfOk, IfSome, MatchOption};
ghost use Rattle.std.specs.Option.{option_copied};
ghost use Rattle.std.specs.Vec.Iter.{into_iter_len};
ghost use Rattle.std.specs.Str.{bytes_eq};
ghost use Rattle.mvn_base.specs.declared.machine.Pair as pairs;
ghost use Rattle.std.specs.HashMap.{get};
ghost use Rattle.interpolation.specs.declared.part.Part as pieces;
ghost use Rattle.interpolation.specs.declared.part.Part.TheVariants.{Name};
ghost use Rattle.interpolation.specs.declared.filler.Filler as tables;
ghost use Rattle.interpolation.specs.declared.step.Step as steps;
ghost use Rattle.interpolation.specs.Parts.{parts, spelled};
ghost use Rattle.interpolation.specs.Expressions.{last_named};
ghost use Rattle.interpolation.specs.Tables.{AskCounts, Asks, Ends, Gives, Goes, IsStep, IsTable, IsWay, StopCounts, Stops, TurnCounts, Turns, Waits, WholeCounts, begun_in, names, fresh_count, fresh_in};
ghost use Rattle.interpolation.specs.Texts.{first_name, name_of, text_of};
ghost use Rattle.interpolation.specs.KnownValues.{part_value, stands, value, with_part};
ghost use Rattle.std.specs.List.{list_any};

use crate::fault::{FillFault, refused};
use crate::step::{LONGEST, Step, longer};
use crate::{Part, parts};
use mvn_base::{Pair, Rule};
use mvn_shared::{List, Mem, Text};
use std::alloc::Global;
use std::collections::HashMap;

/// The names that no text has asked for yet, with their texts, and those that one has: with their values, or on the way
/// to them.
#[derive(Drop)]
pub struct Filler {
    fresh: HashMap<Text, Text>,
    begun: HashMap<Text, Option<Text>>,
}

// What a name that is asked for gives: its value, or that it is begun.
#[derive(Drop)]
enum Asked {
    Value(Text),
    Begun(Step),
}

// Where a name's text stops: at a name that is begun, or at its end.
#[derive(Drop)]
enum Stop {
    Asks { outer: Step, inner: Step },
    Ends(Step),
}

// What one part of a name's text leads to.
#[derive(Drop)]
enum Turn {
    Goes(Step),
    Stops(Stop),
}

// How far a whole name's value is: names that wait and one that doesn't, or there.
#[derive(Drop)]
enum Whole {
    Goes { waiting: Vec<Step>, step: Step },
    Ends(Text),
}

// A copy of a text.
fn copy(text: &Text) -> Mem<Text>
    ensures { IfOk result (λ copy. copy ≡ text.now) }
{
    Ok(text.clone()?)
}

// An expression as it is written.
fn written(alloc: Global, name: &Text) -> Mem<Text>
    ensures { IfOk result (λ text. text ≡ spelled (Name name.now)) }
{
    Ok(Text::of(format!(in alloc; "${{{name}}}")?))
}

// Whether a `$` stands in a text.
fn has_dollar(text: &[u8]) -> bool
    ensures { result ≡ list_any (λ c. c == 36) text.now }
{
    text.contains(&b'$')
}

/// Whether a text stands as it is written: no expression begins in it, and it is no longer than a filled text may be.
/// Costs the text.
pub fn stands(text: &Text) -> bool
    ensures { result ≡ stands text.now }
{
    !has_dollar(text.as_bytes()) && text.len() <= LONGEST
}

// The first expression in some parts.
fn first_name(list: &[Part]) -> Option<&Text>
    ensures { option_copied result ≡ first_name list.now }
{
    for part in list {
        if let Part::Name(name) = part {
            return Some(name);
        }
    }
    None
}

// The first expression that stands in a text.
fn unresolved(alloc: Global, text: &Text) -> Mem<Option<Text>>
    ensures { IfOk result (λ name. name ≡ first_name (parts text.now)) }
{
    let list = parts(alloc, text)?;
    match first_name(list.as_slice()) {
        Some(name) => Ok(Some(name.clone()?)),
        None => Ok(None),
    }
}

// A name's text with what its next part came to.
fn grown(alloc: Global, step: Step, text: &Text) -> Result<Turn, FillFault>
    ensures says { (known : Items pairs.Pair) (seen : Items (Items ℕ)) (part : pieces.Part)
        (filler : tables.Filler) → IsTable known (step.name ∷ seen) filler →
        IsStep known seen (Some part) step →
        part_value (value known (step.name ∷ seen)) part ≡ Ok text.now →
        Turns known seen step filler result }
    ensures count { (fresh : ℕ) → TurnCounts (into_iter_len step.rest + 1) fresh fresh result }
{
    match step.with(alloc, text) {
        Ok(step) => Ok(Turn::Goes(step)),
        Err(fault) => Err(fault),
    }
}

// One name more that waits.
fn with_step(waiting: Vec<Step>, step: Step) -> Mem<Vec<Step>>
    ensures items { IfOk result (λ more. more.items ≡ waiting.items ++ step ∷ []) }
    ensures count { IfOk result (λ more. vec_len more ≡ vec_len waiting + 1) }
{
    let mut waiting = waiting;
    waiting.push(step)?;
    Ok(waiting)
}

// The innermost name that waits, and the others.
fn innermost(waiting: Vec<Step>) -> Option<(Step, Vec<Step>)>
    ensures items { MatchOption result (waiting.items ≡ []) (λ e.
        waiting.items ≡ e.1.items ++ e.0 ∷ []) }
    ensures count { IfSome result (λ e. vec_len e.1 + 1 ≡ vec_len waiting) }
{
    let mut waiting = waiting;
    match waiting.pop() {
        Some(step) => Some((step, waiting)),
        None => None,
    }
}

// The innermost name that waits goes on, with what it waited for.
fn resumed(alloc: Global, outer: Step, waiting: Vec<Step>, text: &Text) -> Result<Whole, FillFault>
    ensures says { (known : Items pairs.Pair) (name : Items ℕ) (whole : Items ℕ)
        (before : Items steps.Step) (filler : tables.Filler) →
        before ≡ outer ∷ reverse waiting.items → value known (names before) name ≡ Ok text.now →
        Waits known before name whole → IsTable known (names before) filler →
        Ends known whole filler result }
    ensures count { (fresh : ℕ) → WholeCounts (2 * fresh + (vec_len waiting + 1)) fresh result }
{
    match outer.with(alloc, text) {
        Ok(step) => Ok(Whole::Goes { waiting, step }),
        Err(fault) => Err(fault),
    }
}

// One name more, with its text.
fn add(fresh: &mut HashMap<Text, Text>, pair: Pair) -> Mem<()>
    ensures { OnOk result ((q : Items ℕ) →
        get bytes_eq fresh.new q
        ≡ (if bytes_eq pair.name q then Some pair.value else get bytes_eq fresh.old q)) }
{
    fresh.insert(pair.name, pair.value)?;
    Ok(())
}

// The names with their texts, of equal names the last one.
fn texts_of(alloc: Global, pairs: List<Pair>) -> Mem<HashMap<Text, Text>>
    ensures { IfOk result (λ texts. (q : Items ℕ) →
        get bytes_eq texts q ≡ last_named pairs q) }
{
    let mut texts = HashMap::with_capacity(alloc, pairs.len())?;
    for pair in pairs.into_vec() {
        add(&mut texts, pair)?;
    }
    Ok(texts)
}

impl Filler {
    /// All that can be named, of equal names the last one, and nothing begun. Costs the names, on the average.
    #[tactic(auto, unfolding(crate::specs::Tables::IsTable))]
    pub fn of(alloc: Global, pairs: List<Pair>) -> Mem<Filler>
        ensures { IfOk result (IsTable pairs []) }
    {
        let fresh = texts_of(alloc, pairs)?;
        Ok(Filler {
            fresh,
            begun: HashMap::new(alloc),
        })
    }

    // A name's text, which is no longer open.
    fn take(&mut self, name: &Text) -> Option<Text>
        ensures value { result ≡ fresh_in self.old name.now }
        ensures fresh { (q : Items ℕ) →
            fresh_in self.new q ≡ (if bytes_eq name.now q then None else fresh_in self.old q) }
        ensures begun { self.new.begun ≡ self.old.begun }
        ensures count { fresh_count self.new + (if is_some result then 1 else 0)
            ≡ fresh_count self.old }
    {
        self.fresh.remove(name)
    }

    // What is known of a name that is begun.
    fn set(&mut self, name: Text, value: Option<Text>) -> Mem<()>
        ensures begun { OnOk result ((q : Items ℕ) →
            begun_in self.new q ≡ (if bytes_eq name q then Some value else begun_in self.old q)) }
        ensures fresh { self.new.fresh ≡ self.old.fresh }
    {
        self.begun.insert(name, value)?;
        Ok(())
    }

    // A name that is begun, where it can be named.
    #[tactic(auto, unfolding(crate::specs::Tables::IsTable))]
    fn begin(&mut self, alloc: Global, name: &Text) -> Result<Asked, FillFault>
        ensures says { (known : Items pairs.Pair) (seen : Items (Items ℕ)) →
            IsTable known seen self.old → begun_in self.old name.now ≡ None →
            IsWay known seen name.now → Asks known seen name.now self.new result }
        ensures count { AskCounts (fresh_count self.old) (fresh_count self.new) result }
    {
        let Some(text) = self.take(name) else {
            let text = written(alloc, name)?;
            return Ok(Asked::Value(text));
        };
        let key = copy(name)?;
        let own = copy(name)?;
        self.set(key, None)?;
        let step = Step::of(alloc, own, &text)?;
        Ok(Asked::Begun(step))
    }

    // What is known of a name that is begun.
    fn state(&self, name: &Text) -> Mem<Option<Option<Text>>>
        ensures { IfOk result (λ state. state ≡ begun_in self.now name.now) }
    {
        match self.begun.get(name) {
            Some(Some(value)) => Ok(Some(Some(copy(value)?))),
            Some(None) => Ok(Some(None)),
            None => Ok(None),
        }
    }

    // What a name gives.
    fn ask(&mut self, alloc: Global, name: &Text) -> Result<Asked, FillFault>
        ensures says { (known : Items pairs.Pair) (seen : Items (Items ℕ)) →
            IsTable known seen self.old → IsWay known seen name.now →
            Asks known seen name.now self.new result }
        ensures count { AskCounts (fresh_count self.old) (fresh_count self.new) result }
    {
        let state = self.state(name)?;
        match state {
            Some(Some(value)) => Ok(Asked::Value(value)),
            Some(None) => Err(refused(alloc, Rule::ExpressionCycle, name.as_str())),
            None => self.begin(alloc, name),
        }
    }

    // A name in a name's text.
    fn named(&mut self, alloc: Global, step: Step, name: &Text) -> Result<Turn, FillFault>
        ensures says { (known : Items pairs.Pair) (seen : Items (Items ℕ)) →
            IsTable known (step.name ∷ seen) self.old →
            IsStep known seen (Some (Name name.now)) step → Turns known seen step self.new result }
        ensures count { TurnCounts (into_iter_len step.rest + 1) (fresh_count self.old)
            (fresh_count self.new) result }
    {
        match self.ask(alloc, name) {
            Ok(Asked::Value(text)) => grown(alloc, step, &text),
            Ok(Asked::Begun(inner)) => Ok(Turn::Stops(Stop::Asks { outer: step, inner })),
            Err(fault) => Err(fault),
        }
    }

    // The next part of a name's text.
    fn turn(&mut self, alloc: Global, step: Step) -> Result<Turn, FillFault>
        ensures says { (known : Items pairs.Pair) (seen : Items (Items ℕ)) →
            IsTable known (step.name ∷ seen) self.old → IsStep known seen None step →
            Turns known seen step self.new result }
        ensures count { TurnCounts (into_iter_len step.rest) (fresh_count self.old)
            (fresh_count self.new) result }
    {
        let mut step = step;
        let next = step.rest.next();
        match next {
            None => Ok(Turn::Stops(Stop::Ends(step))),
            Some(Part::Plain(text)) => grown(alloc, step, &text),
            Some(Part::Name(name)) => self.named(alloc, step, &name),
        }
    }

    // A name's text, up to a name that is begun or to its end.
    fn run(&mut self, alloc: Global, step: Step) -> Result<Stop, FillFault>
        ensures says { (known : Items pairs.Pair) (seen : Items (Items ℕ)) →
            IsTable known (step.name ∷ seen) self.old → IsStep known seen None step →
            Stops known seen step.name self.new result }
        ensures count { IfOk result (StopCounts (fresh_count self.old) (fresh_count self.new)) }
    {
        let mut step = step;
        loop {
            match self.turn(alloc, step)? {
                Turn::Goes(next) => step = next,
                Turn::Stops(stop) => return Ok(stop),
            }
        }
    }

    // A name whose text is at its end gives its value to the one that waits for it.
    fn end(&mut self, alloc: Global, step: Step, waiting: Vec<Step>) -> Result<Whole, FillFault>
        ensures says { (known : Items pairs.Pair) (whole : Items ℕ) →
            value known (names (reverse waiting.items)) step.name ≡ Ok step.done →
            Waits known (reverse waiting.items) step.name whole →
            IsTable known (step.name ∷ names (reverse waiting.items)) self.old →
            Ends known whole self.new result }
        ensures count { WholeCounts (2 * fresh_count self.old + vec_len waiting)
            (fresh_count self.new) result }
    {
        let Step { name, done, .. } = step;
        let value = copy(&done)?;
        self.set(name, Some(value))?;
        match innermost(waiting) {
            None => Ok(Whole::Ends(done)),
            Some((outer, rest)) => resumed(alloc, outer, rest, &done),
        }
    }

    // The innermost name's text, up to a stop.
    fn turned(&mut self, alloc: Global, waiting: Vec<Step>, step: Step) -> Result<Whole, FillFault>
        ensures says { (known : Items pairs.Pair) (whole : Items ℕ) →
            Goes known whole self.old (reverse waiting.items) step →
            Ends known whole self.new result }
        ensures count { WholeCounts (2 * fresh_count self.old + vec_len waiting)
            (fresh_count self.new) result }
    {
        let stop = match self.run(alloc, step) {
            Ok(stop) => stop,
            Err(fault) => return Err(fault),
        };
        match stop {
            Stop::Asks { outer, inner } => {
                let waiting = with_step(waiting, outer)?;
                Ok(Whole::Goes {
                    waiting,
                    step: inner,
                })
            }
            Stop::Ends(step) => self.end(alloc, step, waiting),
        }
    }

    // A name that is begun, up to its value.
    fn finished(&mut self, alloc: Global, step: Step) -> Result<Text, FillFault>
        ensures { (known : Items pairs.Pair) → IsStep known [] None step →
            IsTable known (step.name ∷ []) self.old →
            Gives known (value known [] step.name) self.new result }
    {
        let mut waiting = Vec::new(alloc);
        let mut step = step;
        loop {
            match self.turned(alloc, waiting, step)? {
                Whole::Goes {
                    waiting: more,
                    step: next,
                } => {
                    waiting = more;
                    step = next;
                }
                Whole::Ends(text) => return Ok(text),
            }
        }
    }

    /// The value of a name. Costs the texts that haven't been asked for before, and its own, on the average.
    pub(crate) fn value(&mut self, alloc: Global, name: &Text) -> Result<Text, FillFault>
        ensures { (known : Items pairs.Pair) → IsTable known [] self.old →
            Gives known (value known [] name.now) self.new result }
    {
        match self.ask(alloc, name)? {
            Asked::Value(text) => Ok(text),
            Asked::Begun(step) => self.finished(alloc, step),
        }
    }

    // A part of a text, after what those before it came to.
    fn part(
        &mut self,
        alloc: Global,
        place: &str,
        done: Text,
        part: &Part,
    ) -> Result<Text, FillFault>
        ensures { (known : Items pairs.Pair) → IsTable known [] self.old →
            Gives known (with_part place.now (value known []) done part.now) self.new result }
    {
        match part {
            Part::Plain(text) => longer(alloc, place, done, text),
            Part::Name(name) => {
                let value = self.value(alloc, name)?;
                longer(alloc, place, done, &value)
            }
        }
    }

    /// A text with values in the place of its expressions: the text itself where none begins in it, so that its copies
    /// share its bytes if it does. Costs what it comes to, and the texts that haven't been asked for before.
    #[tactic(auto, unfolding(crate::specs::Texts::text_of), using(crate::proofs::ValuesStanding::text_stands))]
    pub fn text(&mut self, alloc: Global, place: &str, text: &Text) -> Result<Text, FillFault>
        ensures { (known : Items pairs.Pair) → IsTable known [] self.old →
            Gives known (text_of known place.now text.now) self.new result }
    {
        if stands(text) {
            return Ok(copy(text)?);
        }
        let list = parts(alloc, text)?;
        let mut done = Text::of(String::new(alloc));
        for part in list.as_slice() {
            done = match self.part(alloc, place, done, part) {
                Ok(more) => more,
                Err(fault) => return Err(fault),
            };
        }
        Ok(done)
    }

    /// A text in which no expression may be left.
    #[tactic(auto, unfolding(crate::specs::Texts::name_of), using(crate::proofs::ValuesStanding::name_stands))]
    pub fn name(&mut self, alloc: Global, place: &str, text: &Text) -> Result<Text, FillFault>
        ensures { (known : Items pairs.Pair) → IsTable known [] self.old →
            Gives known (name_of known place.now text.now) self.new result }
    {
        if stands(text) {
            return Ok(copy(text)?);
        }
        let text = self.text(alloc, place, text)?;
        match unresolved(alloc, &text)? {
            Some(name) => Err(refused(alloc, Rule::Unresolved, name.as_str())),
            None => Ok(text),
        }
    }
}
