// The lock and its calls.
//
// The table's first word is twice the length of the log, and one more while a turn is out. On the second those park
// that wait for a turn, on the third those that rest. Each of these two is odd where a thread asked to be called, and
// a call makes it the next even number. Each step is sequentially consistent; who parks asks before it looks at the
// first word again, and a giver writes that word before it looks whether one asked. So either the giver finds that
// one asked, and calls, or the thread finds what was given, and doesn't park; and where the call comes in between,
// the word on which the thread would park is another by then. A call for the turn wakes one thread, which asks again
// for those that may still be parked.
ghost use Rattle.std.specs.Prelude.{◌≡◌, ◌+◌, ◌<◌, ◌≤◌, true, List, [], ◌∷◌, Some, None, IfOk, IfErr, IfSome, IfNone};
ghost use Rattle.std.specs.Result.{is_ok};
ghost use Rattle.turn_lock.specs.declared.lock.NewError.TheVariants.{Memory};
ghost use Rattle.turn_lock.specs.Turns.{AddsOne, AllBegin, Begins, IsFresh, IsKnown, first_view, given, joined, left_of, right_of, with_turn};
ghost use Rattle.turn_lock.specs.Passes.{lock_of, view_of, with_view};

use crate::kept::Kept;
use crate::plays::{Ask, Give, Halves, Look, Take, TurnRule};
use crate::view::View;
use atomic_table::{Seat, Table};
use mvn_shared::Mem;
use std::alloc::Global;
use std::hint::spin_loop;
use std::marker::Model;
use std::snapshot::Snapshot;
use std::sync::Wait;

/// A value under a lock. It may cross threads, and be shared by them, where the value may cross. Of waiting nothing
/// is promised: not that a thread that waits is woken, nor that it is served at last or in its order, nor that
/// threads with several locks don't wait for one another for ever. Project rule.
#[derive(Drop)]
pub struct TurnLock<V: Kept> {
    table: Table<Option<V>, View<V::Fixed, V::Entry>, Snapshot<V>, TurnRule<V>, Global>,
}

impl<V: Kept> Model for TurnLock<V> {
    ghost use Rattle.std.specs.Prelude.{◌≡◌};
    ghost use Rattle.atomic_table.specs.Seated.{TableId, table_id_coded};

    ghost Value = { TableId };

    ghost coded = { table_id_coded };

    ghost view = { λ lock. lock.table.shared.table_id };

    ghost invariant = { λ lock. (lock.table.shared.table_id.words ≡ 3) × (lock.table.shared.table_id.slots ≡ 1) };
}

/// A caller's token: what it knows of the value, which is said by its view ([`View`]). It may cross threads where the
/// value may. At run time it is its seat at the table and the length of the log that it has seen. It can't be
/// dropped, since a lock is closed by the pass that all others were joined to: who fails hands it back. Project rule.
pub struct Pass<V: Kept> {
    seat: Seat<Option<V>, View<V::Fixed, V::Entry>>,
    entries: u64,
}

impl<V: Kept> Model for Pass<V> {
    ghost use Rattle.std.specs.Prelude.{◌≡◌, ℕ, false, length, Option, None, Some, []};
    ghost use Rattle.atomic_table.specs.Seated.{TableId};
    ghost use Rattle.turn_lock.specs.declared.view.View.{View};
    ghost use Rattle.turn_lock.specs.Passes.{Carries};

    ghost Value = { TableId × ℕ × View V.Fixed V.Entry };

    ghost view = { λ pass. (pass.seat.table_id, pass.seat.id, pass.seat.me.0) };

    ghost invariant = { λ pass. (pass.entries ≡ length pass.seat.me.0.seen) × (pass.seat.me.0.spent ≡ false) × Carries pass.seat.me.0.turn pass.seat.me.1 };
}

/// A turn: the value, until it is given back. It can't be dropped, since a turn that isn't given back keeps all
/// others waiting: who fails gives it back. Project rule.
pub struct Turn<V> {
    pub value: V,
}

/// There was no memory; the value comes back. Project rule.
#[derive(Drop)]
pub enum NewError<V> {
    Memory(V),
}

// A slot with a value in it; the value comes back where memory is missing.
fn one_slot<V>(alloc: Global, value: V) -> Result<Vec<Option<V>>, NewError<V>>
    ensures ok { IfOk result (λ slots. slots.items ≡ Some value ∷ []) }
    ensures err { IfErr result (λ e. e ≡ Memory value) }
{
    let Ok(mut slots) = Vec::with_capacity(alloc, 1) else {
        return Err(NewError::Memory(value));
    };
    match slots.push(Some(value)) {
        Ok(()) => Ok(slots),
        Err(failed) => {
            slots.destroy_empty();
            Err(NewError::Memory(whole(failed.value)))
        }
    }
}

// A value that is there.
fn whole<V>(value: Option<V>) -> V
    requires { (x : V) × (value ≡ Some x) }
    ensures { Some result ≡ value }
{
    match value {
        Some(value) => value,
        None => unreachable!(),
    }
}

// Takes a value that isn't there.
fn nothing<V>(value: Option<V>)
    requires { value ≡ None }
{
    let None = value else { unreachable!() };
}

// The value of a slot.
fn value_in<V>(mut slots: Vec<Option<V>>) -> V
    requires { (x : V) × (slots.items ≡ Some x ∷ []) }
    ensures { slots.items ≡ Some result ∷ [] }
{
    let value = slots.pop();
    slots.destroy_empty();
    whole(value.flatten())
}

impl<V: Kept> TurnLock<V> {
    /// A lock over a value, and its first pass, which has seen the value's log, owes nothing, and has the number 0,
    /// all workers as its reach and the whole weight. Where memory is missing the value comes back. Project rule.
    pub fn new(alloc: Global, value: V) -> Result<(TurnLock<V>, Pass<V>), NewError<V>>
        requires some_worker { 0 < V.count value }
        requires fresh { IsFresh V.role (V.log value) }
        ensures own { IfOk result (λ r. lock_of r.1 ≡ r.0) }
        ensures first { IfOk result (λ r.
            view_of r.1 ≡ first_view (V.log value) (V.fixed value) (V.count value)) }
        ensures err { IfErr result (λ e. e ≡ Memory value) }
    {
        let entries = value.entries();
        let about = Snapshot::of(&value);
        let slots = match one_slot(alloc, value) {
            Ok(slots) => slots,
            Err(error) => return Err(error),
        };
        match Table::new(alloc, &[2 * entries, 0, 0], slots, &about) {
            Ok((table, seat)) => Ok((TurnLock { table }, Pass { seat, entries })),
            Err(refused) => Err(NewError::Memory(value_in(refused.slots))),
        }
    }

    // The value, where no turn is out.
    #[inline]
    fn try_take(&self, pass: &mut Pass<V>) -> Option<V>
        requires own { lock_of pass.old ≡ self.now }
        requires free { (view_of pass.old).turn ≡ None }
        ensures some { IfSome result (λ value.
            pass.new ≡ with_view pass.old (with_turn (view_of pass.old) (V.log value))) }
        ensures known { IfSome result (λ value.
            IsKnown V.role (V.log value) (V.fixed value) (V.count value) (view_of pass.old)) }
        ensures none { IfNone result (pass.new ≡ pass.old) }
    {
        let found = self.table.shared.fetch_or::<Take<V>>(&mut pass.seat, 0, 1);
        if found % 2 == 1 {
            return None;
        }
        Some(whole(self.table.shared.exchange(&mut pass.seat, 0, None)))
    }

    // Asks to be called: makes a word odd, and answers what its low half is then, to park on.
    fn ask(&self, pass: &mut Pass<V>, word: usize) -> u32
        requires own { lock_of pass.old ≡ self.now }
        requires word { (0 < word) × (word < 3) }
        ensures { pass.new ≡ pass.old }
    {
        let found = self
            .table
            .shared
            .fetch_or::<Ask<V>>(&mut pass.seat, word, 1);
        ((found | 1) & 0xffff_ffff) as u32
    }

    // Whether a thread asked to be called; then the word is made even.
    #[inline]
    fn answer(&self, pass: &mut Pass<V>, word: usize) -> bool
        requires own { lock_of pass.old ≡ self.now }
        requires word { (0 < word) × (word < 3) }
        ensures { pass.new ≡ pass.old }
    {
        if self.table.shared.peek(word) % 2 == 0 {
            return false;
        }
        self.table
            .shared
            .fetch_add::<Ask<V>>(&mut pass.seat, word, 1);
        true
    }

    // Whether the turn comes back at once: it looks a hundred times.
    fn comes_soon(&self) -> bool {
        for _ in 0..100u32 {
            if self.table.shared.peek(0) % 2 == 0 {
                return true;
            }
            spin_loop();
        }
        false
    }

    // Looks for a moment, and then parks while a turn is out.
    #[inline(never)]
    fn wait<R: Wait>(&self, rt: &R, pass: &mut Pass<V>)
        requires { lock_of pass.old ≡ self.now }
        ensures { pass.new ≡ pass.old }
    {
        if self.comes_soon() {
            return;
        }
        let asked = self.ask(pass, 1);
        if self.table.shared.peek(0) % 2 == 1 {
            self.table.shared.park(rt, 1, asked);
            let _for_others = self.ask(pass, 1);
        }
    }

    /// The value, when no other turn is out. May wait; a thread that waits parks until a turn is given. Takes no
    /// memory; two atomic steps besides waiting. That a thread that waits is woken or served isn't promised. Project
    /// rule.
    #[inline]
    pub fn take<R: Wait>(&self, rt: &R, pass: &mut Pass<V>) -> Turn<V>
        requires own { lock_of pass.old ≡ self.now }
        requires free { (view_of pass.old).turn ≡ None }
        ensures pass { pass.new
            ≡ with_view pass.old (with_turn (view_of pass.old) (V.log result.value)) }
        ensures known { IsKnown V.role (V.log result.value) (V.fixed result.value)
            (V.count result.value) (view_of pass.old) }
    {
        for _ in rt.forever() {
            match self.try_take(pass) {
                Some(value) => return Turn { value },
                None => self.wait(rt, pass),
            }
        }
        unreachable!()
    }

    /// Gives the turn back that the pass took last, with at most one entry of the pass more. Wakes a thread that
    /// waits for a turn, and where there is an entry more all that rest. Takes no memory; two atomic steps, and calls
    /// of the system only where a thread waits or rests. Project rule.
    #[inline]
    pub fn give(&self, pass: &mut Pass<V>, turn: Turn<V>)
        requires own { lock_of pass.old ≡ self.now }
        requires taken { (log : List V.Entry) × ((view_of pass.old).turn ≡ Some log) ×
            AddsOne V.role (view_of pass.old).number log (V.log turn.value) }
        requires fixed { Some (V.fixed turn.value) ≡ (view_of pass.old).fixed }
        requires workers { V.count turn.value ≡ (view_of pass.old).workers }
        ensures { pass.new
            ≡ with_view pass.old (given V.role (view_of pass.old) (V.log turn.value)) }
    {
        let Turn { value } = turn;
        let entries = value.entries();
        nothing(self.table.shared.exchange(&mut pass.seat, 0, Some(value)));
        let before = self
            .table
            .shared
            .swap::<Give<V>>(&mut pass.seat, 0, 2 * entries);
        pass.entries = entries;
        if self.answer(pass, 1) {
            self.table.shared.wake_one(1);
        }
        if before / 2 != entries && self.answer(pass, 2) {
            self.table.shared.wake_all(2);
        }
    }

    // Whether the log has another length than the pass has seen.
    fn has_grown(&self, pass: &Pass<V>) -> bool {
        self.table.shared.peek(0) / 2 != pass.entries
    }

    /// Waits until a turn was given with an entry that the pass hasn't seen, or for no reason shorter; a thread that
    /// waits parks. May wait. Takes no memory. Nothing is claimed of when it returns. Project rule.
    pub fn rest<R: Wait>(&self, rt: &R, pass: &mut Pass<V>)
        requires own { lock_of pass.old ≡ self.now }
        requires free { (view_of pass.old).turn ≡ None }
        ensures { pass.new ≡ pass.old }
    {
        if self.has_grown(pass) {
            return;
        }
        let asked = self.ask(pass, 2);
        if !self.has_grown(pass) {
            self.table.shared.park(rt, 2, asked);
        }
    }

    /// Cuts a pass in two that owes nothing and has at least two workers in its reach. The new one has the last half
    /// of the reach, rounded down, and as much of the weight; it has seen the same log and owes nothing. Takes no
    /// memory, and so is never refused; one atomic step. Project rule.
    pub fn split(&self, pass: &mut Pass<V>) -> Mem<Pass<V>>
        requires own { lock_of pass.old ≡ self.now }
        requires free { ((view_of pass.old).turn ≡ None) × ((view_of pass.old).owed ≡ None) }
        requires wide { (view_of pass.old).number + 2 ≤ (view_of pass.old).reach }
        ensures some { is_ok result ≡ true }
        ensures left { pass.new ≡ with_view pass.old (left_of (view_of pass.old)) }
        ensures own { IfOk result (λ other. lock_of other ≡ lock_of pass.old) }
        ensures right { IfOk result (λ other. view_of other ≡ right_of (view_of pass.old)) }
    {
        let seat = self.table.shared.split_seat::<Halves>(&mut pass.seat);
        Ok(Pass {
            seat,
            entries: pass.entries,
        })
    }

    // Takes another pass in.
    fn absorb(&self, pass: &mut Pass<V>, other: Pass<V>)
        requires own { (lock_of pass.old ≡ self.now) × (lock_of other ≡ self.now) }
        requires free { ((view_of pass.old).turn ≡ None) × ((view_of other).turn ≡ None) ×
            ((view_of other).owed ≡ None) }
        ensures { pass.new ≡ with_view pass.old (joined (view_of pass.old) (view_of other)) }
    {
        let Pass { seat, entries } = other;
        self.table.shared.join_seat::<Halves>(&mut pass.seat, seat);
        if pass.entries <= entries {
            pass.entries = entries;
        }
    }

    // A look, which tells how logs that were seen begin one another.
    fn look(&self, pass: &mut Pass<V>) -> u64
        requires { lock_of pass.old ≡ self.now }
        ensures same { pass.new ≡ pass.old }
        ensures parts { AllBegin (view_of pass.old).parts (view_of pass.old).seen }
    {
        self.table.shared.load::<Look<V>>(&mut pass.seat, 0)
    }

    /// Takes another pass in that owes nothing: the pass then has seen the longer log, which both old ones begin, and
    /// has the other's weight besides its own; the other's reach isn't given back. Takes no memory; two atomic steps.
    /// Project rule.
    pub fn join(&self, pass: &mut Pass<V>, other: Pass<V>)
        requires own { (lock_of pass.old ≡ self.now) × (lock_of other ≡ self.now) }
        requires free { ((view_of pass.old).turn ≡ None) × ((view_of other).turn ≡ None) ×
            ((view_of other).owed ≡ None) }
        ensures joined { pass.new ≡ with_view pass.old (joined (view_of pass.old) (view_of other)) }
        ensures own_log { Begins (view_of pass.old).seen (view_of pass.new).seen }
        ensures other_log { Begins (view_of other).seen (view_of pass.new).seen }
    {
        self.absorb(pass, other);
        let _found = self.look(pass);
    }

    /// Ends the lock by the pass that has the whole weight, so that all others were joined to it, and that owes
    /// nothing; so it has seen the whole log. Takes no memory; constant time. Project rule.
    pub fn close(self, pass: Pass<V>) -> V
        requires own { lock_of pass ≡ self }
        requires free { ((view_of pass).turn ≡ None) × ((view_of pass).owed ≡ None) }
        requires whole { (view_of pass).weight ≡ (view_of pass).workers }
        ensures fixed { Some (V.fixed result) ≡ (view_of pass).fixed }
        ensures workers { V.count result ≡ (view_of pass).workers }
        ensures log { V.log result ≡ (view_of pass).seen }
    {
        let TurnLock { table } = self;
        let Pass { seat, entries: _ } = pass;
        let mut closed = table.close_with(seat);
        let value = closed.take(0);
        closed.free();
        whole(value)
    }
}
