// Sets of modules as bits of words.
ghost use Rattle.std.specs.Prelude.{◌≡◌, ℕ, ◌+◌, ◌<◌, ◌≤◌, ◌/◌, ◌%◌, ◌==◌, ◌&&◌, ◌||◌, not, true, false, nat_eq, length, get_or, IfOk};
ghost use Rattle.std.specs.Int.{bit_at};
ghost use Rattle.std.specs.Int.RustNames.{bit_or};
ghost use Rattle.reactor_order.specs.Rows.{is_in, words_for};

use mvn_shared::Mem;
use std::alloc::Global;
use std::marker::Model;

/// A set of modules. Contracts see it as its words.
#[derive(Drop)]
pub(crate) struct Row {
    words: Vec<u64>,
}

impl Model for Row {
    ghost use Rattle.std.specs.Prelude.{List, ℕ};
    ghost use Rattle.std.specs.Coded.{coded_list, coded_ℕ};

    ghost Value = { List ℕ };

    ghost coded = { coded_list coded_ℕ };

    ghost view = { λ row. row.words.items };
}

// Whether a word has a bit.
fn has_bit(word: u64, place: u32) -> bool
    requires { place < 64 }
    ensures { result ≡ nat_eq (bit_at word place) 1 }
{
    (word >> place) & 1 == 1
}

// A word with a bit more.
fn with_bit(word: u64, place: u32) -> u64
    requires { place < 64 }
    ensures { (i : ℕ) → nat_eq (bit_at result i) 1 ≡ (place == i || nat_eq (bit_at word i) 1) }
{
    word | (1 << place)
}

// The bits of both words.
fn both(word: u64, more: u64) -> u64
    ensures { (i : ℕ) → nat_eq (bit_at result i) 1
        ≡ (nat_eq (bit_at word i) 1 || nat_eq (bit_at more i) 1) }
{
    word | more
}

// The bits of a word that the other hasn't.
fn only(word: u64, less: u64) -> u64
    ensures { (i : ℕ) → i < 64 → nat_eq (bit_at result i) 1
        ≡ (nat_eq (bit_at word i) 1 && not (nat_eq (bit_at less i) 1)) }
{
    word & !less
}

impl Row {
    /// No module, of so many. Costs a sixty-fourth of their number.
    pub(crate) fn none(alloc: Global, n: u32) -> Mem<Row>
        ensures wide { IfOk result (λ row. length row ≡ words_for n) }
        ensures none { IfOk result (λ row. (k : ℕ) → is_in row k ≡ false) }
    {
        let words = vec![in alloc; 0u64; n as usize / 64 + 1]?;
        Ok(Row { words })
    }

    /// Whether a module is in it. Constant time.
    pub(crate) fn has(&self, k: u32) -> bool
        requires { k / 64 < length self.now }
        ensures { result ≡ is_in self.now k }
    {
        has_bit(self.words[(k / 64) as usize], k % 64)
    }

    /// Puts a module in. Constant time.
    pub(crate) fn put(&mut self, k: u32)
        requires { k / 64 < length self.old }
        ensures long { length self.new ≡ length self.old }
        ensures each { (j : ℕ) → is_in self.new j ≡ (k == j || is_in self.old j) }
    {
        let at = (k / 64) as usize;
        self.words[at] = with_bit(self.words[at], k % 64);
    }

    /// Puts in what is in another. Costs the words.
    pub(crate) fn join(&mut self, more: &Row)
        requires { length more.now ≡ length self.old }
        ensures long { length self.new ≡ length self.old }
        ensures each { (j : ℕ) → is_in self.new j ≡ (is_in self.old j || is_in more.now j) }
    {
        for at in 0..self.words.len() {
            self.words[at] = both(self.words[at], more.words[at]);
        }
    }

    /// What is in it and not in another. Costs the words.
    pub(crate) fn without(&self, alloc: Global, less: &Row) -> Mem<Row>
        requires { length less.now ≡ length self.now }
        ensures long { IfOk result (λ row. length row ≡ length self.now) }
        ensures each { IfOk result (λ row. (j : ℕ) → is_in row j
            ≡ (is_in self.now j && not (is_in less.now j))) }
    {
        let mut words = Vec::with_capacity(alloc, self.words.len())?;
        for at in 0..self.words.len() {
            words.push(only(self.words[at], less.words[at]))?;
        }
        Ok(Row { words })
    }

    /// How many modules from one on aren't in it, as far as is seen by one word: 0 where that one is in it. Constant time.
    pub(crate) fn gap(&self, k: u32) -> u32
        requires { k / 64 < length self.now }
        ensures within { result ≤ 64 }
        ensures none { result ≡ 0 → is_in self.now k ≡ true }
        ensures free { (j : ℕ) → k ≤ j → j < k + result → is_in self.now j ≡ false }
    {
        if k % 64 == 0 && self.words[(k / 64) as usize] == 0 {
            return 64;
        }
        if self.has(k) { 0 } else { 1 }
    }
}
