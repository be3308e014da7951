// Numbers that are marked, as bits of words, so that the first is found by words of words.
ghost use Rattle.std.specs.Prelude.{◌≡◌, ◌≢◌, ℕ, ◌*◌, ◌<◌, ◌^◌, true, false, not, nat_eq, get_or, length, Some, None, IfOk};
ghost use Rattle.std.specs.Int.{bit_at};
ghost use Rattle.event_core.specs.Fronts.{is_marked, number_of_mark};

use mvn_shared::Mem;
use std::alloc::Global;

/// Bits in words.
#[derive(Drop)]
struct Bits {
    words: Vec<u64>,
}

/// Which numbers are marked, in words; and which of these words has a mark.
#[derive(Drop)]
pub(crate) struct Marks {
    pub(crate) words: Vec<u64>,
    groups: Bits,
    ghost wide: { length words.items < 64 * length groups.words.items },
    ghost few: { length groups.words.items < 2 ^ 32 },
    ghost grouped: { (i : ℕ) → is_marked groups.words.items i ≡ not (nat_eq (get_or words.items i 0) 0) },
}

// A word with this bit so.
fn with_bit(word: u64, place: u32, mark: bool) -> u64
    requires { place < 64 }
    ensures same { bit_at result place ≡ number_of_mark mark }
    ensures others { (i : ℕ) → i < 64 → i ≢ place → bit_at result i ≡ bit_at word i }
{
    if mark {
        word | (1 << place)
    } else {
        word & !(1 << place)
    }
}

// The lowest bit of a word.
fn lowest(word: u64) -> Option<u32>
    ensures none { result ≡ None → word ≡ 0 }
    ensures some { (k : ℕ) → result ≡ Some k
        → (k < 64) × (bit_at word k ≡ 1) × ((i : ℕ) → i < k → bit_at word i ≡ 0) }
{
    if word == 0 {
        None
    } else {
        Some(word.trailing_zeros())
    }
}

impl Bits {
    // No bit is set, of as many. Costs a sixty-fourth of it.
    fn none(alloc: Global, count: u32) -> Mem<Bits>
        ensures room { IfOk result (λ bits. count < 64 * length bits.words.items) }
        ensures small { IfOk result (λ bits. length bits.words.items < 2 ^ 32) }
        ensures none { IfOk result (λ bits. (k : ℕ) → is_marked bits.words.items k ≡ false) }
    {
        let words = vec![in alloc; 0u64; count as usize / 64 + 1]?;
        Ok(Bits { words })
    }

    // Sets a bit, or clears it. Constant time.
    fn set(&mut self, at: usize, mark: bool)
        requires { at < 64 * length self.old.words.items }
        ensures length { length self.new.words.items ≡ length self.old.words.items }
        ensures same { is_marked self.new.words.items at ≡ mark }
        ensures others { (k : ℕ) → k ≢ at
            → is_marked self.new.words.items k ≡ is_marked self.old.words.items k }
    {
        let word = self.words[at / 64];
        self.words[at / 64] = with_bit(word, (at % 64) as u32, mark);
    }

    // The first that is set. Costs a look at each word before it.
    fn first(&self) -> Option<usize>
        requires { length self.now.words.items < 2 ^ 32 }
        ensures none { result ≡ None → (k : ℕ) → is_marked self.now.words.items k ≡ false }
        ensures some { (k : ℕ) → result ≡ Some k
            → (is_marked self.now.words.items k ≡ true)
            × ((j : ℕ) → j < k → is_marked self.now.words.items j ≡ false) }
    {
        for word in 0..self.words.len() {
            if let Some(place) = lowest(self.words[word]) {
                return Some(word * 64 + place as usize);
            }
        }
        None
    }
}

impl Marks {
    /// No number below this is marked. Costs a sixty-fourth of it.
    pub(crate) fn none(alloc: Global, count: u32) -> Mem<Marks>
        ensures room { IfOk result (λ marks. count < 64 * length marks.words.items) }
        ensures small { IfOk result (λ marks. length marks.words.items < 2 ^ 32) }
        ensures none { IfOk result (λ marks. (k : ℕ) → is_marked marks.words.items k ≡ false) }
    {
        let count = count / 64 + 1;
        let words = vec![in alloc; 0u64; count as usize]?;
        let groups = Bits::none(alloc, count)?;
        Ok(Marks { words, groups })
    }

    /// Marks a number, or not. Constant time.
    pub(crate) fn set(&mut self, at: usize, mark: bool)
        requires { at < 64 * length self.old.words.items }
        ensures length { length self.new.words.items ≡ length self.old.words.items }
        ensures same { is_marked self.new.words.items at ≡ mark }
        ensures others { (k : ℕ) → k ≢ at
            → is_marked self.new.words.items k ≡ is_marked self.old.words.items k }
    {
        let word = with_bit(self.words[at / 64], (at % 64) as u32, mark);
        self.words[at / 64] = word;
        self.groups.set(at / 64, word != 0);
    }

    /// The first that is marked. Costs a look at a word for each 4,096 numbers before it.
    pub(crate) fn first(&self) -> Option<usize>
        requires { length self.now.words.items < 2 ^ 32 }
        ensures none { result ≡ None → (k : ℕ) → is_marked self.now.words.items k ≡ false }
        ensures some { (k : ℕ) → result ≡ Some k
            → (is_marked self.now.words.items k ≡ true)
            × ((j : ℕ) → j < k → is_marked self.now.words.items j ≡ false) }
    {
        let Some(word) = self.groups.first() else {
            return None;
        };
        if word >= self.words.len() {
            return None;
        }
        match lowest(self.words[word]) {
            Some(place) => Some(word * 64 + place as usize),
            None => None,
        }
    }
}
