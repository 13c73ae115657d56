//! Sets of the numbers of algorithms, as bits.
//!
//! Contracts see a [`NumberSet`] by one test, whether it has a number; it is copied by value, and
//! [`NumberSet::first_from`] walks it in number order.
#![tactic(auto)]

ghost use Rattle.std.specs.Prelude.{◌≡◌, ℕ, ◌*◌, ◌<◌, ◌≤◌, Bool, true, false, ◌||◌, ◌&&◌, not, nat_eq, MatchOption, length};
ghost use Rattle.std.specs.Int.{bit_at};
ghost use Rattle.number_set.specs.Numbers.{IsFirstBit, has, has_bit};

use hive_model::MOST_ALGORITHMS;

const WORDS: usize = 16;

/// A set of numbers of algorithms, or of sequences. It is copied by value, and walked in number order.
#[derive(Clone, Copy, Debug)]
pub struct NumberSet {
    words: [u64; 16],
}

impl NumberSet {
    /// The set without a number.
    pub fn new() -> NumberSet
        ensures { (n : ℕ) → has result n ≡ false }
    {
        NumberSet { words: [0; 16] }
    }

    /// Whether the number is in the set.
    pub fn contains(&self, number: u16) -> bool
        requires { number < MOST_ALGORITHMS }
        ensures { result ≡ has self.now number }
    {
        has_bit(
            self.words[usize::from(number) / 64],
            usize::from(number) % 64,
        )
    }

    /// Puts the number into the set.
    pub fn insert(&mut self, number: u16)
        requires { number < MOST_ALGORITHMS }
        ensures { (n : ℕ) → has self.new n ≡ (nat_eq n number || has self.old n) }
    {
        let place = usize::from(number) / 64;
        self.words[place] = with_bit(self.words[place], usize::from(number) % 64);
    }

    /// Takes the number out of the set.
    pub fn remove(&mut self, number: u16)
        requires { number < MOST_ALGORITHMS }
        ensures { (n : ℕ) → has self.new n ≡ (not (nat_eq n number) && has self.old n) }
    {
        let place = usize::from(number) / 64;
        self.words[place] = without_bit(self.words[place], usize::from(number) % 64);
    }

    /// The numbers of this set that aren't in the other.
    pub fn without(&self, other: &NumberSet) -> NumberSet
        ensures { (n : ℕ) → has result n ≡ (has self.now n && not (has other.now n)) }
    {
        let mut left = *self;
        for place in 0..WORDS {
            left.words[place] = without_bits(self.words[place], other.words[place]);
        }
        left
    }

    /// The least number of the set that isn't below `from`; `None` exactly where there is none. So a set is walked
    /// in number order by asking for the one above the last.
    pub fn first_from(&self, from: u16) -> Option<u16>
        ensures { MatchOption result
            ((n : ℕ) → from ≤ n → has self.now n ≡ false)
            (λ it. (from ≤ it) × (it < MOST_ALGORITHMS) × (has self.now it ≡ true)
            × ((n : ℕ) → from ≤ n → n < it → has self.now n ≡ false)) }
    {
        let first = usize::from(from) / 64;
        if first >= WORDS {
            return None;
        }
        if let Some(bit) = first_bit(self.words[first], usize::from(from) % 64) {
            return Some((64 * first + bit) as u16);
        }
        self.first_in(first + 1)
    }

    // The least number whose word stands at that place, or later.
    fn first_in(&self, first: usize) -> Option<u16>
        requires { 1 ≤ first }
        ensures { MatchOption result
            ((n : ℕ) → 64 * first ≤ n → has self.now n ≡ false)
            (λ it. (64 * first ≤ it) × (it < MOST_ALGORITHMS) × (has self.now it ≡ true)
            × ((n : ℕ) → 64 * first ≤ n → n < it → has self.now n ≡ false)) }
    {
        if self.is_one_word() {
            return None;
        }
        for place in first..WORDS {
            if let Some(bit) = first_bit(self.words[place], 0) {
                return Some((64 * place + bit) as u16);
            }
        }
        None
    }

    // Whether all words but the first are 0, as they are where a job has few algorithms.
    fn is_one_word(&self) -> bool
        ensures { result ≡ true → (n : ℕ) → 64 ≤ n → has self.now n ≡ false }
    {
        let mut others = 0;
        for place in 1..WORDS {
            others |= self.words[place];
        }
        others == 0
    }
}

fn has_bit(word: u64, bit: usize) -> bool
    requires { bit < 64 }
    ensures { result ≡ has_bit word bit }
{
    (word >> bit) & 1 == 1
}

fn with_bit(word: u64, bit: usize) -> u64
    requires { bit < 64 }
    ensures same { has_bit result bit ≡ true }
    ensures others { (n : ℕ) → n < 64 → nat_eq n bit ≡ false → has_bit result n ≡ has_bit word n }
{
    word | (1 << bit)
}

fn without_bit(word: u64, bit: usize) -> u64
    requires { bit < 64 }
    ensures same { has_bit result bit ≡ false }
    ensures others { (n : ℕ) → n < 64 → nat_eq n bit ≡ false → has_bit result n ≡ has_bit word n }
{
    word & !(1 << bit)
}

fn without_bits(word: u64, other: u64) -> u64
    ensures { (n : ℕ) → n < 64 → has_bit result n ≡ (has_bit word n && not (has_bit other n)) }
{
    word & !other
}

// The least bit of the word that isn't below `low`.
fn first_bit(word: u64, low: usize) -> Option<usize>
    requires { low < 64 }
    ensures { IsFirstBit word low result }
{
    let high = word & (u64::MAX << low);
    if high == 0 {
        return None;
    }
    Some(high.trailing_zeros() as usize)
}
