//! Marks of numbers.

ghost use Rattle.std.specs.Prelude.{◌≡◌, ◌≤◌, ◌<◌, ◌==◌, ◌||◌, ◌/◌, ◌%◌, ◌^◌, ◌*◌, ℕ, [], length, slice_index_or, bit_or, true, false, OnOk};
ghost use Rattle.std.specs.Int.{bit_at};
ghost use Rattle.jt_platform.specs.Marked.{HasMark, is_marked};

use jt_value::Memory;
use std::alloc::Global;
use std::marker::Model;

// How many numbers a word has marks of.
const NUMBERS: u32 = 64;

// Whether each number up to some bound is marked: a bit for each.
#[derive(Drop)]
pub(crate) struct Flags {
    words: Vec<u64>,
}

impl Model for Flags {
    ghost use Rattle.std.specs.Prelude.{List, ℕ};

    ghost Value = { List ℕ };

    ghost view = { λ f. f.words.items };
}

fn is_set(word: u64, place: u32) -> bool
    requires { place < 64 }
    ensures { result ≡ (bit_at word place == 1) }
{
    (word >> place) & 1 == 1
}

fn with_set(word: u64, place: u32) -> u64
    requires { place < 64 }
    ensures { result ≡ bit_or word (1 * 2 ^ place % 2 ^ 64) }
{
    word | (1 << place)
}

impl Flags {
    pub(crate) fn new(alloc: Global) -> Flags
        ensures { result ≡ [] }
    {
        Flags {
            words: Vec::new(alloc),
        }
    }

    #[tactic(auto, unfolding(crate::specs::Marked::is_marked))]
    pub(crate) fn has(&self, number: u32) -> bool
        ensures { result ≡ is_marked self.now number }
    {
        match self.words.get((number / NUMBERS) as usize) {
            Some(word) => is_set(*word, number % NUMBERS),
            None => false,
        }
    }

    // Makes the place for a mark of the number, and of all below it.
    #[tactic(auto, unfolding(crate::specs::Marked::HasMark, crate::specs::Marked::is_marked))]
    pub(crate) fn place(&mut self, number: u32) -> Result<(), Memory>
        ensures made { OnOk result (HasMark self.new number) }
        ensures kept { (q : ℕ) → HasMark self.old q → HasMark self.new q }
        ensures same { (q : ℕ) → is_marked self.new q ≡ is_marked self.old q }
    {
        self.grow((number / NUMBERS) as usize + 1)
    }

    // Has so many words at least.
    fn grow(&mut self, words: usize) -> Result<(), Memory>
        ensures made { OnOk result (words ≤ length self.new) }
        ensures kept { length self.old ≤ length self.new }
        ensures same { (j : ℕ) → slice_index_or self.new j 0 ≡ slice_index_or self.old j 0 }
    {
        if words <= self.words.len() {
            return Ok(());
        }
        self.words.resize(words, 0)?;
        Ok(())
    }

    #[tactic(auto, using(crate::proofs::Marking::marked_so), unfolding(crate::specs::Marked::HasMark))]
    pub(crate) fn mark(&mut self, number: u32)
        requires { HasMark self.old number }
        ensures kept { (q : ℕ) → HasMark self.old q → HasMark self.new q }
        ensures marked { (q : ℕ) → is_marked self.new q
            ≡ ((number == q) || is_marked self.old q) }
    {
        let place = (number / NUMBERS) as usize;
        self.words[place] = with_set(self.words[place], number % NUMBERS);
    }
}
