#![tactic(auto)]

ghost use Rattle.std.specs.Prelude.{◌≡◌, ℕ, List};
ghost use Rattle.mother.specs.Generators.{Words, generator, SetUp, Next, Fills, Small};

use place::past;
use refusal::Refusal;

pub mod place;
pub mod two_way;

// How many words a generator has.
pub const LIMIT: u64 = 1 << 34;

// A mother generator: it stands for a start word, a list of 2^34 words and a place in that list.
pub trait Mother {
    type Word: Copy + Default;

    // the start word, the list of words by index, and the place, the index of the word to come
    ghost start: { Self → Self.Word };

    ghost word: { Self → ℕ → Self.Word };

    ghost place: { Self → ℕ };

    // what a key and an IV fix
    ghost given: { Self → List ℕ → List ℕ → Words Self.Word };

    // that the state is one that a set-up and moves lead to
    ghost sound: { Self → Type 0 };

    // Fixes the start word and the words by a key and an IV, and goes to place 0. The two are separate arguments
    // everywhere, as C passes them and as every description of the cipher has them.
    fn set_up(&mut self, key: &[u8], iv: &[u8]) -> Result<Self::Word, Refusal>
        ensures { SetUp (generator start word place given sound) self.old
            key.now iv.now result self.new };

    // The word at the place, which goes on by one.
    fn next(&mut self) -> Result<Self::Word, Refusal>
        ensures { Next (generator start word place given sound) self.old result self.new };

    // The words from the place on, as many as `words` has, as so many calls of `next`. A generator may
    // have a faster way.
    fn fill(&mut self, words: &mut [Self::Word]) -> Result<(), Refusal>
        ensures { Fills (generator start word place given sound) self.old words.old
            result self.new words.new }
    {
        let _ = past(self.place(), words.len() as u64)?;
        for word in words.iter_mut() {
            *word = self.next()?;
        }
        Ok(())
    }

    // Says that a word is small, for whoever keeps some at hand. It does nothing.
    fn words_are_small()
        ensures { Small Self.Word.row };

    // The place; 0 before the first set-up.
    fn place(&self) -> u64
        ensures { result ≡ place self.now };
}
