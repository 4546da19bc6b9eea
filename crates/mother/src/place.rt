ghost use Rattle.std.specs.Prelude.{◌≡◌, ◌^◌, ◌≤◌};
ghost use Rattle.mother.specs.Places.{After, Before, Passed, Preceded};

use crate::LIMIT;
use refusal::Refusal;
use std::marker::Model;

// The index `count` places after another, if the list goes as far.
pub fn past(index: u64, count: u64) -> Result<u64, Refusal>
    ensures { Passed index count result }
{
    index
        .checked_add(count)
        .filter(|end| *end <= LIMIT)
        .ok_or(Refusal::PastLast)
}

// The index `count` places before another, if there are as many.
pub fn before(index: u64, count: u64) -> Result<u64, Refusal>
    ensures { Preceded index count result }
{
    index.checked_sub(count).ok_or(Refusal::BeforeFirst)
}

// A place in a list of 2^34 words: the index of the word to come, or 2^34 past the last.
#[derive(Clone, Copy)]
pub struct Place {
    index: u64,
}

impl Model for Place {
    ghost use Rattle.std.specs.Prelude.{ℕ, ◌^◌, ◌≤◌};

    ghost Value = { ℕ };

    ghost view = { λ p. p.index };

    ghost invariant = { λ p. p.index ≤ 2 ^ 34 };

    ghost inverse = { λ n. record { index = n } };
}

impl Place {
    // Before the first word.
    pub fn front() -> Place
        ensures { result ≡ 0 }
    {
        Place { index: 0 }
    }

    pub fn index(self) -> u64
        ensures is { result ≡ self }
        ensures low { result ≤ 2 ^ 34 }
    {
        let Place { index } = self;
        index
    }

    // The place after the word to come, if there is one.
    pub fn after(self) -> Result<Place, Refusal>
        ensures { After self result }
    {
        self.past(1)
    }

    // The place before the word passed last, if there is one.
    pub fn before(self) -> Result<Place, Refusal>
        ensures { Before self result }
    {
        Ok(Place {
            index: before(self.index, 1)?,
        })
    }

    // The place after `count` words more, if there are as many.
    pub fn past(self, count: u64) -> Result<Place, Refusal>
        ensures { Passed self count result }
    {
        Ok(Place {
            index: past(self.index, count)?,
        })
    }
}
