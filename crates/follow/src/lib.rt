#![tactic(auto)]

ghost use Rattle.mother.specs.Means.{means};
ghost use Rattle.follow.specs.Follows.{SetsUp, GoesOn, GoesBack};

use keystream::Filter;
use keystream::two_way::TwoWayFilter;
use mother::Mother;
use mother::place::{before, past};
use mother::two_way::TwoWay;
use refusal::Refusal;

// The generator and the memory that follows it are two arguments throughout: they have different owners, and before a
// set-up there is a generator and no memory.

// Sets up the generator, and answers the first memory.
pub fn set_up<M: Mother, F: TwoWayFilter + Filter<Word = M::Word>>(
    mother: &mut M,
    key: &[u8],
    iv: &[u8],
) -> Result<F::Memory, Refusal>
    ensures { SetsUp (means M.Mother) F.Filter F.held mother.old key.now iv.now
        result mother.new }
{
    let start = mother.set_up(key, iv)?;
    F::first_is_held(start);
    Ok(F::first(start))
}

// The memory after one word more.
pub fn step_on<M: Mother, F: Filter<Word = M::Word>>(
    mother: &mut M,
    memory: F::Memory,
) -> Result<F::Memory, Refusal>
    ensures { GoesOn (means M.Mother) F.Filter mother.old memory 1 result mother.new }
{
    let word = mother.next()?;
    Ok(F::step(memory, word))
}

// The memory before the last word, from the state alone.
pub fn step_back<M: TwoWay, F: TwoWayFilter + Filter<Word = M::Word>>(
    mother: &mut M,
    memory: F::Memory,
) -> Result<F::Memory, Refusal>
    ensures { GoesBack (means M.Mother) F.Filter F.held mother.old memory 1 result mother.new }
{
    let word = mother.back()?;
    Ok(F::undo(memory, word))
}

// The memory after so many words more.
pub fn on<M: Mother, F: Filter<Word = M::Word>>(
    mother: &mut M,
    memory: F::Memory,
    words: u64,
) -> Result<F::Memory, Refusal>
    ensures { GoesOn (means M.Mother) F.Filter mother.old memory words result mother.new }
{
    let _ = past(mother.place(), words)?;
    let mut y = memory;
    for _i in 0..words {
        y = step_on::<M, F>(mother, y)?;
    }
    Ok(y)
}

// The memory so many words before, each of them undone.
pub fn back<M: TwoWay, F: TwoWayFilter + Filter<Word = M::Word>>(
    mother: &mut M,
    memory: F::Memory,
    words: u64,
) -> Result<F::Memory, Refusal>
    ensures { GoesBack (means M.Mother) F.Filter F.held mother.old memory words result mother.new }
{
    let _ = before(mother.place(), words)?;
    let mut y = memory;
    for _i in 0..words {
        y = step_back::<M, F>(mother, y)?;
    }
    Ok(y)
}
