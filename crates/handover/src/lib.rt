#![tactic(auto)]

ghost use Rattle.std.specs.Prelude.{ℕ};
ghost use Rattle.mother.specs.Means.{means};
ghost use Rattle.handover.specs.Recursion.{later, over, FirstRow, FirstRows, LaterRows, WordsEarly, WordsLate};
ghost use Rattle.handover.specs.Rings.{StepThereAndBack, StepBackAndThere};
ghost use Rattle.handover.specs.Calls.{Joined, Fresh};

use mother::Mother;
use mother::place::Place;
use mother::two_way::TwoWay;
use refusal::Refusal;
use ring::{ROWS, Ring};
use row::Row;

mod ring;

// How many words of the list are those of the generator below.
const PASSED_ON: u64 = ROWS as u64;

// The hand-over: the first words are those of the generator below, which are recorded, and the
// rest are made by the recursion from these. It goes back if the one below does.
#[derive(Drop)]
pub struct Handover<M: Mother<Word = Row>> {
    below: M,
    ring: Ring,
    at: Place,
}

impl<M: Mother<Word = Row>> Handover<M> {
    // Over a generator at place 0, or over any other before a set-up.
    pub fn new(below: M) -> Self
        ensures { Fresh (means M.Mother) below result.below result.ring result.at }
    {
        Handover {
            below,
            ring: Ring::new(),
            at: Place::front(),
        }
    }
}

impl<M: Mother<Word = Row>> Mother for Handover<M> {
    type Word = Row;

    ghost start = { λ s. M.Mother.start s.below };

    ghost word = { λ s. later (M.Mother.word s.below) };

    ghost place = { λ s. s.at };

    ghost given = { λ s key iv. over (M.Mother.given s.below key iv) };

    ghost sound = { λ s. Joined (means M.Mother) s.below s.ring s.at };

    fn set_up(&mut self, key: &[u8], iv: &[u8]) -> Result<Row, Refusal> {
        let start = self.below.set_up(key, iv)?;
        self.at = Place::front();
        Ok(start)
    }

    fn next(&mut self) -> Result<Row, Refusal> {
        let n = self.at.index();
        let after = self.at.after()?;
        let word = if n < PASSED_ON {
            let word = self.below.next()?;
            self.ring.record(n as usize, word);
            word
        } else {
            self.ring.forward()
        };
        self.at = after;
        Ok(word)
    }

    // The words of the generator below come one by one, those of the recursion all at once. (A method that is written
    // anew can't call the trait's own body, and what both could call would be a function for a loop of one line.)
    fn fill(&mut self, words: &mut [Row]) -> Result<(), Refusal> {
        let past = self.at.past(words.len() as u64)?;
        if self.at.index() < PASSED_ON {
            for word in words.iter_mut() {
                *word = self.next()?;
            }
        } else {
            self.ring.forward_into(words);
            self.at = past;
        }
        Ok(())
    }

    fn words_are_small() {}

    fn place(&self) -> u64 {
        self.at.index()
    }
}

impl<M: TwoWay + Mother<Word = Row>> TwoWay for Handover<M> {
    fn back(&mut self) -> Result<Row, Refusal> {
        let before = self.at.before()?;
        let n = before.index();
        let word = if n < PASSED_ON {
            let word = self.below.back()?;
            self.ring.forget(n as usize);
            word
        } else {
            self.ring.backward()
        };
        self.at = before;
        Ok(word)
    }
}

// The equations of the recursion and of the words, and that a step back undoes a step on and the
// other way round.
pub fn recursion_stands()
    ensures first_row { FirstRow }
    ensures first_rows { FirstRows }
    ensures later_rows { LaterRows }
    ensures words_early { WordsEarly }
    ensures words_late { WordsLate }
    ensures undone { StepThereAndBack }
    ensures redone { StepBackAndThere }
{}
