#![tactic(auto)]

ghost use Rattle.std.specs.Prelude.{ℕ, ◌^◌, ◌≤◌};
ghost use Rattle.booter.specs.Registers.{StepThereAndBack, StepBackAndThere};
ghost use Rattle.booter.specs.Sequences.{words, SequencesStand};
ghost use Rattle.booter.specs.Calls.{Fresh, Sane, start_from, word_from};

use input::Rows;
use mother::Mother;
use mother::place::Place;
use mother::two_way::TwoWay;
use refusal::Refusal;
use register::Register;
use row::Row;

mod input;
mod register;

// The booter: a register of rows into which each step feeds a row back. It goes both ways. The
// words in force are those that undoing all steps since place 0 comes to, so no key and no IV is
// kept.
#[derive(Drop)]
pub struct Booter {
    register: Register,
    at: Place,
}

impl Booter {
    // At place 0 of words that no key and IV give.
    pub fn new() -> Booter
        ensures { Fresh result.register result.at }
    {
        Booter {
            register: Register::new(),
            at: Place::front(),
        }
    }
}

impl Mother for Booter {
    type Word = Row;

    ghost start = { λ s. start_from s.register s.at };

    ghost word = { λ s. word_from s.register s.at };

    ghost place = { λ s. s.at };

    ghost given = { λ _ key iv. words key iv };

    ghost sound = { λ s. Sane s.register };

    fn set_up(&mut self, key: &[u8], iv: &[u8]) -> Result<Row, Refusal> {
        let key = Rows::of(key).ok_or(Refusal::KeyLength)?;
        let iv = Rows::of(iv).ok_or(Refusal::IvLength)?;
        self.register = Register::load(&key, &iv);
        self.register.idle();
        self.at = Place::front();
        Ok(self.register.newest())
    }

    fn next(&mut self) -> Result<Row, Refusal> {
        let after = self.at.after()?;
        let (output, _) = self.register.step();
        self.at = after;
        Ok(output)
    }

    fn words_are_small() {}

    fn place(&self) -> u64 {
        self.at.index()
    }
}

impl TwoWay for Booter {
    fn back(&mut self) -> Result<Row, Refusal> {
        let before = self.at.before()?;
        let (output, _) = self.register.unstep();
        self.at = before;
        Ok(output)
    }
}

// The equations of the sequences of a key and an IV, and that a step back undoes a step on and the
// other way round.
pub fn sequences_stand()
    ensures equations { SequencesStand }
    ensures undone { StepThereAndBack }
    ensures redone { StepBackAndThere }
{}
