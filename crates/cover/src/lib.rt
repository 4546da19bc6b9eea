#![tactic(auto)]

ghost use Rattle.mother.specs.Means.{means};
ghost use Rattle.cover.specs.Covers.{Empty, Over, SetsUp, Covers};

use blocks::cover_all;
use keystream::Filter;
use mother::Mother;
use position::past;
use refusal::Refusal;
use rest::Rest;
use stage::{Kept, Stage};

mod blocks;
pub mod position;
pub mod range;
mod rest;
mod stage;

// No byte is covered at this position or beyond.
pub const LIMIT: u64 = 4_294_967_296;

// Covers buffers one after another: each byte is XORed with the keystream byte of its position.
// The same again, with the same key and IV, uncovers them.
#[derive(Drop)]
pub struct Cover<M: Mother, F: Filter<Word = M::Word>> {
    mother: M,
    stage: Option<Stage<F::Memory>>,
}

impl<M: Mother, F: Filter<Word = M::Word>> Cover<M, F> {
    // Over a generator, with no set-up yet.
    pub fn new(mother: M) -> Self
        ensures empty { Empty (means M.Mother) F.Filter result }
        ensures mother { Over (means M.Mother) F.Filter result mother }
    {
        Cover {
            mother,
            stage: None,
        }
    }

    // Starts at position 0 of the keystream of a key and an IV.
    pub fn set_up(&mut self, key: &[u8], iv: &[u8]) -> Result<(), Refusal>
        ensures { SetsUp (means M.Mother) F.Filter self.old key.now iv.now
            result self.new }
    {
        let start = self.mother.set_up(key, iv)?;
        self.stage = Some(Stage {
            position: 0,
            rest: Rest::none(),
            memory: Kept::First(F::first(start)),
        });
        Ok(())
    }

    // Covers the next bytes, and answers the position of the first.
    pub fn cover(&mut self, bytes: &mut [u8]) -> Result<u64, Refusal>
        ensures { Covers (means M.Mother) F.Filter self.old bytes.old
            result self.new bytes.new }
    {
        let Some(stage) = &mut self.stage else {
            return Err(Refusal::NotBegun);
        };
        let first = stage.position;
        let _ = past(first, bytes.len())?;
        cover_all::<M, F>(&mut self.mother, stage, bytes)?;
        Ok(first)
    }
}
