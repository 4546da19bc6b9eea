ghost use Rattle.mother.specs.Generators.{Back};
ghost use Rattle.mother.specs.Means.{means};

use crate::Mother;
use refusal::Refusal;

// A generator that can also go back.
pub trait TwoWay: Mother {
    // The word before the place, which goes back by one: the last move undone.
    fn back(&mut self) -> Result<Self::Word, Refusal>
        ensures { Back (means Self.Mother) self.old result self.new };
}
