ghost use Rattle.cover.specs.Positions.{Passed};

use crate::LIMIT;
use refusal::Refusal;

// The position `count` bytes after another, if bytes are covered as far. `mother::place::past` says the same of words:
// each is one line of the library's methods with its own end and refusal, and one for both would be no shorter.
pub fn past(position: u64, count: usize) -> Result<u64, Refusal>
    ensures { Passed position count result }
{
    position
        .checked_add(count as u64)
        .filter(|end| *end <= LIMIT)
        .ok_or(Refusal::PositionLimit)
}
