ghost use Rattle.std.specs.Prelude.{◌^◌, ◌≤◌};

use crate::rest::Rest;

// The memory that a cover keeps. A word is asked for when a block needs it, and not before.
#[derive(Drop)]
pub enum Kept<Y> {
    // the first of all, with which the first block begins
    First(Y),
    // the last of the block made last; the next block begins one word after it
    Last(Y),
}

// What a cover keeps between two calls, besides its generator: the position of the next byte, the
// bytes of the block made last that are not used yet, and a memory.
#[derive(Drop)]
pub struct Stage<Y> {
    pub position: u64,
    pub rest: Rest,
    pub memory: Kept<Y>,
    ghost low: { position ≤ 2 ^ 32 },
}
