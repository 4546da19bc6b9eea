ghost use Rattle.keystream.specs.Undoing.{TakenBack};

use crate::Filter;

// A filter whose steps can also be undone.
pub trait TwoWayFilter: Filter {
    // a memory as the program can hold it, with each of its numbers below its limit
    ghost held: { Self.Memory → Type 0 };

    // Says that a first memory is held. It does nothing.
    fn first_is_held(start: Self::Word)
        ensures { held (Self.first start) };

    // The memory before the word `x`, from the memory `z` after it.
    fn undo(z: Self::Memory, x: Self::Word) -> Self::Memory
        ensures { TakenBack held Self.step z x result };

    ghost stays: { (y : Self.Memory) (x : Self.Word) → held (Self.step y x) };
}
