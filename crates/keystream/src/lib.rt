#![tactic(auto)]

ghost use Rattle.std.specs.Prelude.{◌≡◌, ℕ, ◌≤◌, List, length, take};

pub mod narrow;
pub mod two_way;
pub mod wide;

// A filter: a memory that takes in the words of a generator, and whose states give the bytes of the
// keystream, a block from each two of them.
pub trait Filter {
    type Word: Copy;

    type Memory: Copy;

    // the first memory, from the start word, and the memory after one word more
    ghost first: { Self.Word → Self.Memory };

    ghost step: { Self.Memory → Self.Word → Self.Memory };

    // how many bytes a block has, and the bytes that two memories give
    ghost SIZE: { ℕ };

    const SIZE: usize;

    ghost bytes: { Self.Memory → Self.Memory → List ℕ };

    fn first(start: Self::Word) -> Self::Memory
        ensures { result ≡ first start };

    fn step(y: Self::Memory, x: Self::Word) -> Self::Memory
        ensures { result ≡ step y x };

    // The block of two memories, one after the other, in the first bytes of the answer: an array of `SIZE` bytes would
    // need a computed length, and a type of the filter's own a trait for its bytes.
    fn block(y: Self::Memory, z: Self::Memory) -> [u8; 16]
        ensures { take SIZE result ≡ bytes y z };

    ghost some: { 1 ≤ SIZE };

    ghost few: { SIZE ≤ 16 };

    ghost whole: { (y z : Self.Memory) → length (bytes y z) ≡ SIZE };
}
