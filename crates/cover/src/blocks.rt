ghost use Rattle.std.specs.Prelude.{◌≡◌, ◌+◌, ◌*◌, ◌/◌, ◌^◌, ◌<◌, ◌≤◌, length};
ghost use Rattle.mother.specs.Means.{means};
ghost use Rattle.cover.specs.Blocks.{IsWhole, GroupCovered, PartCovered, MadeLast, Made, BlocksCovered};
ghost use Rattle.cover.specs.Blocks.{Ends, FirstCovered, StartCovered, EndsKept, Followed};

use crate::rest::{Rest, xor};
use crate::stage::{Kept, Stage};
use keystream::Filter;
use mother::Mother;
use refusal::Refusal;

// How many blocks a group has, each of two words.
const GROUP: usize = 4;

const GROUP_WORDS: usize = 2 * GROUP;

// Here a generator and a memory stand side by side throughout: the one is the cover's, the other its stage's. That a part
// of a buffer is whole blocks, or not empty, is handed down from one function to the next: a type for such a part would
// be made at each cut and taken apart behind it.

// A block from its first memory, in the first bytes of an array, and the last memory of it.
fn block_from<M: Mother, F: Filter<Word = M::Word>>(
    mother: &mut M,
    memory: F::Memory,
) -> Result<([u8; 16], F::Memory), Refusal>
    ensures { MadeLast (means M.Mother) F.Filter mother.old memory result mother.new }
{
    let second = follow::step_on::<M, F>(mother, memory)?;
    Ok((F::block(memory, second), second))
}

// The next block, and the memory goes on from the last of the block before to the last of this one.
fn next_block<M: Mother, F: Filter<Word = M::Word>>(
    mother: &mut M,
    memory: &mut F::Memory,
) -> Result<[u8; 16], Refusal>
    ensures { Made (means M.Mother) F.Filter mother.old memory.old result mother.new memory.new }
{
    let first = follow::step_on::<M, F>(mother, *memory)?;
    let (block, last) = block_from::<M, F>(mother, first)?;
    *memory = last;
    Ok(block)
}

// Covers one whole block.
fn cover_block<M: Mother, F: Filter<Word = M::Word>>(
    mother: &mut M,
    memory: &mut F::Memory,
    bytes: &mut [u8],
) -> Result<(), Refusal>
    requires { length bytes.old ≡ F.Filter.SIZE }
    ensures { BlocksCovered (means M.Mother) F.Filter 1 mother.old memory.old bytes.old
        result mother.new memory.new bytes.new }
{
    let block = next_block::<M, F>(mother, memory)?;
    xor(bytes, &block);
    Ok(())
}

// Covers a group of whole blocks with the words that come after the memory, and answers the memory
// after them. A group is short, so that the next words are made while this memory is waited for. Here and below a part
// of the buffer is taken by index (of `chunks_mut` and of `zip` over `iter_mut` a loop knows only how many there are), and
// words are lent as a slice (an array of a type parameter's words comes back from `fill` with its length unknown).
fn cover_group<F: Filter>(memory: F::Memory, words: &[F::Word], bytes: &mut [u8]) -> F::Memory
    requires { (length words.now ≡ 8) × (length bytes.old ≡ 4 * F.Filter.SIZE) }
    ensures { GroupCovered F.Filter memory words.now bytes.old result bytes.new }
{
    let size = F::SIZE;
    let (pairs, _) = words.as_chunks::<2>();
    let mut last = memory;
    for (i, [w, x]) in pairs.iter().enumerate() {
        let first = F::step(last, *w);
        let second = F::step(first, *x);
        let block = F::block(first, second);
        xor(&mut bytes[i * size..(i + 1) * size], &block);
        last = second;
    }
    last
}

// Covers groups of blocks; `words` is room for the words of a group.
fn cover_groups<M: Mother, F: Filter<Word = M::Word>>(
    mother: &mut M,
    memory: &mut F::Memory,
    words: &mut [M::Word],
    bytes: &mut [u8],
) -> Result<(), Refusal>
    requires { (length words.old ≡ 8) × IsWhole (4 * F.Filter.SIZE) bytes.old }
    ensures { BlocksCovered (means M.Mother) F.Filter (4 * (length bytes.old / (4 * F.Filter.SIZE)))
        mother.old memory.old bytes.old result mother.new memory.new bytes.new }
{
    let size = GROUP * F::SIZE;
    for i in 0..bytes.len() / size {
        mother.fill(words)?;
        *memory = cover_group::<F>(*memory, words, &mut bytes[i * size..(i + 1) * size]);
    }
    Ok(())
}

// Covers whole blocks, one by one.
fn cover_singly<M: Mother, F: Filter<Word = M::Word>>(
    mother: &mut M,
    memory: &mut F::Memory,
    bytes: &mut [u8],
) -> Result<(), Refusal>
    requires { IsWhole F.Filter.SIZE bytes.old }
    ensures { BlocksCovered (means M.Mother) F.Filter (length bytes.old / F.Filter.SIZE)
        mother.old memory.old bytes.old result mother.new memory.new bytes.new }
{
    let size = F::SIZE;
    for i in 0..bytes.len() / size {
        cover_block::<M, F>(mother, memory, &mut bytes[i * size..(i + 1) * size])?;
    }
    Ok(())
}

// Covers some bytes, up to a block, and answers what is left of the block.
fn cover_part<F: Filter>(block: [u8; 16], bytes: &mut [u8]) -> Rest
    requires { length bytes.old ≤ F.Filter.SIZE }
    ensures { PartCovered F.Filter block bytes.old result bytes.new }
{
    xor(bytes, &block);
    Rest::new(block, bytes.len(), F::SIZE)
}

// Covers the last bytes, up to a block, and answers what is left of the block made for them.
fn cover_last<M: Mother, F: Filter<Word = M::Word>>(
    mother: &mut M,
    memory: &mut F::Memory,
    bytes: &mut [u8],
) -> Result<Rest, Refusal>
    requires { (0 < length bytes.old) × (length bytes.old ≤ F.Filter.SIZE) }
    ensures { Ends (means M.Mother) F.Filter mother.old memory.old bytes.old
        result mother.new memory.new bytes.new }
{
    let block = next_block::<M, F>(mother, memory)?;
    Ok(cover_part::<F>(block, bytes))
}

// Covers whole blocks, in groups as far as these go; a function of its own, since the room for a
// group's words is lent.
fn cover_whole<M: Mother, F: Filter<Word = M::Word>>(
    mother: &mut M,
    memory: &mut F::Memory,
    bytes: &mut [u8],
) -> Result<(), Refusal>
    requires { IsWhole F.Filter.SIZE bytes.old }
    ensures { BlocksCovered (means M.Mother) F.Filter (length bytes.old / F.Filter.SIZE)
        mother.old memory.old bytes.old result mother.new memory.new bytes.new }
{
    M::words_are_small();
    let mut words = [M::Word::default(); GROUP_WORDS];
    let size = GROUP * F::SIZE;
    let (groups, others) = bytes.split_at_mut(bytes.len() / size * size);
    cover_groups::<M, F>(mother, memory, &mut words, groups)?;
    cover_singly::<M, F>(mother, memory, others)
}

// Covers some bytes from the first byte of a block on, and answers what is left of the last block. The memory
// goes on to the last of that block.
fn cover_from<M: Mother, F: Filter<Word = M::Word>>(
    mother: &mut M,
    memory: &mut F::Memory,
    bytes: &mut [u8],
) -> Result<Rest, Refusal>
    ensures { Ends (means M.Mother) F.Filter mother.old memory.old bytes.old
        result mother.new memory.new bytes.new }
{
    let size = F::SIZE;
    let (blocks, last) = bytes.split_at_mut(bytes.len() / size * size);
    cover_whole::<M, F>(mother, memory, blocks)?;
    if last.is_empty() {
        return Ok(Rest::none());
    }
    cover_last::<M, F>(mother, memory, last)
}

// Covers the first bytes of all, up to a block, from the first memory of all, and answers what is left of that block
// and its last memory.
fn cover_first<M: Mother, F: Filter<Word = M::Word>>(
    mother: &mut M,
    memory: F::Memory,
    bytes: &mut [u8],
) -> Result<(Rest, F::Memory), Refusal>
    requires { length bytes.old ≤ F.Filter.SIZE }
    ensures { FirstCovered (means M.Mother) F.Filter mother.old memory bytes.old result mother.new bytes.new }
{
    let (block, last) = block_from::<M, F>(mother, memory)?;
    Ok((cover_part::<F>(block, bytes), last))
}

// Covers some bytes from the first of all on, as `cover_first` and, beyond a block, `cover_from` do.
fn cover_start<M: Mother, F: Filter<Word = M::Word>>(
    mother: &mut M,
    memory: F::Memory,
    bytes: &mut [u8],
) -> Result<(Rest, F::Memory), Refusal>
    requires { 0 < length bytes.old }
    ensures { StartCovered (means M.Mother) F.Filter mother.old memory bytes.old result mother.new bytes.new }
{
    let (head, tail) = bytes.split_at_mut(F::SIZE.min(bytes.len()));
    let (rest, mut last) = cover_first::<M, F>(mother, memory, head)?;
    if tail.is_empty() {
        return Ok((rest, last));
    }
    let rest = cover_from::<M, F>(mother, &mut last, tail)?;
    Ok((rest, last))
}

// Covers some bytes from the memory that is kept on, and keeps the last.
pub fn cover_blocks<M: Mother, F: Filter<Word = M::Word>>(
    mother: &mut M,
    kept: &mut Kept<F::Memory>,
    bytes: &mut [u8],
) -> Result<Rest, Refusal>
    requires { 0 < length bytes.old }
    ensures { EndsKept (means M.Mother) F.Filter mother.old kept.old bytes.old
        result mother.new kept.new bytes.new }
{
    match kept {
        Kept::First(memory) => {
            let (rest, last) = cover_start::<M, F>(mother, *memory, bytes)?;
            *kept = Kept::Last(last);
            Ok(rest)
        }
        Kept::Last(memory) => {
            let mut last = *memory;
            let rest = cover_from::<M, F>(mother, &mut last, bytes)?;
            *kept = Kept::Last(last);
            Ok(rest)
        }
    }
}

// Covers all of `bytes`: with the rest of the block made last, and then with new blocks.
pub fn cover_all<M: Mother, F: Filter<Word = M::Word>>(
    mother: &mut M,
    stage: &mut Stage<F::Memory>,
    bytes: &mut [u8],
) -> Result<(), Refusal>
    requires { stage.old.position + length bytes.old ≤ 2 ^ 32 }
    ensures { Followed (means M.Mother) F.Filter mother.old stage.old bytes.old
        result mother.new stage.new bytes.new }
{
    let used = stage.rest.cover(bytes);
    stage.position += bytes.len() as u64;
    if used == bytes.len() {
        return Ok(());
    }
    let (_, tail) = bytes.split_at_mut(used);
    stage.rest = cover_blocks::<M, F>(mother, &mut stage.memory, tail)?;
    Ok(())
}
