ghost use Rattle.std.specs.Prelude.{◌≡◌, length};
ghost use Rattle.wide_bench.specs.Walks.{WalkedOn, WalkedThereAndBack, Written, Answers};

use crate::number_of;
use booter::Booter;
use cryptmt::WidePile;
use handover::Handover;
use keystream::wide::Wide;
use refusal::Refusal;
use row::Row;

const MEMORY_BYTES: usize = 16;

// What the walks answer where the buffer for the memory has another length. They are called from C, which has no
// `Result`: 0, this, or the number of a refusal.
const OTHER_LENGTH: u8 = 255;

// The memory after `words` words. (The next function begins by the same three lines, a new pile and two calls of `follow`:
// what a function for them would promise stands there.)
fn walked_on(key: &[u8], iv: &[u8], words: u64) -> Result<Row, Refusal>
    ensures { WalkedOn key.now iv.now words result }
{
    let mut pile = Handover::new(Booter::new());
    let first = follow::set_up::<WidePile, Wide>(&mut pile, key, iv)?;
    follow::on::<WidePile, Wide>(&mut pile, first, words)
}

// The first memory again, after `words` words on and as many back.
fn walked_there_and_back(key: &[u8], iv: &[u8], words: u64) -> Result<Row, Refusal>
    ensures { WalkedThereAndBack key.now iv.now words result }
{
    let mut pile = Handover::new(Booter::new());
    let first = follow::set_up::<WidePile, Wide>(&mut pile, key, iv)?;
    let far = follow::on::<WidePile, Wide>(&mut pile, first, words)?;
    follow::back::<WidePile, Wide>(&mut pile, far, words)
}

// Walks, and writes the memory come to over `memory`.
fn write<W: FnOnce() -> Result<Row, Refusal>>(walk: W, memory: &mut [u8]) -> Result<(), Refusal>
    requires { W.pre walk × (length memory.old ≡ 16) }
    ensures { Written (W.post walk) memory.old result memory.new }
{
    let row = walk()?;
    memory.copy_from_slice(&row.to_bytes());
    Ok(())
}

// The same for C, whatever the buffer.
fn tell<W: FnOnce() -> Result<Row, Refusal>>(walk: W, memory: &mut [u8]) -> u8
    requires { W.pre walk }
    ensures { Answers (W.post walk) memory.old result memory.new }
{
    if memory.len() != MEMORY_BYTES {
        return OTHER_LENGTH;
    }
    number_of(write(walk, memory))
}

// Sets up, takes in `words` words, and writes the memory then over `memory`.
#[unsafe(no_mangle)]
pub extern "C" fn wide_walk_on(key: &[u8], iv: &[u8], words: u64, memory: &mut [u8]) -> u8
    ensures { Answers (WalkedOn key.now iv.now words) memory.old
        result memory.new }
{
    tell(|| walked_on(key, iv, words), memory)
}

// The same, and takes all these words back again before it writes the memory.
#[unsafe(no_mangle)]
pub extern "C" fn wide_walk_there_and_back(
    key: &[u8],
    iv: &[u8],
    words: u64,
    memory: &mut [u8],
) -> u8
    ensures { Answers (WalkedThereAndBack key.now iv.now words) memory.old
        result memory.new }
{
    tell(|| walked_there_and_back(key, iv, words), memory)
}
