ghost use Rattle.std.specs.Prelude.{◌≤◌};
ghost use Rattle.mother.specs.Means.{means};
ghost use Rattle.cover.specs.Covers.{Passes, Streams};

use crate::Cover;
use crate::position::past;
use keystream::Filter;
use mother::Mother;
use refusal::Refusal;

// How many bytes are passed over at a time.
const PIECE: u64 = 4096;

// Passes over `n` bytes of the keystream.
fn pass_piece<M: Mother, F: Filter<Word = M::Word>>(
    cover: &mut Cover<M, F>,
    n: usize,
) -> Result<(), Refusal>
    requires { n ≤ 4096 }
    ensures { Passes (means M.Mother) F.Filter cover.old n result cover.new }
{
    let mut scratch = [0; PIECE as usize];
    let _ = cover.cover(&mut scratch[..n])?;
    Ok(())
}

// Passes over `count` bytes of the keystream, piece by piece.
fn pass<M: Mother, F: Filter<Word = M::Word>>(
    cover: &mut Cover<M, F>,
    count: u64,
) -> Result<(), Refusal>
    ensures { Passes (means M.Mother) F.Filter cover.old count result cover.new }
{
    for _ in 0..count / PIECE {
        pass_piece(cover, PIECE as usize)?;
    }
    let rest = (count % PIECE) as usize;
    if rest > 0 {
        pass_piece(cover, rest)?;
    }
    Ok(())
}

// Writes the keystream bytes of a key and an IV, from position `from` on, over `out`.
pub fn keystream<M: Mother + Drop, F: Filter<Word = M::Word>>(
    mother: M,
    key: &[u8],
    iv: &[u8],
    from: u64,
    out: &mut [u8],
) -> Result<(), Refusal>
    ensures { Streams (means M.Mother) F.Filter mother key.now iv.now from
        out.old result out.new }
{
    let mut cover = Cover::<M, F>::new(mother);
    cover.set_up(key, iv)?;
    let _ = past(from, out.len())?;
    if out.is_empty() {
        return Ok(());
    }
    pass(&mut cover, from)?;
    out.fill(0);
    let _ = cover.cover(out)?;
    Ok(())
}
