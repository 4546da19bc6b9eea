#![tactic(auto)]

ghost use Rattle.std.specs.Prelude.{◌≡◌};
ghost use Rattle.mother.specs.Means.{means};
ghost use Rattle.wide_bench.specs.Pieces.{InPieces, CoversWide, number_of};

use booter::Booter;
use cover::Cover;
use cover::position::past;
use handover::Handover;
use keystream::Filter;
use keystream::wide::Wide;
use mother::Mother;
use refusal::Refusal;

pub mod walk;

// Covers `bytes` in pieces of `piece` bytes, one call of the cover for each; by index, since of `chunks_mut` a loop
// knows only how many there are.
fn in_pieces<M: Mother, F: Filter<Word = M::Word>>(
    cover: &mut Cover<M, F>,
    bytes: &mut [u8],
    piece: usize,
) -> Result<(), Refusal>
    ensures { InPieces (means M.Mother) F.Filter cover.old bytes.old
        result cover.new bytes.new }
{
    let size = piece.max(1);
    for i in 0..bytes.len().div_ceil(size) {
        let at = i * size;
        let end = at + size.min(bytes.len() - at);
        let _ = cover.cover(&mut bytes[at..end])?;
    }
    Ok(())
}

// Sets up the wide cover and covers `bytes` in pieces.
fn cover_pieces(key: &[u8], iv: &[u8], bytes: &mut [u8], piece: usize) -> Result<(), Refusal>
    ensures { CoversWide key.now iv.now bytes.old (number_of result) bytes.new }
{
    let mut cover = Cover::<Handover<Booter>, Wide>::new(Handover::new(Booter::new()));
    cover.set_up(key, iv)?;
    let _ = past(0, bytes.len())?;
    in_pieces(&mut cover, bytes, piece)
}

// 0, or the number of a refusal: C has no `Result`.
fn number_of(done: Result<(), Refusal>) -> u8
    ensures { result ≡ number_of done }
{
    done.map_or_else(Refusal::number, |()| 0)
}

// The same for C.
#[unsafe(no_mangle)]
pub extern "C" fn wide_cover_pieces(key: &[u8], iv: &[u8], bytes: &mut [u8], piece: usize) -> u8
    ensures { CoversWide key.now iv.now bytes.old result bytes.new }
{
    number_of(cover_pieces(key, iv, bytes, piece))
}
