#![tactic(auto)]

ghost use Rattle.cryptmt.specs.Wide.{WideStreams, WideIsCryptMT};
ghost use Rattle.cryptmt.specs.Narrow.{FilterStreams, NarrowStreams, OddStreams};
ghost use Rattle.cryptmt.specs.Narrow.{FilterIsDefined, NarrowIsDefined, OddIsDefined};

use booter::Booter;
use cover::{Cover, range};
use handover::Handover;
use keystream::narrow::{Narrow, NarrowFilter, NarrowOdd};
use keystream::wide::Wide;
use lanes::Lanes;
use refusal::Refusal;

// CryptMT Version 3: the hand-over over the booter, under the wide filter.
pub type WidePile = Handover<Booter>;

pub type WideCover = Cover<WidePile, Wide>;

// The same generators for the narrow filters, lane by lane.
pub type LanePile = Lanes<WidePile>;

pub type NarrowCover = Cover<LanePile, Narrow>;

pub type NarrowOddCover = Cover<LanePile, NarrowOdd>;

// Writes the wide keystream bytes of a key and an IV, from position `from` on, over `out`.
pub fn keystream(key: &[u8], iv: &[u8], from: u64, out: &mut [u8]) -> Result<(), Refusal>
    ensures bytes { WideStreams key.now iv.now from out.old
        result out.new }
    ensures cipher { WideIsCryptMT }
{
    range::keystream::<WidePile, Wide>(Handover::new(Booter::new()), key, iv, from, out)
}

// The same of a narrow keystream, by the product of its filter. It is not one function with `keystream`,
// whose theorem is another: that of the cipher's own equations.
pub fn filter_keystream<P: NarrowFilter>(
    key: &[u8],
    iv: &[u8],
    from: u64,
    out: &mut [u8],
) -> Result<(), Refusal>
    ensures bytes { FilterStreams P.NarrowFilter key.now iv.now from out.old
        result out.new }
    ensures cipher { FilterIsDefined P.NarrowFilter }
{
    let pile = Lanes::new(Handover::new(Booter::new()));
    range::keystream::<LanePile, P>(pile, key, iv, from, out)
}

// The same of the narrow keystream.
pub fn narrow_keystream(key: &[u8], iv: &[u8], from: u64, out: &mut [u8]) -> Result<(), Refusal>
    ensures bytes { NarrowStreams key.now iv.now from out.old
        result out.new }
    ensures cipher { NarrowIsDefined }
{
    filter_keystream::<Narrow>(key, iv, from, out)
}

// The same of the narrow keystream with the odd product.
pub fn odd_keystream(key: &[u8], iv: &[u8], from: u64, out: &mut [u8]) -> Result<(), Refusal>
    ensures bytes { OddStreams key.now iv.now from out.old
        result out.new }
    ensures cipher { OddIsDefined }
{
    filter_keystream::<NarrowOdd>(key, iv, from, out)
}

#[cfg(test)]
mod tests;
