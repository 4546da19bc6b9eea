ghost use Rattle.std.specs.Prelude.{◌≡◌, ℕ, ◌^◌, take};
ghost use Rattle.row.specs.Lanes.{Lane, ◌⊗◌, odd_factor};
ghost use Rattle.keystream.specs.Narrows.{multiplied, top_byte, top_bytes};
ghost use Rattle.keystream.specs.Undoing.{TakenBack};
ghost use Rattle.std.proofs.Common.{rules};
ghost use Rattle.row.proofs.RowFits.{oprod_lt};

use crate::Filter;
use crate::two_way::TwoWayFilter;
use row::lane;

// A narrow filter, over 32-bit words and with blocks of two bytes, by the product with which its
// memory takes in a word.
pub trait NarrowFilter {
    ghost product: { ℕ → ℕ → ℕ };

    fn product(y: u32, x: u32) -> u32
        ensures { result ≡ product y x };

    // The memory before the word `x`, from the memory `z` after it.
    fn quotient(z: u32, x: u32) -> u32
        ensures { TakenBack Lane product z x result };

    ghost fits: { (y x : ℕ) → Lane (product y x) };
}

// Multiplies by each word with its lowest bit set.
#[derive(Drop)]
pub struct Narrow;

// The same with the odd product.
#[derive(Drop)]
pub struct NarrowOdd;

const BLOCK: usize = 2;

// The bits of a memory below its top 8.
const LOWER: u32 = 24;

// The first memory: the start word with its lowest bit set.
fn first_memory(start: u32) -> u32
    ensures { result ≡ odd_factor start }
{
    start | 1
}

fn top_byte(y: u32) -> u8
    ensures { result ≡ top_byte y }
{
    (y >> LOWER) as u8
}

// The block of two memories, in the first two bytes.
fn top_bytes(y: u32, z: u32) -> [u8; 16]
    ensures { take 2 result ≡ top_bytes y z }
{
    let mut block = [0; 16];
    block[0] = top_byte(y);
    block[1] = top_byte(z);
    block
}

impl NarrowFilter for Narrow {
    ghost product = { multiplied };

    ghost fits = { Prim.search rules };

    fn product(y: u32, x: u32) -> u32 {
        lane::product(y, x)
    }

    fn quotient(z: u32, x: u32) -> u32 {
        lane::quotient(z, x)
    }
}

impl NarrowFilter for NarrowOdd {
    ghost product = { ◌⊗◌ };

    ghost fits = { λ y x. oprod_lt y x };

    fn product(y: u32, x: u32) -> u32 {
        lane::odd_product(y, x)
    }

    fn quotient(z: u32, x: u32) -> u32 {
        lane::odd_quotient(z, x)
    }
}

impl<P: NarrowFilter> Filter for P {
    type Word = u32;

    type Memory = u32;

    ghost first = { odd_factor };

    ghost step = { P.product };

    ghost SIZE = { 2 };

    const SIZE: usize = BLOCK;

    ghost bytes = { top_bytes };

    ghost some = { Prim.search rules };

    ghost few = { Prim.search rules };

    ghost whole = { Prim.search rules };

    fn first(start: u32) -> u32 {
        first_memory(start)
    }

    fn step(y: u32, x: u32) -> u32 {
        P::product(y, x)
    }

    fn block(y: u32, z: u32) -> [u8; 16] {
        top_bytes(y, z)
    }
}

impl<P: NarrowFilter> TwoWayFilter for P {
    ghost held = { Lane };

    ghost stays = { P.fits };

    fn first_is_held(start: u32) {
        let _y = first_memory(start);
    }

    fn undo(z: u32, x: u32) -> u32 {
        P::quotient(z, x)
    }
}
