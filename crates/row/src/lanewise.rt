ghost use Rattle.std.specs.Prelude.{◌≡◌, ℕ, bit_xor};
ghost use Rattle.row.specs.Rows.{lane_in};
ghost use Rattle.row.specs.Lanes.{plus as sum, minus as difference, times as product};
ghost use Rattle.row.specs.Lanes.{◌⊗◌, ◌⊘◌, guess as guessed, nearer as closer, inverse};

use crate::Row;
use std::simd::prelude::*;

// Arithmetic modulo 2^32 on one lane, or on the four lanes of a row at once.
pub trait Lanewise: Copy {
    // lane [c]; past the last it stays the last
    ghost lane: { Self → ℕ → ℕ };

    // `n` in each lane
    fn splat(n: u32) -> Self
        ensures { (c : ℕ) → lane result c ≡ n };

    fn plus(self, y: Self) -> Self
        ensures { (c : ℕ) → lane result c ≡ sum (lane self c) (lane y c) };

    fn minus(self, y: Self) -> Self
        ensures { (c : ℕ) → lane result c ≡ difference (lane self c) (lane y c) };

    fn times(self, y: Self) -> Self
        ensures { (c : ℕ) → lane result c ≡ product (lane self c) (lane y c) };

    fn xor(self, y: Self) -> Self
        ensures { (c : ℕ) → lane result c ≡ bit_xor (lane self c) (lane y c) };
}

impl Lanewise for u32 {
    ghost lane = { λ x _. x };

    fn splat(n: u32) -> u32 {
        n
    }

    fn plus(self, y: u32) -> u32 {
        self.wrapping_add(y)
    }

    fn minus(self, y: u32) -> u32 {
        self.wrapping_sub(y)
    }

    fn times(self, y: u32) -> u32 {
        self.wrapping_mul(y)
    }

    fn xor(self, y: u32) -> u32 {
        self ^ y
    }
}

impl Lanewise for Row {
    ghost lane = { lane_in };

    fn splat(n: u32) -> Row {
        Row::from(u32x4::splat(n))
    }

    fn plus(self, y: Row) -> Row {
        self.wrapping_add(y)
    }

    fn minus(self, y: Row) -> Row {
        self.wrapping_sub(y)
    }

    fn times(self, y: Row) -> Row {
        Row::from(u32x4::from(self) * u32x4::from(y))
    }

    fn xor(self, y: Row) -> Row {
        Row::from(u32x4::from(self) ^ u32x4::from(y))
    }
}

// The odd product, 2xy + x + y, by one product with 2y + 1, which does not wait for x.
pub fn odd_product<L: Lanewise>(x: L, y: L) -> L
    ensures { (c : ℕ) → L.lane result c ≡ L.lane x c ⊗ L.lane y c }
{
    x.times(y.plus(y).plus(L::splat(1))).plus(y)
}

// The inverse of each odd lane in its low 4 bits.
fn guess<L: Lanewise>(a: L) -> L
    ensures { (c : ℕ) → L.lane result c ≡ guessed (L.lane a c) }
{
    L::splat(3).times(a).xor(L::splat(2))
}

// Newton's step from `i` towards the inverse of each lane.
fn nearer<L: Lanewise>(a: L, i: L) -> L
    ensures { (c : ℕ) → L.lane result c ≡ closer (L.lane a c) (L.lane i c) }
{
    i.times(L::splat(2).minus(a.times(i)))
}

// The inverse of each odd lane: each step doubles the low bits that are right.
pub fn odd_inverse<L: Lanewise>(a: L) -> L
    ensures { (c : ℕ) → L.lane result c ≡ inverse (L.lane a c) }
{
    let low4 = guess(a);
    let low8 = nearer(a, low4);
    let low16 = nearer(a, low8);
    nearer(a, low16)
}

// The value whose odd product with `x` is `z`, lane by lane.
pub fn odd_quotient<L: Lanewise>(z: L, x: L) -> L
    ensures { (c : ℕ) → L.lane result c ≡ L.lane z c ⊘ L.lane x c }
{
    let factor = L::splat(2).times(x).plus(L::splat(1));
    z.minus(x).times(odd_inverse(factor))
}
