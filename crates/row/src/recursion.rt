ghost use Rattle.std.specs.Prelude.{◌≡◌};
ghost use Rattle.row.specs.Rows.{Lanes, mix_row, step_row};
ghost use Rattle.row.specs.Undone.{Undoes, unstep_row};

use crate::Row;
use std::simd::prelude::*;

// (prev & mask) ^ (m >>64 3) ^ m[2][0][3][1]
fn mix(mask: Row, prev: Row, m: Row) -> Row
    ensures { result ≡ mix_row mask prev m }
{
    let v = u32x4::from(m);
    let masked = u32x4::from(prev) & u32x4::from(mask);
    let from_above = v.shuffle(u32x4::splat(0), [1, 4, 3, 4]) << u32x4::splat(29);
    let shifted = (v >> u32x4::splat(3)) | from_above;
    Row::from((masked ^ shifted) ^ v.swizzle([1, 3, 0, 2]))
}

// A row of the recursion from the rows 1, 48 and 156 before it, which are named as its equation names them.
#[tactic(auto, unfolding(crate::specs::Rows::step_row))]
pub fn step(mask: Row, prev: Row, m: Row, oldest: Row) -> Row
    ensures { result ≡ step_row mask prev m oldest }
{
    let x = u32x4::from(oldest);
    Row::from(u32x4::from(mix(mask, prev, m)) ^ x.swizzle([1, 2, 3, 0]))
}

// The row 156 before `new`, from the rows 1 and 48 before `new`.
pub fn unstep(mask: Row, new: Row, prev: Row, m: Row) -> Row
    ensures is { result ≡ unstep_row mask new prev m }
    ensures solves { step_row mask prev m result ≡ new }
    ensures undoes { Undoes Lanes (step_row mask prev m) new result }
{
    let x = u32x4::from(mix(mask, prev, m)) ^ u32x4::from(new);
    Row::from(x.swizzle([3, 0, 1, 2]))
}
