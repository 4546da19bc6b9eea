ghost use Rattle.std.specs.Prelude.{◌≡◌};
ghost use Rattle.std.proofs.Math.Path.{refl};
ghost use Rattle.row.specs.Rows.{Lanes, ps3};
ghost use Rattle.keystream.specs.Wides.{stepped, output, output_bytes};
ghost use Rattle.row.specs.Lanes.{◌⊗◌};
ghost use Rattle.row.proofs.RowFits.{lanes_both, oprod_lt};
ghost use Rattle.row.specs.Bytes.{row_bytes};
ghost use Rattle.std.proofs.Common.{rules};

use crate::Filter;
use crate::two_way::TwoWayFilter;
use row::Row;
use std::simd::prelude::*;

// The filter over rows, with blocks of 16 bytes.
#[derive(Drop)]
pub struct Wide;

const BLOCK: usize = 16;

// Half of the bits of a lane.
const HALF: u32 = 16;

const LOWER16: u32 = 0x0000_ffff;

const UPPER16: u32 = 0xffff_0000;

// The output row: the halves of each lane of `y` joined below, and those of `z` above.
#[tactic(auto, unfolding(crate::specs::Wides::output))]
fn output_row(y: Row, z: Row) -> Row
    ensures { result ≡ output y z }
{
    let a = u32x4::from(y);
    let b = u32x4::from(z);
    let lower = (a ^ (a >> u32x4::splat(HALF))) & u32x4::splat(LOWER16);
    let upper = (b ^ (b << u32x4::splat(HALF))) & u32x4::splat(UPPER16);
    Row::from(lower | upper)
}

impl Filter for Wide {
    type Word = Row;

    type Memory = Row;

    ghost first = { λ start. start };

    ghost step = { stepped };

    ghost SIZE = { 16 };

    const SIZE: usize = BLOCK;

    ghost bytes = { output_bytes };

    ghost some = { Prim.search rules };

    ghost few = { Prim.search rules };

    ghost whole = { unfold row_bytes in λ y z. refl };

    fn first(start: Row) -> Row {
        start
    }

    fn step(y: Row, x: Row) -> Row {
        y.perm_shift3().odd_product(x)
    }

    fn block(y: Row, z: Row) -> [u8; 16] {
        output_row(y, z).to_bytes()
    }
}

impl TwoWayFilter for Wide {
    ghost held = { Lanes };

    ghost stays = { λ y x. lanes_both ◌⊗◌ oprod_lt (ps3 y) x };

    fn first_is_held(_start: Row) {}

    fn undo(z: Row, x: Row) -> Row {
        z.odd_quotient(x).undo_perm_shift3()
    }
}
