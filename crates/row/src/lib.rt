#![tactic(auto)]

ghost use Rattle.std.specs.Prelude.{◌≡◌, ℕ, ◌+◌, ◌%◌, ◌<◌, ◌≤◌, length};
ghost use Rattle.row.specs.Bytes.{row_bytes, bytes_row, read_at, RowFromBytes, BytesFromRow};
ghost use Rattle.row.specs.Rows.{◌+₃₂◌, ◌-₃₂◌, ◌⊗₃₂◌, ◌⊘₃₂◌, Lanes, lane_in, odd as odd_row, ps1, ps2, ps3};
ghost use Rattle.row.specs.Vectors.{lanes, lanes_row};
ghost use Rattle.row.specs.Undone.{Undoes, unps1, unps3, undo2, undo_by};

use std::simd::prelude::*;

pub mod lane;
pub mod lanewise;
pub mod recursion;
pub mod ring;

// Four lanes of 32 bits, in the order of memory, so that a row loads as a vector. A row is written
// from lane [3] to lane [0].
#[derive(Clone, Copy, Default, PartialEq, Eq, Debug)]
pub struct Row {
    pub l0: u32,
    pub l1: u32,
    pub l2: u32,
    pub l3: u32,
}

// The lanes from [0] up: the operations of the cipher work on all four at once.
impl From<Row> for u32x4 {
    ghost from_gives = { λ x v. v ≡ lanes x };

    fn from(x: Row) -> u32x4 {
        u32x4::from_array([x.l0, x.l1, x.l2, x.l3])
    }
}

impl From<u32x4> for Row {
    ghost from_gives = { λ v x. x ≡ lanes_row v };

    fn from(v: u32x4) -> Row {
        let [l0, l1, l2, l3] = v.to_array();
        Row { l0, l1, l2, l3 }
    }
}

impl Row {
    // Lane by lane, modulo 2^32.
    pub fn wrapping_add(self, y: Row) -> Row
        ensures { result ≡ self +₃₂ y }
    {
        Row::from(u32x4::from(self) + u32x4::from(y))
    }

    pub fn wrapping_sub(self, y: Row) -> Row
        ensures { result ≡ self -₃₂ y }
    {
        Row::from(u32x4::from(self) - u32x4::from(y))
    }

    // The odd product of each two lanes.
    pub fn odd_product(self, y: Row) -> Row
        ensures { result ≡ self ⊗₃₂ y }
    {
        lanewise::odd_product(self, y)
    }

    // Lane [c], counted from 0 again after [3].
    pub fn lane(self, c: u64) -> u32
        ensures { result ≡ lane_in self (c % 4) }
    {
        match c % 4 {
            0 => self.l0,
            1 => self.l1,
            2 => self.l2,
            _ => self.l3,
        }
    }

    // The row whose odd product with `x` is this one.
    pub fn odd_quotient(self, x: Row) -> Row
        ensures is { result ≡ self ⊘₃₂ x }
        ensures solves { result ⊗₃₂ x ≡ self }
        ensures undoes { Undoes Lanes (λ y. y ⊗₃₂ x) self result }
    {
        lanewise::odd_quotient(self, x)
    }

    // The lowest bit of each lane set.
    pub fn with_low_bits(self) -> Row
        ensures { result ≡ odd_row self }
    {
        Row::from(u32x4::from(self) | u32x4::splat(1))
    }

    // The perm-shifts differ in the permutation, the distance and the side that is shifted: one function
    // over these would hide three equations of a line each.
    #[tactic(auto, unfolding(crate::specs::Rows::ps1))]
    pub fn perm_shift1(self) -> Row
        ensures { result ≡ ps1 self }
    {
        let x = u32x4::from(self);
        Row::from(x.swizzle([3, 0, 1, 2]) ^ (x >> u32x4::splat(13)))
    }

    #[tactic(auto, unfolding(crate::specs::Rows::ps2))]
    pub fn perm_shift2(self) -> Row
        ensures { result ≡ ps2 self }
    {
        let x = u32x4::from(self);
        Row::from(x.swizzle([3, 2, 0, 1]) ^ (x >> u32x4::splat(11)))
    }

    #[tactic(auto, unfolding(crate::specs::Rows::ps3))]
    pub fn perm_shift3(self) -> Row
        ensures { result ≡ ps3 self }
    {
        let x = u32x4::from(self);
        Row::from(x ^ (x.swizzle([1, 2, 3, 0]) >> u32x4::splat(1)))
    }

    // The row that `perm_shift1` takes to this one.
    pub fn undo_perm_shift1(self) -> Row
        ensures is { result ≡ unps1 self }
        ensures solves { ps1 result ≡ self }
        ensures undoes { Undoes Lanes ps1 self result }
    {
        let x = u32x4::from(self);
        let by13 = x.swizzle([2, 3, 0, 1]) >> u32x4::splat(13);
        let by26 = x.swizzle([3, 0, 1, 2]) >> u32x4::splat(26);
        Row::from(x.swizzle([1, 2, 3, 0]) ^ (by13 ^ by26))
    }

    // The row that `perm_shift3` takes to this one.
    pub fn undo_perm_shift3(self) -> Row
        ensures is { result ≡ unps3 self }
        ensures solves { ps3 result ≡ self }
        ensures undoes { Undoes Lanes ps3 self result }
    {
        self.perm_shift3()
            .undo_two()
            .undo_by(4)
            .undo_by(8)
            .undo_by(16)
    }

    // x ^ x[1][0][3][2] >>32 2. As with the perm-shifts, one function for this and `perm_shift3` would hide two
    // equations.
    #[tactic(auto, unfolding(crate::specs::Undone::undo2))]
    fn undo_two(self) -> Row
        ensures { result ≡ undo2 self }
    {
        let x = u32x4::from(self);
        Row::from(x ^ (x.swizzle([2, 3, 0, 1]) >> u32x4::splat(2)))
    }

    // x ^ x >>32 s
    #[tactic(auto, unfolding(crate::specs::Undone::undo_by))]
    fn undo_by(self, s: u32) -> Row
        requires { s < 32 }
        ensures { result ≡ undo_by s self }
    {
        let x = u32x4::from(self);
        Row::from(x ^ (x >> u32x4::splat(s)))
    }
}

impl Row {
    // The row's 16 bytes: lane [0] first, and the low byte of a lane first.
    pub fn to_bytes(self) -> [u8; 16]
        ensures is { result ≡ row_bytes self }
        ensures undone { bytes_row result ≡ self }
    {
        u32x4::from(self).to_le_bytes().to_array()
    }

    pub fn from_bytes(b: [u8; 16]) -> Row
        ensures { result ≡ bytes_row b }
    {
        Row::from(u32x4::from_le_bytes(u8x16::from_array(b)))
    }

    // The row at the 16 bytes from `at` on, if there are as many.
    pub fn read(bytes: &[u8], at: usize) -> Option<Row>
        ensures { result ≡ read_at bytes.now at }
    {
        let chunk = bytes.get(at..)?.first_chunk::<16>()?;
        Some(Row::from_bytes(*chunk))
    }
}

// A row and its bytes say the same, both ways.
pub fn bytes_stand()
    ensures { (RowFromBytes) × (BytesFromRow) }
{}
