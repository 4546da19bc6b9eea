ghost use Rattle.std.specs.Prelude.{◌≡◌, ◌/◌, ◌≤◌, length, MatchOption};
ghost use Rattle.mother.specs.Generators.{Lawful};
ghost use Rattle.booter.specs.Loading.{count, chunks};

use std::marker::Model;

const ROW_BYTES: usize = 16;

const MOST: usize = 16;

// A key or an IV by its rows: 1 to 16 of 16 bytes each. In a clause it is its bytes.
#[derive(Drop)]
pub(crate) struct Rows<'a> {
    bytes: &'a [u8],
}

impl<'a> Model for Rows<'a> {
    ghost use Rattle.std.specs.Prelude.{ℕ, List};
    ghost use Rattle.mother.specs.Generators.{Lawful};

    ghost Value = { List ℕ };

    ghost view = { λ r. r.bytes.now };

    ghost invariant = { λ r. Lawful r.bytes.now };
}

impl<'a> Rows<'a> {
    // The rows of these bytes, if these are whole rows, and neither none nor too many.
    pub(crate) fn of(bytes: &'a [u8]) -> Option<Rows<'a>>
        ensures { MatchOption result (Lawful bytes.now → ⊥)
            (λ rows. (rows ≡ bytes.now) × Lawful bytes.now) }
    {
        match bytes.as_chunks::<ROW_BYTES>() {
            (rows, []) if (1..=MOST).contains(&rows.len()) => Some(Rows { bytes }),
            _ => None,
        }
    }

    // The bytes of each row.
    pub(crate) fn chunks(&self) -> &[[u8; ROW_BYTES]]
        ensures are { result.now ≡ chunks self.now }
        ensures count { length result.now ≡ count self.now }
        ensures some { 1 ≤ count self.now }
        ensures few { count self.now ≤ 16 }
    {
        self.bytes.as_chunks().0
    }
}
