ghost use Rattle.std.specs.Prelude.{◌≡◌, replicate};
ghost use Rattle.row.specs.Rows.{zeros};
ghost use Rattle.booter.specs.Loading.{rows_given};
ghost use Rattle.booter.specs.Calls.{Sane, Loaded, Idled};

use crate::input::Rows;
use crate::register::{MOST_ROWS, Register};
use row::Row;

// Added to the last row, so that the two halves of the register differ.
const CONSTANT: Row = Row {
    l0: 314159,
    l1: 265358,
    l2: 979323,
    l3: 846264,
};

// The idle steps, which give no word, are one for each row of the register and two more.
const IDLE_MORE: usize = 2;

// Writes the rows of the IV, the key, the IV and the key over zeros, which are lent: an array that is answered would be
// copied twice. (By index: of a `zip` over `iter_mut` a loop knows only how many.)
fn write_rows(rows: &mut [Row], key: &Rows, iv: &Rows)
    requires { rows.old ≡ replicate 64 zeros }
    ensures { rows.new ≡ rows_given key.now iv.now }
{
    let (iv, key) = (iv.chunks(), key.chunks());
    for (i, bytes) in iv.iter().chain(key).chain(iv).chain(key).enumerate() {
        rows[i] = Row::from_bytes(*bytes);
    }
}

impl Register {
    // Zeros, which no key and IV give.
    pub(crate) fn new() -> Register
        ensures { Sane result }
    {
        let zeros = Row::default();
        Register {
            rows: [zeros; MOST_ROWS],
            head: 0,
            height: 4,
            accumulator: zeros,
        }
    }

    // The register before step 0. The accumulator begins with the first copy of the key's first row, its lowest bits
    // set, since the constant is added to the second copy where the key has one row.
    pub(crate) fn load(key: &Rows, iv: &Rows) -> Register
        ensures { Loaded key.now iv.now result }
    {
        let v = iv.chunks().len();
        let k = key.chunks().len();
        let height = 2 * (v + k);
        let mut rows = [Row::default(); MOST_ROWS];
        write_rows(&mut rows, key, iv);
        let last = height - 1;
        rows[last] = rows[last].wrapping_add(CONSTANT);
        Register {
            rows,
            head: 0,
            height,
            accumulator: rows[v].with_low_bits(),
        }
    }

    // Takes the idle steps.
    pub(crate) fn idle(&mut self)
        ensures { Idled self.old self.new }
    {
        for _ in 0..self.height + IDLE_MORE {
            let _ = self.step();
        }
    }
}
