ghost use Rattle.std.specs.Prelude.{◌≡◌, ℕ, ◌<◌, ◌≤◌, length};

use row::Row;

mod loading;
mod steps;

// The rows of the longest IV and the longest key, twice. The probe has no heap: a register has room for them
// whatever its height.
const MOST_ROWS: usize = 64;

// The last `height` rows x_j in a ring, of which the oldest is at `head`, and the accumulator.
#[derive(Clone, Copy)]
pub struct Register {
    rows: [Row; MOST_ROWS],
    head: usize,
    height: usize,
    accumulator: Row,
    ghost inside: { head < height },
    ghost least: { 4 ≤ height },
    ghost most: { height ≤ 64 },
    ghost full: { length rows ≡ 64 },
}
