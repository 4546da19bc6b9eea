ghost use Rattle.std.specs.Prelude.{◌≡◌, ℕ, ◌<◌, length};

use row::Row;

mod turns;

// The recursion goes back by 156 rows.
pub(crate) const ROWS: usize = 156;

// The last 156 rows x_j of the recursion; the oldest is at `head`.
#[derive(Clone, Copy)]
pub struct Ring {
    rows: [Row; ROWS],
    head: usize,
    ghost inside: { head < 156 },
    ghost full: { length rows ≡ 156 },
}
