ghost use Rattle.std.specs.Prelude.{◌≡◌, ◌*◌, ◌<◌};
ghost use Rattle.row.specs.Ring.{wrap};

// An index into a ring of `height` rows that may have passed the end once.
pub fn wrapped(n: usize, height: usize) -> usize
    ensures is { result ≡ wrap height n }
    ensures below { n < 2 * height → result < height }
{
    if n < height { n } else { n - height }
}
