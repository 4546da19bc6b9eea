ghost use Rattle.std.specs.Prelude.{◌≡◌, ℕ, ◌*◌, ◌%◌, ◌^◌};
ghost use Rattle.row.specs.Lanes.{Lane, times as times_of, ◌⊗◌, ◌⊘◌, odd_factor, inverse};
ghost use Rattle.row.specs.Undone.{Undoes};

use crate::lanewise;

// The odd product, 2xy + x + y modulo 2^32.
pub fn odd_product(x: u32, y: u32) -> u32
    ensures { result ≡ x ⊗ y }
{
    lanewise::odd_product(x, y)
}

// The product of `y` and `x` with its lowest bit set, modulo 2^32.
pub fn product(y: u32, x: u32) -> u32
    ensures { result ≡ times_of y (odd_factor x) }
{
    y.wrapping_mul(x | 1)
}

// The inverse of an odd `a` modulo 2^32. Of an even one nothing is said but that it is what the same
// steps give.
pub fn odd_inverse(a: u32) -> u32
    ensures is { result ≡ inverse a }
    ensures solves { a % 2 ≡ 1 → (a * result) % 2 ^ 32 ≡ 1 }
{
    lanewise::odd_inverse(a)
}

// The `y` whose odd product with `x` is `z`.
pub fn odd_quotient(z: u32, x: u32) -> u32
    ensures is { result ≡ z ⊘ x }
    ensures solves { result ⊗ x ≡ z }
    ensures undoes { Undoes Lane (λ y. y ⊗ x) z result }
{
    lanewise::odd_quotient(z, x)
}

// The `y` whose product with `x`, its lowest bit set, is `z`.
pub fn quotient(z: u32, x: u32) -> u32
    ensures is { result ≡ times_of z (inverse (odd_factor x)) }
    ensures undoes { Undoes Lane (λ y. times_of y (odd_factor x)) z result }
{
    z.wrapping_mul(odd_inverse(x | 1))
}
