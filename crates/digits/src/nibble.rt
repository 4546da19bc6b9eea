ghost use Rattle.std.specs.Prelude.{◌≡◌, ◌+◌, ◌*◌, ◌/◌, ◌%◌, ◌<◌};
ghost use Rattle.digits.specs.Digits.{digit_of};
ghost use Rattle.digits.specs.Nibbles.{ReadsDigit};

use crate::HexError;
use std::marker::Model;

// A value below 16, which one hex digit spells.
#[derive(Clone, Copy)]
pub struct Nibble {
    value: u8,
}

impl Model for Nibble {
    ghost use Rattle.std.specs.Prelude.{ℕ, ◌<◌};

    ghost Value = { ℕ };

    ghost view = { λ n. n.value };

    ghost invariant = { λ n. n.value < 16 };

    ghost inverse = { λ v. record { value = v } };
}

// The value of a hex digit, lower-case.
impl TryFrom<u8> for Nibble {
    type Error = HexError;

    ghost try_from_gives = { ReadsDigit };

    fn try_from(b: u8) -> Result<Self, HexError> {
        match b {
            b'0'..=b'9' => Ok(Nibble { value: b - b'0' }),
            b'a'..=b'f' => Ok(Nibble {
                value: b - b'a' + 10,
            }),
            _ => Err(HexError::NoDigit(b)),
        }
    }
}

impl Nibble {
    // The higher and the lower half of a byte.
    pub fn both(b: u8) -> (Nibble, Nibble)
        ensures { (result.0 ≡ b / 16) × (result.1 ≡ b % 16) }
    {
        (Nibble { value: b / 16 }, Nibble { value: b % 16 })
    }

    // The byte of this half and a lower one.
    pub fn before(self, low: Nibble) -> u8
        ensures { result ≡ self * 16 + low }
    {
        16 * self.value + low.value
    }

    // The hex digit that spells it.
    pub fn digit(self) -> u8
        ensures { result ≡ digit_of self }
    {
        if self.value < 10 {
            self.value + b'0'
        } else {
            self.value - 10 + b'a'
        }
    }
}
