#![tactic(auto)]

ghost use Rattle.std.specs.Prelude.{◌≡◌, ◌⊎◌, ◌++◌, IfOk, Some, None, MatchResult, alloc_error};
ghost use Rattle.digits.specs.declared.HexError.TheVariants.{NoMemory};
ghost use Rattle.digits.specs.Digits.{decimal_of, pair_of, hex_of, spelled, spelled_byte};

use nibble::Nibble;
use std::alloc::{AllocError, AllocFailed, Global};

pub mod fields;
pub mod line;
pub mod nibble;
pub mod refusals;

// How many digits a decimal number may have.
const MOST_DIGITS: usize = 10;

// A number of 1 to 10 decimal digits.
pub fn decimal(text: &[u8]) -> Option<u64>
    ensures { result ≡ decimal_of text.now }
{
    if text.is_empty() || text.len() > MOST_DIGITS {
        return None;
    }
    let mut value = 0;
    for b in text {
        value = value * 10 + u64::from(char::from(*b).to_digit(10)?);
    }
    Some(value)
}

// Why a text is no hex.
#[derive(Clone, Copy, PartialEq, Eq, Debug)]
pub enum HexError {
    OddLength,
    NoDigit(u8),
    NoMemory(AllocError),
}

// For `?` on a `Vec`. (Each error type has its own; a blanket one over them would be for a type of the library's.)
impl<T: Drop> From<AllocFailed<T>> for HexError {
    ghost from_gives = { λ _ t. t ≡ NoMemory alloc_error };

    fn from(e: AllocFailed<T>) -> HexError {
        HexError::NoMemory(e.into())
    }
}

// The byte of two hex digits.
fn byte(pair: [u8; 2]) -> Result<u8, HexError>
    ensures { MatchResult result (λ b. pair_of pair ≡ Some b) (λ _. pair_of pair ≡ None) }
{
    let [high, low] = pair;
    Ok(Nibble::try_from(high)?.before(Nibble::try_from(low)?))
}

// The bytes that pairs of hex digits spell.
pub fn hex(heap: Global, text: &[u8]) -> Result<Vec<u8>, HexError>
    ensures { MatchResult result (λ v. hex_of text.now ≡ Some v.items)
        (λ e. (e ≡ NoMemory alloc_error) ⊎ (hex_of text.now ≡ None)) }
{
    let (pairs, odd) = text.as_chunks::<2>();
    if !odd.is_empty() {
        return Err(HexError::OddLength);
    }
    let mut out = Vec::new(heap);
    for pair in pairs {
        out.push(byte(*pair)?)?;
    }
    Ok(out)
}

// A byte as two hex digits, the higher one first. (Not the library's: reading takes lower case alone, and both go by
// `Nibble`.)
fn hex_pair(b: u8) -> [u8; 2]
    ensures { result ≡ spelled_byte b }
{
    let (high, low) = Nibble::both(b);
    [high.digit(), low.digit()]
}

// Adds bytes as hex to a text.
pub fn push_hex(text: &mut Vec<u8>, bytes: &[u8]) -> Result<(), AllocError>
    ensures { IfOk result
        (λ _. text.new.items ≡ text.old.items ++ spelled bytes.now) }
{
    for b in bytes {
        text.extend_from_slice(&hex_pair(*b))?;
    }
    Ok(())
}
